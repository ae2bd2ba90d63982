//! Streams of bytes, one byte a call.
ghost use Rattle.std.specs.Prelude.{◌≡◌, ◌≤◌, ℕ, List, [], ◌∷◌, Option, OnOk, OnErr};
ghost use Rattle.std.specs.Io.KnownBytes.{Keeps, Appends};
ghost use Rattle.lto_outside.specs.Cause.{Rose};
ghost use Rattle.lto_outside.specs.Bytes.{Yields};

use crate::fault::Fault;

/// A source of bytes.
pub trait ByteIn {
    /// The bytes that are left, where they are told.
    ghost left: { Self → Option (List ℕ) };

    /// How often a call has failed.
    ghost faults: { Self → ℕ };

    /// The next byte, or none where no byte is left. After a fault what is left is as before.
    fn next(&mut self) -> Result<Option<u8>, Fault>
        ensures byte { Yields (left self.old) (left self.new) result }
        ensures later { faults self.old ≤ faults self.new }
        ensures cause { OnErr result (Rose (faults self.old) (faults self.new)) };

    /// How often a call has failed. It stands still at `u64::MAX`.
    fn faults(&self) -> u64
        ensures { result ≡ faults self.now };
}

/// A sink of bytes.
pub trait ByteOut {
    /// The bytes that were sent, where they are told.
    ghost sent: { Self → Option (List ℕ) };

    /// How often a call has failed.
    ghost faults: { Self → ℕ };

    /// Sends the byte behind what was sent. After a fault what was sent is as before.
    fn push(&mut self, b: u8) -> Result<(), Fault>
        ensures added { OnOk result (Appends (sent self.old) (sent self.new) (b ∷ [])) }
        ensures same { OnErr result (Keeps (sent self.old) (sent self.new)) }
        ensures later { faults self.old ≤ faults self.new }
        ensures cause { OnErr result (Rose (faults self.old) (faults self.new)) };

    /// How often a call has failed. It stands still at `u64::MAX`.
    fn faults(&self) -> u64
        ensures { result ≡ faults self.now };
}
