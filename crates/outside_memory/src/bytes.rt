//! Streams in memory.
ghost use Rattle.std.specs.Prelude.{◌≡◌, ◌≤◌, [], ◌∷◌, Some, OnOk, OnErr, IsTrue, IsErr, is_err};
ghost use Rattle.std.specs.Io.KnownBytes.{Keeps, Appends};
ghost use Rattle.lto_outside.specs.Bytes.{Yields};
ghost use Rattle.lto_outside.specs.Cause.{Rose};
ghost use Rattle.outside_memory.specs.Bytes.{in_left, in_calls, in_failing, out_sent, out_calls, out_failing};
ghost use Rattle.outside_memory.specs.Calls.{no_calls, counted};
ghost use Rattle.outside_memory.specs.Failures.{is_listed};

use crate::calls::Calls;
use ir_tree::Text;
use lto_outside::{ByteIn, ByteOut, Fault};
use std::alloc::Global;

/// Input in memory.
#[derive(Drop)]
pub struct MemoryIn {
    bytes: Vec<u8>,
    at: usize,
    calls: Calls,
    failing: Vec<u64>,
}

impl MemoryIn {
    /// Input of these bytes. The calls of these numbers are to fail.
    pub fn new(bytes: Vec<u8>, failing: Vec<u64>) -> Self
        ensures left { in_left result ≡ bytes.items }
        ensures calls { in_calls result ≡ no_calls }
        ensures failing { in_failing result ≡ failing.items }
    {
        MemoryIn {
            bytes,
            at: 0,
            calls: Calls::none(),
            failing,
        }
    }

    /// The bytes that are left.
    pub fn left(&self) -> &[u8]
        ensures { result.now ≡ in_left self.now }
    {
        self.bytes.get(self.at..).unwrap_or(&[])
    }

    /// The calls that were made, and those of them that failed.
    pub fn calls(&self) -> Calls
        ensures { result ≡ in_calls self.now }
    {
        self.calls
    }
}

impl ByteIn for MemoryIn {
    ghost use Rattle.std.specs.Prelude.{Some, ℕ};
    ghost use Rattle.outside_memory.specs.Bytes.{in_left, in_calls};

    ghost left = { λ m. Some (in_left m) };

    ghost faults = { λ m. (in_calls m).failed };

    fn next(&mut self) -> Result<Option<u8>, Fault>
        ensures byte { Yields (Some (in_left self.old)) (Some (in_left self.new)) result }
        ensures later { (in_calls self.old).failed ≤ (in_calls self.new).failed }
        ensures cause { OnErr result (Rose (in_calls self.old).failed (in_calls self.new).failed) }
        ensures fails { is_err result ≡ is_listed (in_failing self.old) (in_calls self.old).made }
        ensures counts { in_calls self.new ≡ counted (in_calls self.old) (is_err result) }
        ensures failing { in_failing self.new ≡ in_failing self.old }
    {
        let number = self.calls.call();
        if self.failing.contains(&number) {
            self.calls.fail();
            return Err(Fault);
        }
        if self.at < self.bytes.len() {
            let byte = self.bytes[self.at];
            self.at += 1;
            Ok(Some(byte))
        } else {
            Ok(None)
        }
    }

    fn faults(&self) -> u64 {
        self.calls.failed
    }
}

/// Output in memory.
#[derive(Drop)]
pub struct MemoryOut {
    bytes: Text,
    calls: Calls,
    failing: Vec<u64>,
}

impl MemoryOut {
    /// No output yet. The calls of these numbers are to fail.
    pub fn new(alloc: Global, failing: Vec<u64>) -> Self
        ensures sent { out_sent result ≡ [] }
        ensures calls { out_calls result ≡ no_calls }
        ensures failing { out_failing result ≡ failing.items }
    {
        MemoryOut {
            bytes: Text::new(alloc),
            calls: Calls::none(),
            failing,
        }
    }

    /// The bytes that were sent.
    pub fn sent(&self) -> &[u8]
        ensures { result.now ≡ out_sent self.now }
    {
        self.bytes.as_slice()
    }

    /// The calls that were made, and those of them that failed.
    pub fn calls(&self) -> Calls
        ensures { result ≡ out_calls self.now }
    {
        self.calls
    }
}

impl ByteOut for MemoryOut {
    ghost use Rattle.std.specs.Prelude.{Some, ℕ};
    ghost use Rattle.outside_memory.specs.Bytes.{out_sent, out_calls};

    ghost sent = { λ m. Some (out_sent m) };

    ghost faults = { λ m. (out_calls m).failed };

    fn push(&mut self, b: u8) -> Result<(), Fault>
        ensures added { OnOk result (Appends (Some (out_sent self.old)) (Some (out_sent self.new)) (b ∷ [])) }
        ensures same { OnErr result (Keeps (Some (out_sent self.old)) (Some (out_sent self.new))) }
        ensures later { (out_calls self.old).failed ≤ (out_calls self.new).failed }
        ensures cause { OnErr result (Rose (out_calls self.old).failed (out_calls self.new).failed) }
        ensures fails { IsTrue (is_listed (out_failing self.old) (out_calls self.old).made) → IsErr result }
        ensures counts { out_calls self.new ≡ counted (out_calls self.old) (is_err result) }
        ensures failing { out_failing self.new ≡ out_failing self.old }
    {
        let number = self.calls.call();
        if self.failing.contains(&number) {
            self.calls.fail();
            return Err(Fault);
        }
        match self.bytes.push(b) {
            Ok(()) => Ok(()),
            Err(_) => {
                self.calls.fail();
                Err(Fault)
            }
        }
    }

    fn faults(&self) -> u64 {
        self.calls.failed
    }
}
