//! The disk of the linker's cache.
ghost use Rattle.std.specs.Prelude.{◌≡◌, ◌≤◌, ℕ, List, Option, OnOk, OnErr, IsErrOf};
ghost use Rattle.lto_outside.specs.Cause.{Rose};
ghost use Rattle.lto_outside.specs.DiskStore.{DiskStore, DiskStays, Loads, Saves, SavesPart};

use crate::fault::{Fault, LoadFault};
use ir_tree::Text;
use std::alloc::Global;

/// Which text is made of which key. A type without data names it, and so a disk can be told by its type what an honest
/// entry is.
pub trait Meaning {
    /// The text is what is made of the key.
    ghost fits: { List ℕ → List ℕ → Type 0 };
}

/// The cache's directories, each of files by name.
pub trait CacheDisk: Drop {
    /// What each name of each directory holds, where that is told.
    ghost held: { Self → Option DiskStore };

    /// How often a call has failed.
    ghost faults: { Self → ℕ };

    /// Which text a link makes of which key. It says what an honest entry is.
    ghost fits: { List ℕ → List ℕ → Type 0 };

    /// All that the file of this name in this directory holds, or none where there is no such file. No file changes.
    fn load(&mut self, alloc: Global, dir: &str, name: &str) -> Result<Option<Text>, LoadFault>
        ensures bytes { Loads (held self.old) dir.now name.now result }
        ensures stay { DiskStays (held self.old) (held self.new) }
        ensures later { faults self.old ≤ faults self.new }
        ensures cause { IsErrOf result LoadFault.Fault → Rose (faults self.old) (faults self.new) };

    /// Makes the file of this name in this directory hold just these bytes. After a fault the file is as it was, is
    /// absent, or holds a front of the bytes. Other files stay.
    fn save(&mut self, dir: &str, name: &str, bytes: &[u8]) -> Result<(), Fault>
        ensures written { OnOk result (Saves (held self.old) (held self.new) dir.now name.now bytes.now) }
        ensures part { OnErr result (SavesPart (held self.old) (held self.new) dir.now name.now bytes.now) }
        ensures later { faults self.old ≤ faults self.new }
        ensures cause { OnErr result (Rose (faults self.old) (faults self.new)) };

    /// How often a call has failed. It stands still at `u64::MAX`.
    fn faults(&self) -> u64
        ensures { result ≡ faults self.now };
}
