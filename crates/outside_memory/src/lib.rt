//! The linker's outside in memory, for tests.
//!
//! Below stand `lto_outside`, whose clauses each object here meets, and `ir_tree` for texts. [`MemoryFiles`],
//! [`MemoryDisk`], [`MemoryIn`] and [`MemoryOut`] tell all that they hold, have left or were sent. Each counts its
//! calls ([`Calls`]) and is given a list of those that are to fail ([`Failure`]), with what a failed write leaves.
//! [`MemoryGate`] lets every worker pass and counts how often each stage was passed.
//!
//! **Promise.** A call that is to fail fails, and leaves what it is asked to leave. Any other gives what is held, or
//! makes a name hold just the bytes, unless memory is refused; a fetch fails also where nothing has the name
//! ([`MemoryFiles`], `specs/Files`; [`MemoryDisk`], `specs/Disk`).
//!
//! **Cost.** What files and disks hold is a list with the newest write first: a call takes time in the number of writes
//! and of calls that are to fail, and copies the bytes. A put for which memory is refused is a fault that is counted.
//!
//! **Not shown.** How often a gate was passed, which has no clause. That memory is found. That real files behave alike.
#![tactic(auto)]

mod bytes;
mod calls;
mod disk;
mod failure;
mod files;
mod gate;

pub use bytes::{MemoryIn, MemoryOut};
pub use calls::Calls;
pub use disk::{DiskEntry, MemoryDisk};
pub use failure::{Failure, Leaves};
pub use files::{Entry, MemoryFiles};
pub use gate::MemoryGate;
