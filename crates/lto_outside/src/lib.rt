//! The linker's outside as five traits: named files, the cache's directories, input, output, and a gate through which
//! tests hold workers back.
//!
//! Every object counts its faults: a call that answers a fault raised the count in that very call, and the count never
//! falls. What an object holds, has left or was sent is told or not: [`Files`], [`CacheDisk`], [`ByteIn`] and
//! [`ByteOut`] say what each call does to it where it is told. [`Files`] also keeps which calls were made, in order and
//! with their answers, so that a contract above can say that nothing was put, or which fetch it was that failed. Below
//! stands `ir_tree`, for [`ir_tree::Text`] alone.
//!
//! **Promise.** What the code above may know of files and streams. Laws: calls in a row are replayed by their answers
//! ([`calls_in_a_row`]), and a disk that is honest stays so ([`disk_stays_honest`]).
//!
//! **Cost.** Nothing here allocates or takes time.
//!
//! **Not shown.** That an outside is as its traits say: `outside_memory` is proved to be, `outside_real` is trusted for
//! what it holds.
#![tactic(auto)]

mod bytes;
mod disk;
mod fault;
mod files;
mod gate;
mod laws;

pub use bytes::{ByteIn, ByteOut};
pub use disk::{CacheDisk, Meaning};
pub use fault::{Fault, FetchFault, LoadFault};
pub use files::Files;
pub use gate::{Gate, Stage};
pub use laws::{calls_in_a_row, disk_stays_honest};
