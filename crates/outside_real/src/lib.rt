//! The linker's outside over real files, standard input and standard output.
//!
//! Below stand `lto_outside`, `ir_tree` for texts, and std's files. The adapters are the edge that is trusted: they
//! meet every clause of `lto_outside` but tell no content. [`RealFiles`] takes `-` for standard input and output;
//! [`RealDisk`] writes an entry under a name with `.part` and renames it, so that a program that is stopped leaves the
//! old entry or the new one; [`RealGate`] lets every worker pass at once.
//!
//! **Promise.** Each object counts its faults, from 0 ([`Faults`], `specs/Faults`), and a fetch of [`RealFiles`] gives
//! at most 16 MiB. Within the crate it is proved besides that what was read is all that the reader had.
//!
//! **Cost.** A fetch or load takes time and memory in the size of the file, at most 16 MiB or 1 GiB; a longer entry of
//! the cache is a fault. A byte of a stream takes a call of the reader or writer. A save for whose names memory is
//! refused is a fault.
//!
//! **Not shown.** That a real file holds what was put, a renamed entry what was saved, and that streams give and take
//! bytes in order: `tests_outside` tries these on a few files. What other programs do to the files in between.
#![tactic(auto)]

mod bytes;
mod disk;
mod faults;
mod files;
mod gate;
mod reading;

pub use bytes::{RealIn, RealOut};
pub use disk::RealDisk;
pub use faults::Faults;
pub use files::RealFiles;
pub use gate::RealGate;
