//! The concurrent core of a link, as a machine of single events.
//!
//! Links share one list of cache entries and one disk. Each worker of a link draws a number, looks up the number's key,
//! compiles on a miss, and keeps what it compiled; each of these is one event, and any order of events is a run. The
//! core knows no thread, word or lock. [`Core::step`] is the pure machine, event by event, and changes nothing where it
//! refuses. Below stands `ir_tree` for the texts.
//!
//! **Promise.** Over every run each result is made of the task that its key spells, and no number is lost or drawn
//! twice ([`over_every_run`]).
//!
//! **Cost.** This is a model that also runs. A look-up goes through the entries and the disk's pairs one by one, a kept
//! pair moves the disk's other pairs up by one, and each event copies at most one text and two keys.
//!
//! **Not shown.** That the pool and the cache are this machine. No command reaches it: tests alone drive it.
#![tactic(auto)]

mod copies;
mod event;
mod laws;
mod link;
mod lookup;
mod machine;

pub use event::{Act, CoreLink, DiskPair, Event, Phase, StepError};
pub use laws::{MadeOf, over_every_run};
pub use machine::Core;
