//! Sets of small numbers, as rows of bits.
//!
//! A [`Bits`] is a set of members below its size: the locals that are available at a point, the blocks that are
//! reached, the points at which a fact holds. Contracts see it as a list of booleans, one for each number below the
//! size. Nothing stands below this crate.
//!
//! **Promise.** Each call is its operation on sets, for every size (`specs/Sets`).
//!
//! **Cost.** A row of size `n` takes `n / 64` words, rounded up. A meet, a join, a copy and a comparison go word by
//! word; a test or a change of one member takes constant time. Only the calls that make a row take memory.
//!
//! **Not shown.** That memory is found.
#![tactic(auto)]

mod bits;
mod laws;
mod word;

pub use bits::Bits;
pub use laws::{join_is_union, meet_is_intersection};
