//! A claim word: workers draw the numbers below a limit, each number once and none left out.
//!
//! The word is the next number to draw. A worker draws by one atomic addition of one, with no lock and no memory taken:
//! what it finds in the word is its number or, at or past the limit, the end. This is the self-scheduling of a loop by
//! fetch-and-add (Gottlieb, Lubachevsky and Rudolph, "Basic techniques for the efficient coordination of very large
//! numbers of cooperating sequential processors", ACM TOPLAS 5(2), 1983). The addition is an `atomicrmw add` with the
//! ordering `seq_cst` of the LLVM Language Reference. Each worker has a [`ClaimPass`]. The first one comes with the
//! [`Claims`]; further ones are split off a pass, and passes are joined again. What a pass has drawn is its view, a
//! value of [`Draws`] that stands in contracts alone. Below stands `atomic_table` alone.
//!
//! **Promise.** In every interleaving of all calls, a number is drawn by one pass and once, and a pass gets nothing
//! only where the word was at or past the limit. A pass that has taken in all others has drawn each number below the
//! word and the limit, once. So what is done for each number is done once, whoever drew it.
//!
//! **Cost.** A draw and a join take one atomic step each, a split at most one for each caller and one more, and a close
//! reads the word.
//!
//! **Not shown.** That workers draw in turn, or that each gets a number.
#![tactic(auto)]

mod claims;
mod rule;
mod view;

pub use claims::{ClaimPass, Claims, Full};
pub use view::Draws;
