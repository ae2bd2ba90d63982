//! Summaries of the definitions of a module: all that the decisions of a link look at.
//!
//! A link decides liveness, imports and names by summaries alone and never opens a body for it (Johnson, Amini and Li,
//! "ThinLTO: Scalable and Incremental LTO", 2017). The summary of a function says how long it is, whom it calls
//! directly and what it refers to; that of a variable what its initialiser refers to. Below stand `ir_tree`, for
//! modules, and `indexmap`, which keeps names in the order in which they first come.
//!
//! **Promise.** Summaries are those of the definition (`specs/Summaries`), and so is what a definition refers to
//! ([`references`]).
//!
//! **Cost.** A body is walked three times, and no name is copied but those of the summary.
//!
//! **Not shown.** That memory is found.
#![tactic(auto)]

mod bodies;
mod callees;
mod count;
mod globals;
mod initials;
mod names;
mod summaries;
mod summary;

pub use globals::references;
pub use summaries::summarise;
pub use summary::Summary;
