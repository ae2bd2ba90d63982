//! Data flow over the functions of LLVM IR: predecessor edges, the blocks that are reached, dominators, and greatest
//! solutions of equations.
//!
//! A function's blocks go by their place, from 0, which is the entry. Below stand `ir_tree`, with functions and with
//! what edges, paths, dominance, greatest families and availability are, and `lto_sets`, with sets as rows of bits.
//!
//! **Promise.** The edges ([`preds`]) and the blocks that are reached ([`reachable`]) are those of the definitions;
//! [`Dominators`] answers dominance by paths (`specs/Dominance`); [`greatest`] gives the greatest solution of any
//! lawful equations ([`Equations`]), whose marks hold on every path; and a local that one block defines is available
//! exactly where that block dominates ([`available_by_dominance`]), so that what is available need not be kept as sets.
//! A [`Flow`] has a function's edges and reached blocks; it goes with a module ([`AnalysedModule`]) and with a global
//! value ([`AnalysedValue`]), so that a function's control flow need not be found again where it is handed to.
//!
//! **Cost.** Edges and reached blocks take time and memory linear in blocks, edges and the greatest number of a block.
//! Dominators take two rounds over the edges where control flow is reducible, each meeting of two blocks a logarithm of
//! the tree's depth, and three numbers a block; elsewhere a round more for each in which an immediate dominator moves.
//! [`greatest`] takes a bit for each pair of block and member.
//!
//! **Not shown.** How many rounds there are; that memory is found.
#![tactic(auto)]

mod analysed_module;
mod analysed_value;
mod chains;
mod dominators;
mod flow;
mod graph;
mod laws;
mod narrow;
mod predecessors;
mod reach;
mod search;
mod solution;
mod system;
mod tree;
mod work_list;

pub use analysed_module::AnalysedModule;
pub use analysed_value::AnalysedValue;
pub use dominators::Dominators;
pub use flow::Flow;
pub use graph::Edges;
pub use laws::{
    all_are_available, available_by_dominance, available_is_passed, greatest_is_marked,
    marks_hold_from_entry, marks_hold_on_paths, one_greatest,
};
pub use predecessors::{preds, push_targets};
pub use reach::reachable;
pub use solution::greatest;
pub use system::Equations;
