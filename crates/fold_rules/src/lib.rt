//! Constant folding and algebraic simplification of one instruction: the rule table.
//!
//! [`rule`] gives the operand that may stand for what an instruction gives, by the first row of the table of
//! `ir_meaning` that fits (`specs/Table` there, one line a row; LLVM's InstSimplify has such a table). Below stand
//! `ir_tree`, `lto_bits` and `ir_meaning`.
//!
//! **Promise.** What is given is that row's operand, and none exactly where no row fits. That each row may stand for
//! what its instruction gives, under some free choice, is the law `table_right` of `ir_meaning`, of the same
//! definition.
//!
//! **Cost.** No call but [`Folded::operand`] takes memory: an operand of the instruction is borrowed. A row costs a
//! constant number of machine instructions, but for names that are compared and for the indices of an address, which
//! are gone through twice.
//!
//! **Not shown.** That the table has each simplification that LLVM's has: it has far fewer.
#![tactic(auto)]

mod address;
mod binary;
mod choice;
mod comparison;
mod folded;
mod operands;
mod rows;
mod table;

pub use folded::Folded;
pub use operands::is_same;
pub use table::rule;
