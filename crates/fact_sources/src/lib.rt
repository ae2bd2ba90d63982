//! Where a function names locals, and uses of them replaced, everywhere or at points.
//!
//! Whether operands are among some locals is said by `specs/Naming`, which locals a block defines, or all blocks that
//! aren't reached, by `specs/Apart`. A set of locals is what answers [`Locals`]. A [`Substitution`] is one table by
//! which uses of locals are both found and replaced, in the function that it makes or in place ([`replace_all`]), and
//! [`function_at`] replaces each use by the value of a [`Fact`] that holds there (`specs/AtPoints`). [`places`] gives
//! the place of the block that defines each local, [`places_by_number`] that of a block. [`above`] gives an order in
//! which blocks that aren't reached stand as well: dominance with an edge more from the entry to each block to which no
//! earlier block leads. Below stand `ir_tree`, `ir_flow`, `lto_sets`, `ir_edit`, and `ir_meaning` for words of the
//! definitions.
//!
//! **Promise.** Each call equals its definition. A block that stands above another, and is another, stands above its
//! predecessors as well ([`is_above`]), but for the entry.
//!
//! **Cost.** Each function is one walk, and dominators are those of `ir_flow`; who calls [`above`] has the predecessor
//! edges. In place what names no local that is replaced stays as it is. At points a use is looked up in each fact.
//!
//! **Not shown.** Here, that a fact holds: `ir_facts` has what may stand for a local, and the laws.
#![tactic(auto)]

mod at_points;
mod entered;
mod fact;
mod naming;
mod phis;
mod placing;
mod rebuilt;
mod replacing;
mod substitution;
mod table;
mod unreached;

pub use at_points::function_at;
pub use entered::{above, is_above};
pub use fact::Fact;
pub use naming::{
    Beside, Locals, block_names, end_names, instr_names, is_among, is_local, phis_name,
};
pub use phis::{is_phi, phi_locals};
pub use placing::{places, places_by_number};
pub use rebuilt::with_blocks;
pub use replacing::replace_all;
pub use substitution::Substitution;
pub use unreached::{apart, defined, firm, resting, set_of};
