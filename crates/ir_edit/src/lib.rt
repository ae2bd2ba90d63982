//! Edits of whole functions: numbers shifted, uses replaced, and all numbered anew; and where a function uses locals.
//!
//! An edit changes each number, where it is defined and where it is used, and each operand, the same at every place;
//! all else stays. One walk makes them all ([`edited`]), also those of crates above that meet the trait [`Edit`]; parts
//! of a block are edited alone by [`phis_edited`], [`instr_edited`] and [`end_edited`]. [`push_uses`] finds the uses of
//! locals in blocks, of any kind that meets the trait [`FindUses`], in the order of the text (`specs/Uses`). Below
//! stands `ir_tree`.
//!
//! **Promise.** Each call gives what the definitions say: of a use ([`substitute`], `specs/Substituted`), of a number
//! ([`shift_numbers`] and [`renumber`], `specs/Numbered`). Laws: numbering gives no two numbers one
//! ([`places_differ`]), and in a formed function the places of the text ([`text_order_counts`]); a sound function is
//! sound under other numbers ([`shifted_is_sound`], [`text_order_is_sound`]).
//!
//! **Cost.** Each edit copies the function once; a use costs one look-up in a table of as many entries as there are
//! replacements or definitions.
//!
//! **Not shown.** That memory is found; a number past 32 bits is answered as want of it.
#![tactic(auto)]

mod edit;
mod instr;
mod laws;
mod numbering;
mod operands;
mod shift;
mod substitution;
mod text_order;
mod uses;
mod walk;

pub use edit::Edit;
pub use instr::instr_edited;
pub use laws::{places_differ, shifted_is_sound, text_order_counts, text_order_is_sound};
pub use shift::shift_numbers;
pub use substitution::substitute;
pub use text_order::renumber;
pub use uses::{FindUses, push_uses};
pub use walk::{edited, end_edited, phis_edited};
