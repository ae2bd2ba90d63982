//! The linked module, of what is made of all modules.
//!
//! A link keeps what is reached from the exported names by what definitions refer to. In the linked module an exported
//! value is external and every other one internal, and in it stand variables, then declarations of the outside's
//! functions that are in use and that nobody defines, then functions, each group by name in the order of bytes. Values
//! of one name stay or go together, in the order in which they are given. The text is joined from pieces, which say of
//! each definition its name, its references and its text: no text is looked into but for how it begins, which tells a
//! function from a variable. What no other module refers to may be dropped before that, module by module ([`strip`],
//! `specs/Strips`): the text is the same. Below stand `lto_task`, for pieces, `combined_index`, whose walk finds what is
//! reached, `indexmap`, for names, `ir_print`, for the text of a module, and `merge_meaning`, whose words the laws use.
//!
//! **Promise.** [`emit`] joins the text of the definition (`specs/Joins`), and of the pieces of definitions that is the
//! text of their linked module (`specs/Emissions`). Laws: its values are one list, whole and sound, and an order of the
//! kept definitions, which refer to one another alone.
//!
//! **Cost.** Each name is looked up for each reference to it, and each group is sorted once; each byte is written once.
//! Time and memory are linear but for the sorting.
//!
//! **Not shown.** That memory is found.
#![tactic(auto)]

mod dropping;
mod graph;
mod host;
mod joining;
mod kept;
mod laws;
mod order;
mod settling;

pub use dropping::strip;
pub use joining::emit;
pub use laws::{
    emission_is_one, emission_is_reordering, emission_is_whole, joined_is_emission,
    stripped_is_join,
};
pub use settling::Exported;
