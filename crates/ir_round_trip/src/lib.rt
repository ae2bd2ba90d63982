//! The printed text of a module is read again as that module.
//!
//! Below stand reading (`ir_parse`) and printing (`ir_print`) with all that they stand on, and the tasks and final
//! names of a link (`lto_task`, `merge_meaning`). Laws are functions whose contracts state them. A printed text is cut
//! into the tokens that it was put together from (`cutting`); types, operands, instructions and heads are read
//! (`parts`), and so are lines, definitions, variables and modules (`printing_laws`), as raw items that name each local
//! by its number; what is read resolves to what was printed (`resolution`), within the limits of the grammar
//! (`limits`). Values that a link takes from modules that were read, under final names, keep what the laws ask
//! (`link_parts`, `specs/Renamed`).
//!
//! **Promise.** What is read is, printed, read again as itself ([`read_modules_are_read`], `specs/Laws`), and so is a
//! verified module that is numbered along its text and within the grammar's limits ([`verified_modules_are_read`],
//! `specs/Within`), as a link prints it. Two verified modules with one text, numbered so and of names and values within
//! the limits, are one, and so are two tasks ([`modules_with_one_text_are_one`], [`tasks_with_one_text_are_one`],
//! `specs/OneText`). [`read_twice`] does it with the real calls.
//!
//! **Cost.** Laws don't run. [`read_twice`] costs two readings and a print; want of memory is answered as such.
//!
//! **Not shown.** That a linked module is within the limits, which inlining may pass. That memory is found.
#![tactic(auto)]

mod cutting;
mod laws;
mod limits;
mod link_parts;
mod parts;
mod printing_laws;
mod resolution;
mod trip;

pub use cutting::{
    text_is_cut_into_its_tokens, tokens_are_of_their_classes, tokens_stand_for_what_is_printed,
};
pub use laws::{
    modules_numbered_anew_are_read, modules_with_one_text_are_one, read_modules_are_known,
    read_modules_are_numbered, read_modules_are_read, read_modules_are_typed,
    read_modules_are_within, readable_modules_are_read, tasks_with_one_text_are_one,
    text_order_is_numbered, verified_modules_are_read,
};
pub use limits::{contents_are_bytes, items_are_within, tokens_are_cut};
pub use link_parts::{
    declarations_are_spelled, names_keep_spelling, parts_are_spelled, read_values_are_spelled,
    spelled_modules_are_told, suffixed_names_are_writable,
};
pub use parts::{
    heads_are_read, instructions_are_read, names_are_read, operands_are_read, shapes_are_read,
    sound_items_are_read, target_lines_are_read, terminators_are_read, types_are_read,
};
pub use printing_laws::{
    calls_are_read, definitions_are_read, lines_are_read, modules_are_read, variables_are_read,
};
pub use resolution::{functions_resolve, numbered_functions_are_known, variables_resolve};
pub use trip::{Trip, read_twice};
