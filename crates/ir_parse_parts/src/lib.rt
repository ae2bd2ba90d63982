//! Grammars as relations between lists of tokens and values, and readers of the parts of a module's items as trees with
//! their names as they are written.
//!
//! A form says which tokens spell which values; no reader and no order of trial occurs in it (`specs/Forms`), and any
//! type serves as tokens (`specs/Alphabet`). Below stand the tokens of `ir_lex` and the operations and types of
//! `ir_tree`. Here are the written tree of a whole module ([`Item`]), and readers of what the grammar is put together
//! from: single tokens ([`expect`]), names, types, operands of one token, numbers and literals, groups in brackets
//! however deep, and metadata, which is dropped. A name is its token with a copy of the bytes, so the tree borrows
//! nothing. Nothing is resolved: a type name may have no definition, and a local may stand for nothing.
//!
//! **Promise.** A reader gives what the reader on lists of its name gives (`Returns`, `specs/Readers`), as [`simple_at`]
//! (`specs/OperandsAt`) and [`attachments_at`] (`specs/MetadataAt`): the value with the tokens that are left, or the
//! fault and how many tokens are left at it. A reader on lists that is `Lawful` (`specs/Lawful`) reads its form, and
//! stops at the first token at which no reading goes on; each way of putting forms together keeps this. [`literal`]
//! gives the bits of a literal of a width, or none exactly where it is out of range (`specs/Literals`).
//!
//! **Cost.** A token costs its own length at most, a group or a line of metadata is linear in its tokens. Memory is
//! taken for brackets that are open, and for the nodes of trees.
//!
//! **Not shown.** Laws over all grammars are lemmas: a clause here speaks of one, as [`listing_faults`] does. That
//! memory is found: of a reading that ran out of it nothing is said.
#![tactic(auto)]

mod address;
mod brackets;
mod fault;
mod finished;
mod laws;
mod literals;
mod metadata;
mod metadata_behind;
mod name;
mod numerals;
mod operands;
mod places;
mod raw;
mod shape;
mod terminals;
mod tokens;

pub use address::{Address, Index, Level, Steps};
pub use brackets::{Bracket, BracketMove, group_at, move_of};
pub use fault::{Fault, ReaderError, TokenFault};
pub use finished::done;
pub use laws::{groups, listing_examples, listing_faults, listing_is_read, listing_rule};
pub use literals::literal;
pub use metadata::{attached_at, attachments_at, meta_at, metadata_line_at, rest_of_line_at};
pub use metadata_behind::{metadata_behind_at, node_yet_at};
pub use name::Name;
pub use numerals::{alignment_at, decimal};
pub use operands::{
    bit_at, global_named, group_named, integer_at, local_at, maybe_at, memory_refusal, named,
    operand_means, reg_at, reg_of, result_at, scalar_at, simple_at, type_refusal, width,
};
pub use places::{Before, Position};
pub use raw::{
    Argument, Block, Case, FunctionHeader, Incoming, Init, InitHead, InitPart, Instr, Item,
    Operand, Param, Terminator, Variable, WrittenLine,
};
pub use shape::{Typed, WrittenShape, WrittenShapeNode};
pub use terminals::{expect, refusal};
pub use tokens::Tokens;
