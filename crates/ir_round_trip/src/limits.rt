//! What the grammar spells is within its limits, and what stands in it can be written again.
//!
//! Laws that tie the grammar's forms (`ir_parse_parts`, `ir_parse_bodies`, `ir_parse_globals`, `ir_parse`) to what a
//! printer needs. They go over the tokens of a text of bytes: each of them is bytes, and the name
//! that one of a global's kind stands for is bytes without a zero byte and isn't kept for LLVM
//! itself. From a whole module on down: each item that the grammar spells has such names, counts
//! below 2^64, phis with an entry, strings of bytes and a data layout that is supported, and there are
//! so many names, parameters, blocks and instructions as the grammar takes. The laws are functions
//! whose contracts state them; nothing here runs.

ghost use Rattle.ir_round_trip.specs.PrintedLaws.{ContentsAreBytes, ItemsAreWithin, TokensAreCut};

/// What a name or a string of bytes stands for is bytes (LangRef, "Identifiers", "Complex
/// Constants").
pub fn contents_are_bytes()
    ensures { ContentsAreBytes }
{}

/// The tokens of a text of bytes: each is bytes, and one of a global's kind stands for a name that
/// can be written (LangRef, "Identifiers").
pub fn tokens_are_cut()
    ensures { TokensAreCut }
{}

/// The items that such tokens spell keep the limits of the grammar, and there are no more of them
/// that define or declare a name than it takes (LangRef, "Module Structure").
pub fn items_are_within()
    ensures { ItemsAreWithin }
{}
