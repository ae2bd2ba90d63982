//! What the grammar spells is such as resolution asks of a text.
//!
//! Laws that tie the grammar's forms to what a written function or variable has to be so that what it
//! resolves to is formed. They go over tokens of which each that names an integer in memory writes
//! 8, 16, 32 or 64 bits, as the tokens of every text do (`ir_lex`). From a whole module on down: each
//! item of one that the grammar spells is written so, and so are its type names, its shapes, its
//! operands and its arguments. The laws are functions whose contracts state them; nothing here runs.
ghost use Rattle.ir_parse.specs.Spelled.{ArgumentsAreWritten, FrontIsSized, ItemsAreWritten, OperandsAreWritten, ShapesAreWritten, TokensAreSized, TypesAreWritten};

/// The tokens of any text: one of the kind of integers in memory is `i8`, `i16`, `i32` or `i64`
/// (LangRef, "Integer Type").
pub fn tokens_are_sized()
    ensures { TokensAreSized }
{}

/// The same holds of the tokens before any place of a text, as before the first at which none stands.
pub fn front_is_sized()
    ensures { FrontIsSized }
{}

/// A shape that the grammar spells has integers of 8, 16, 32 and 64 bits (LangRef, "Structure Type",
/// "Array Type").
pub fn shapes_are_written()
    ensures { ShapesAreWritten }
{}

/// An operand or an argument that the grammar spells has a literal of its width, and types of 1 to
/// 64 bits (LangRef, "Constants").
pub fn operands_are_written()
    ensures operands { OperandsAreWritten }
    ensures arguments { ArgumentsAreWritten }
{}

/// Each item of a module that the grammar spells is such as resolution asks for: variables,
/// type definitions, declarations, and definitions whatever their attribute groups say (LangRef,
/// "Module Structure").
pub fn items_are_written()
    ensures { ItemsAreWritten }
{}

/// The type names of such items stand for shapes of that kind, where they are right (LangRef,
/// "Structure Type", "Opaque Structure Types").
pub fn types_are_written()
    ensures { TypesAreWritten }
{}
