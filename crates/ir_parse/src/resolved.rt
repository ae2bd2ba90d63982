//! What the reader resolves is formed.
//!
//! Laws of the resolution of functions and variables (`ir_parse_names`), as functions whose contracts
//! state them. What is read has names; the tree that it resolves to has numbers and shapes, and a
//! module keeps that each of its functions and variables is formed: types of 1 to 64 bits, numbers
//! in their range, each local and each block defined once and there where it is used, shapes within
//! the limits, alignments that are powers of two. The numbers are right whatever is written, since
//! the definitions of a text are counted in its order and a use resolves to the place of one; the
//! rest is right where the text has what the grammar makes (`specs/Written.antt`). That this can be
//! met is shown on a function of two blocks (`specs/Worked.antt`).
ghost use Rattle.ir_parse.specs.Resolved.{DefinitionsDiffer, FunctionsAreFormed, OneResolves, ShapesAreWithin, VariablesAreFormed};

/// Each local and each block of a function that was resolved has a number of its own, whatever its
/// text says (LangRef, "Identifiers").
pub fn definitions_differ()
    ensures { DefinitionsDiffer }
{}

/// A shape that expands within the limits is one that memory may hold: at most 32 levels, and at
/// most 2^31 bytes in it and in each shape within (LangRef, "Structure Type", "Array Type").
pub fn shapes_are_within()
    ensures { ShapesAreWithin }
{}

/// A function that the grammar makes and whose names resolve is formed.
pub fn functions_are_formed()
    ensures { FunctionsAreFormed }
{}

/// A variable that the grammar makes and whose names resolve is formed (LangRef, "Global
/// Variables").
pub fn variables_are_formed()
    ensures { VariablesAreFormed }
{}

/// A function of two blocks is one that the grammar makes, and its names resolve: what
/// `functions_are_formed` asks for can be met.
pub fn one_resolves()
    ensures { OneResolves }
{}
