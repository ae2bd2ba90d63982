//! The laws, as functions whose contracts state them.
ghost use Rattle.ir_meaning.specs.ProgramLaws.{InitialisersHaveTheirSize, ProgramsAreFormed, ProgramsOpenInside, VerifiedIsRunnable};

/// The number of a variable's symbol is one of the variables.
pub fn programs_are_formed()
    ensures { ProgramsAreFormed }
{}

/// What a variable begins with points at variables alone, where it points at memory (LangRef, "Global Variables").
pub fn programs_open_inside()
    ensures { ProgramsOpenInside }
{}

/// An initialiser that fits a shape within the limits has as many bytes as the shape (LangRef, "Data Layout").
pub fn initialisers_have_their_size()
    ensures { InitialisersHaveTheirSize }
{}

/// The global values of a module that was verified can be run: each symbol stands once, each instruction is formed, each shape
/// is laid out, and each initialiser fits its shape.
pub fn verified_is_runnable()
    ensures { VerifiedIsRunnable }
{}
