//! Laws of single functions: when one is better than another in a program.
ghost use Rattle.ir_meaning.specs.Laws.{Composition, InARow, LargerBounds, Reflexivity};

/// A function that is better with answers of few steps is better with answers of more.
pub fn larger_bounds()
    ensures { LargerBounds }
{}

/// Each function is better than itself.
pub fn reflexivity()
    ensures { Reflexivity }
{}

/// Better than a better one is better, the two bounds multiplied.
pub fn composition()
    ensures { Composition }
{}

/// Passes in a row, all in the one original program.
pub fn passes_in_a_row()
    ensures { InARow }
{}
