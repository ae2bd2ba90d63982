//! Laws of whole programs.
ghost use Rattle.ir_meaning.specs.Laws.{Congruence, Transitivity};

/// A program whose functions are each better than the program's own refines it.
pub fn congruence()
    ensures { Congruence }
{}

/// Refining composes.
pub fn transitivity()
    ensures { Transitivity }
{}
