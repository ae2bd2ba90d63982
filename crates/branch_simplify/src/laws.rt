//! Laws: a sound function with its constant branches as jumps is better in every program, and sound.
ghost use Rattle.branch_simplify.specs.Laws.{SimplifiedIsBetter, SimplifiedIsSound};

/// A sound function with its constant branches as jumps is better.
pub fn simplified_is_better()
    ensures { SimplifiedIsBetter }
{}

/// A sound function with its constant branches as jumps is sound.
pub fn simplified_is_sound()
    ensures { SimplifiedIsSound }
{}
