//! Laws: what dead code elimination gives, and a function under other numbers, is better in every program.
ghost use Rattle.dead_code.specs.Laws.{NeededIsBetter, NeededIsOne, NeededIsSound, TextOrderIsBetter, ShiftedIsBetter};

/// A function without what nobody needs is better.
pub fn needed_is_better()
    ensures { NeededIsBetter }
{}

/// What is needed of a sound function is sound.
pub fn needed_is_sound()
    ensures { NeededIsSound }
{}

/// No two functions are what dead code elimination gives.
pub fn needed_is_one()
    ensures { NeededIsOne }
{}

/// A function whose locals and blocks are numbered in the order of its text is better.
pub fn text_order_is_better()
    ensures { TextOrderIsBetter }
{}

/// A function with a number added to each of its numbers is better.
pub fn shifted_is_better()
    ensures { ShiftedIsBetter }
{}
