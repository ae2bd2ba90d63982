//! Laws: a sound function with its slots promoted is better in every program, and sound.
ghost use Rattle.slot_promote.specs.Laws.{PromotedIsBetter, PromotedIsSound};

/// A sound function with its slots promoted is better.
pub fn promoted_is_better()
    ensures { PromotedIsBetter }
{}

/// A sound function with its slots promoted is sound.
pub fn promoted_is_sound()
    ensures { PromotedIsSound }
{}
