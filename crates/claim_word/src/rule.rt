//! The rule that the word keeps in every interleaving, and the kinds of step that keep it.
use crate::view::Draws;
use atomic_table::{Join, Play, Split, TableRule};

/// The rule of the word. Its key is the limit and the number of callers.
pub struct Word;

impl TableRule<(), Draws, (u32, u32)> for Word {
    ghost use Rattle.claim_word.specs.Views.{opening_draws};
    ghost use Rattle.claim_word.specs.Rule.{ClaimRule};

    ghost holds = { λ key. ClaimRule key.0 key.1 };

    ghost first = { λ key. opening_draws key.0 };
}

/// A draw: one is added to the word.
pub struct Draw;

impl Play<(), Draws> for Draw {
    ghost use Rattle.claim_word.specs.Rule.{DrawStep};

    ghost then = { DrawStep };
}

/// One try to number a new pass: a caller bit is set.
pub struct Number;

impl Play<(), Draws> for Number {
    ghost use Rattle.claim_word.specs.Rule.{NumberStep};

    ghost then = { NumberStep };
}

/// How a pass is cut in two, and how two are made one.
pub struct Hands;

impl Split<Draws> for Hands {
    ghost use Rattle.claim_word.specs.Views.{kept_part, cut_part};

    ghost left = { kept_part };

    ghost right = { cut_part };
}

impl Join<Draws> for Hands {
    ghost use Rattle.claim_word.specs.Views.{both_draws, no_draws};

    ghost both = { both_draws };

    ghost spent = { no_draws };
}
