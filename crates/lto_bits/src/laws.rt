//! Laws of the definitions.
ghost use Rattle.lto_bits.specs.Laws.{AnswersBelow};

/// Law: a number that a binary operation answers is one of the operation's width.
pub fn answers_stay_below()
    ensures { AnswersBelow }
{}
