//! Laws: a function without the blocks that aren't reached is better in every program, sound, and one.
ghost use Rattle.block_trim.specs.Laws.{TrimIsBetter, TrimIsOne, TrimIsSound};

/// A function without the blocks that aren't reached is better.
pub fn trim_is_better()
    ensures { TrimIsBetter }
{}

/// A sound function is sound without the blocks that aren't reached.
pub fn trim_is_sound()
    ensures { TrimIsSound }
{}

/// No two functions are what trimming gives.
pub fn trim_is_one()
    ensures { TrimIsOne }
{}
