//! The laws of merging.
ghost use Rattle.block_trim.specs.MergeLaws.{MergeIsBetter, MergeIsOne, MergeIsSound};

/// A sound function whose blocks are joined is better.
pub fn merge_is_better()
    ensures { MergeIsBetter }
{}

/// A sound function whose blocks are joined is sound.
pub fn merge_is_sound()
    ensures { MergeIsSound }
{}

/// Where no two blocks have one number, no two functions are what merging gives.
pub fn merge_is_one()
    ensures { MergeIsOne }
{}
