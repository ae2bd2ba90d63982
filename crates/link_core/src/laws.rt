//! What holds over every run of the core.
ghost use Rattle.link_core.specs.Facts.{EveryRunIsGood, StartsGood, StaysGood, AllResultsAreThere};

/// What a text has to do with its key: a link makes the text of the task that the key spells.
pub trait MadeOf {
    ghost use Rattle.std.specs.Prelude.{List, ℕ};

    ghost made_of: { List ℕ → List ℕ → Type 0 };
}

/// Over every list of events, of which those that are not enabled change nothing.
pub fn over_every_run<M: MadeOf>()
    ensures every_run { EveryRunIsGood M.made_of }
    ensures start { StartsGood M.made_of }
    ensures kept { StaysGood M.made_of }
    ensures all_there { AllResultsAreThere M.made_of }
{}
