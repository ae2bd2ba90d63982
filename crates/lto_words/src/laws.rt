//! Laws of the definitions.
ghost use Rattle.lto_words.specs.Laws.{OneCommand};

/// Law: words are one command at most.
pub fn one_command()
    ensures { OneCommand }
{}
