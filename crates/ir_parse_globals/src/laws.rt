//! Laws of what is read, as functions whose contracts state them.

ghost use Rattle.ir_parse_globals.specs.Closed.{EachIsClosed};

/// The parts of an initialiser end each aggregate that begins among them, and the last of them ends
/// the whole: they are the parts of a tree.
pub fn initialisers_are_closed()
    ensures { EachIsClosed }
{}
