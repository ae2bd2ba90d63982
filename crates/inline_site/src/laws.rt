//! Laws: what inlining gives is one function, better, sound, with the interface of the old one, and uses no new symbols.
ghost use Rattle.inline_site.specs.Laws.{InlinedIsBetter, InlinedIsKnown, InlinedIsOne, InlinedIsSound, InlinedKeepsInterface};

/// What inlining a sound callee into a sound function gives is better in each program in which the callee's body is the
/// program's own.
pub fn inlined_is_better()
    ensures { InlinedIsBetter }
{}

/// What inlining a sound callee into a sound function gives is sound.
pub fn inlined_is_sound()
    ensures { InlinedIsSound }
{}

/// What inlining gives uses no other symbols than the function and the callee do, so a module that has both stays whole.
pub fn inlined_is_known()
    ensures { InlinedIsKnown }
{}

/// No two functions are what inlining at a place gives: the definition leaves nothing open.
pub fn inlined_is_one()
    ensures { InlinedIsOne }
{}

/// What inlining gives has the symbol, linkage, types and attributes of the function, and has blocks as it has.
pub fn inlined_keeps_interface()
    ensures { InlinedKeepsInterface }
{}
