//! Laws of what the back end makes.
ghost use Rattle.back_end.specs.Laws.{MadeHasInterface, MadeIsBetter, MadeIsInOrder, MadeIsKnown, MadeIsOne, MadeIsSound, TurnIsBetter};
ghost use Rattle.back_end.specs.WalkLaws.{NextIsBehind, WalkIsBetter, WalkIsOne};

use block_trim::{
    merge_is_better, merge_is_one, merge_is_sound, trim_is_better, trim_is_one, trim_is_sound,
};
use branch_simplify::{simplified_is_better, simplified_is_sound};
use dead_code::{needed_is_better, needed_is_one, needed_is_sound, text_order_is_better};
use inline_site::{
    inlined_is_better, inlined_is_known, inlined_is_one, inlined_is_sound, inlined_keeps_interface,
};
use ir_edit::text_order_is_sound;
use ir_facts::{applied_is_one, rounds_are_better};
use slot_promote::{promoted_is_better, promoted_is_sound};

/// What is made of a function has its symbol, linkage, types and attributes, and has blocks where it has.
pub fn made_has_interface()
    ensures { MadeHasInterface }
{
    inlined_keeps_interface();
}

/// What a walk makes of a sound function with sound bodies is sound, and better in every program whose own the bodies are.
pub fn walk_is_better()
    ensures { WalkIsBetter }
{
    inlined_is_better();
    inlined_is_sound();
}

/// No two functions are made by a walk.
pub fn walk_is_one()
    ensures { WalkIsOne }
{
    inlined_is_one();
}

/// Behind an inlining a walk goes on behind the phis of the block behind the call.
pub fn next_is_behind()
    ensures { NextIsBehind }
{}

/// What one turn makes of a sound function is sound, and better in every program.
pub(crate) fn turn_is_better()
    ensures { TurnIsBetter }
{
    rounds_are_better();
    simplified_is_better();
    simplified_is_sound();
    trim_is_better();
    trim_is_sound();
    merge_is_better();
    merge_is_sound();
    needed_is_better();
    needed_is_sound();
}

/// What is made of a sound function with sound bodies is sound, and better in every program whose own the bodies are. Unless it
/// is left alone, its locals and blocks are numbered in the order of its text.
pub fn made_is_better()
    ensures better { MadeIsBetter }
    ensures sound { MadeIsSound }
    ensures in_order { MadeIsInOrder }
{
    walk_is_better();
    promoted_is_better();
    promoted_is_sound();
    turn_is_better();
    text_order_is_better();
    text_order_is_sound();
}

/// No two functions are made of a sound one with sound bodies: the definition of what is made leaves nothing open.
pub fn made_is_one()
    ensures { MadeIsOne }
{
    walk_is_better();
    walk_is_one();
    promoted_is_sound();
    turn_is_better();
    rounds_are_better();
    simplified_is_sound();
    trim_is_sound();
    applied_is_one();
    trim_is_one();
    merge_is_one();
    needed_is_one();
}

/// What is made uses no other symbols than the function and the bodies do, so a module that has all of them stays whole.
pub fn made_is_known()
    ensures { MadeIsKnown }
{
    inlined_is_known();
    inlined_is_sound();
}
