//! Laws of modules that are printed, of those that were read, and of those that were verified, as functions whose contracts
//! state them.

ghost use Rattle.ir_round_trip.specs.Laws.{NumberedAnewIsRead, ReadIsKnown, ReadIsNumbered, ReadIsReadAgain, ReadIsTyped, ReadIsWithin, ReadableIsRead, TextOrderIsNumbered, VerifiedIsRead};
ghost use Rattle.ir_round_trip.specs.OneText.{PrintedIsOne};
ghost use Rattle.ir_round_trip.specs.Tasks.{TaskTextIsOne};

use crate::{contents_are_bytes, items_are_within, modules_are_read, tokens_are_cut};
use ir_edit::{text_order_counts, text_order_is_sound};
use ir_parse::{
    items_are_written, read_is_parsed, shapes_are_within, tokens_are_sized, types_are_written,
};
use lto_task::tasks_with_one_text_agree;

/// The text that is printed of a module that is readable, and whose names are known, is read as that
/// module (LangRef, "Module Structure").
pub fn readable_modules_are_read()
    ensures { ReadableIsRead }
{
    modules_are_read();
}

/// A module that was read of bytes has names that can be written, so many globals, parameters, blocks
/// and instructions as the grammar takes, counts and offsets below 2^64, phis with an entry at least,
/// and a data layout that is supported or none (LangRef, "Identifiers", "phi Instruction", "Data
/// Layout").
pub fn read_modules_are_within()
    ensures { ReadIsWithin }
{
    contents_are_bytes();
    tokens_are_cut();
    items_are_within();
}

/// In a module that was read of bytes each constant is of the type that stands before it, and is a
/// word, as `true`, where it is not; the parts of initialisers are of shapes that memory may hold
/// (LangRef, "Simple Constants", "Complex Constants").
pub fn read_modules_are_typed()
    ensures { ReadIsTyped }
{
    tokens_are_cut();
    items_are_within();
    tokens_are_sized();
    items_are_written();
    types_are_written();
    shapes_are_within();
}

/// The locals of a module that was read of bytes are numbered along its text, and its strings are bytes (LangRef,
/// "Identifiers").
pub fn read_modules_are_numbered()
    ensures { ReadIsNumbered }
{}

/// So are those of a formed function that was numbered in the order of its text.
pub fn text_order_is_numbered()
    ensures { TextOrderIsNumbered }
{
    text_order_counts();
}

/// The names of a module that was read of bytes are known: its locals are numbered along its text,
/// each global name is there once and each that is used is there, and its strings are bytes (LangRef,
/// "Identifiers").
pub fn read_modules_are_known()
    ensures { ReadIsKnown }
{
    read_is_parsed();
}

/// The text that is printed of a module that was read of bytes is read as that module, sound or not.
/// Reading numbers locals along the text, so the module is what numbering them anew makes of it
/// (LangRef, "Module Structure").
pub fn read_modules_are_read()
    ensures { ReadIsReadAgain }
{
    read_is_parsed();
    readable_modules_are_read();
    read_modules_are_within();
    read_modules_are_typed();
}

/// So is that of a verified module within the grammar's limits whose locals are numbered along its
/// text.
pub fn verified_modules_are_read()
    ensures { VerifiedIsRead }
{
    readable_modules_are_read();
}

/// However the locals of a verified module within the grammar's limits are numbered, the text that is printed of it under
/// new numbers, in the order of its text, is read as the module under these numbers (LangRef, "Identifiers").
pub fn modules_numbered_anew_are_read()
    ensures { NumberedAnewIsRead }
{
    text_order_is_sound();
    text_order_is_numbered();
    verified_modules_are_read();
}

/// Verified modules with one printed text are one, where their locals are numbered along their text and each name and value is
/// within the grammar's limits. How many there are isn't asked: the values of many modules may stand in one.
pub fn modules_with_one_text_are_one()
    ensures { PrintedIsOne }
{}

/// So tasks with one text are one, where their modules are such: a cache's key tells the whole of its task.
pub fn tasks_with_one_text_are_one()
    ensures { TaskTextIsOne }
{
    tasks_with_one_text_agree();
    modules_with_one_text_are_one();
}
