//! Laws of the numbers that edits give.
ghost use Rattle.ir_edit.specs.InOrder.{TextOrderCounts};
ghost use Rattle.ir_edit.specs.OneToOne.{PlacesDiffer};
ghost use Rattle.ir_edit.specs.Sounds.{ShiftedIsSound, TextOrderIsSound};

/// Numbering in the order of the text gives no two numbers one.
pub fn places_differ()
    ensures { PlacesDiffer }
{}

/// In a formed function what is defined at a place of the text, counted from 0, gets the place as its
/// number.
pub fn text_order_counts()
    ensures { TextOrderCounts }
{}

/// A sound function is sound with its locals and blocks numbered in the order of its text.
pub fn text_order_is_sound()
    ensures { TextOrderIsSound }
{}

/// A sound function is sound with a number added to each of its numbers.
pub fn shifted_is_sound()
    ensures { ShiftedIsSound }
{}
