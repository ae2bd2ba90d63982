//! Laws of reading, as functions whose contracts state them.
ghost use Rattle.ir_parse.specs.Laws.{Apart, Decided, OneFault, OneReading, ReadIsParsed};
ghost use Rattle.ir_parse.specs.LineLaws.{LinesFit};

use crate::resolved::{functions_are_formed, variables_are_formed};
use crate::spelled::{items_are_written, tokens_are_sized, types_are_written};

/// No bytes are read as two modules, none that are read have a fault, and none have two first faults.
pub fn one_reading()
    ensures reading { OneReading }
    ensures apart { Apart }
    ensures fault { OneFault }
{}

/// All bytes are read as a module, or have a first fault.
pub fn decided()
    ensures { Decided }
{}

/// A function has a line for each of its phis, instructions and terminators.
fn lines_fit()
    ensures { LinesFit }
{}

/// A module that is read is formed: each of its functions and variables is, each global name stands
/// once, and each one that is used is there.
pub fn read_is_parsed()
    ensures { ReadIsParsed }
{
    tokens_are_sized();
    items_are_written();
    types_are_written();
    functions_are_formed();
    variables_are_formed();
    lines_fit();
}
