//! Laws of the values that a link takes from modules that were read, under the names that it gives them, as functions whose
//! contracts state them.

ghost use Rattle.ir_round_trip.specs.Renamed.{DeclarationsAreSpelled, NamesKeepSpelling, PartsAreSpelled, ReadIsSpelled, SpelledIsTold, SuffixedIsWritable};

use crate::{read_modules_are_numbered, read_modules_are_within};

/// A verified module without target lines is told by its text, where each of its values is within the grammar's limits, with
/// locals that are numbered along its text and strings of bytes.
pub fn spelled_modules_are_told()
    ensures { SpelledIsTold }
{}

/// Each value of a module that was read of bytes is such.
pub fn read_values_are_spelled()
    ensures { ReadIsSpelled }
{
    read_modules_are_within();
    read_modules_are_numbered();
}

/// It stays such under other names for symbols, where its own new name can be written (LangRef, "Identifiers").
pub fn names_keep_spelling()
    ensures { NamesKeepSpelling }
{}

/// A name that can be written can be with the suffix of a module behind it: it isn't kept for LLVM itself, as no name is that
/// begins with one that isn't.
pub fn suffixed_names_are_writable()
    ensures { SuffixedIsWritable }
{}

/// So the parts of modules that were read, which are their live definitions under final names, have such values.
pub fn parts_are_spelled()
    ensures { PartsAreSpelled }
{
    read_values_are_spelled();
    names_keep_spelling();
    suffixed_names_are_writable();
}

/// The declaration of such a value is such (`lto_task`).
pub fn declarations_are_spelled()
    ensures { DeclarationsAreSpelled }
{}
