//! The first module that refers to a symbol.
ghost use Rattle.std.specs.Prelude.{◌≡◌, ◌<◌, length};
ghost use Rattle.std.specs.List.{position_from};
ghost use Rattle.combined_index.specs.Combined.{AreWithin};
ghost use Rattle.combined_index.specs.LiveMarks.{any_refers, refers};

use crate::definition::Definition;
use crate::index::Index;
use lto_sets::Bits;

/// Whether this is a definition of a live symbol that prevails and refers to a symbol.
fn refers(definition: &Definition, live: &Bits, number: u32) -> bool
    requires { definition.now.symbol < length live.now }
    ensures { result ≡ refers live.now number definition.now }
{
    definition.prevails
        && live.has(definition.symbol)
        && definition.refs.as_slice().contains(&number)
}

/// Whether one of these definitions does.
fn any_refers(definitions: &[Definition], live: &Bits, number: u32) -> bool
    requires { AreWithin (length live.now) definitions.now }
    ensures { result ≡ any_refers live.now number definitions.now }
{
    for definition in definitions {
        if refers(definition, live, number) {
            return true;
        }
    }
    false
}

/// The first module that has such a definition.
pub(crate) fn first_referring(index: &Index, live: &Bits, number: u32) -> Option<usize>
    requires { length live.now ≡ length index.now.symbols }
    ensures { result ≡ position_from (any_refers live.now number) 0 index.now.modules }
{
    for (place, definitions) in index.modules().iter().enumerate() {
        if any_refers(definitions.as_slice(), live, number) {
            return Some(place);
        }
    }
    None
}
