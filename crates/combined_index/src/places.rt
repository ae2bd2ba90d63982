//! Where the definitions that prevail stand.
ghost use Rattle.std.specs.Prelude.{◌≡◌, ◌<◌, ◌++◌, ◌∷◌, [], length, IfOk, All, List, Some, flat_map, slice_index_or};
ghost use Rattle.combined_index.specs.Combined.{AreWithin};
ghost use Rattle.combined_index.specs.Tables.{ArePlaced, found};
ghost use Rattle.combined_index.specs.declared.definition.Definition.{Definition};

use crate::definition::Definition;
use ir_tree::Rows;
use std::alloc::{AllocError, Global};

/// A definition by its module and its place among the definitions of it.
#[derive(Clone, Copy, Debug, PartialEq, Eq)]
pub(crate) struct DefinitionPlace {
    /// The number of the module.
    pub number: usize,
    pub index: usize,
}

/// Notes where a definition stands, if it is the first that prevails for its symbol.
fn put(places: &mut [Option<DefinitionPlace>], definition: &Definition, here: DefinitionPlace)
    requires { definition.now.symbol < length places.old }
    ensures len { length places.new ≡ length places.old }
    ensures placed { (modules : List (List Definition)) (before : List Definition) → found modules here ≡ Some definition.now → ArePlaced modules places.old before → ArePlaced modules places.new (before ++ definition.now ∷ []) }
{
    if definition.prevails {
        let slot = &mut places[definition.symbol as usize];
        if slot.is_none() {
            *slot = Some(here);
        }
    }
}

/// Notes where the definitions of a module stand.
fn put_all(places: &mut [Option<DefinitionPlace>], number: usize, definitions: &[Definition])
    requires { AreWithin (length places.old) definitions.now }
    ensures len { length places.new ≡ length places.old }
    ensures placed { (modules : List (List Definition)) (before : List Definition) → slice_index_or modules number [] ≡ definitions.now → ArePlaced modules places.old before → ArePlaced modules places.new (before ++ definitions.now) }
{
    for (index, definition) in definitions.iter().enumerate() {
        let here = DefinitionPlace { number, index };
        put(places, definition, here);
    }
}

/// For each symbol the place of the first definition that prevails for it.
pub(crate) fn places_of(
    alloc: Global,
    symbols: usize,
    modules: &[Rows<Definition>],
) -> Result<Vec<Option<DefinitionPlace>>, AllocError>
    requires { All (AreWithin symbols) modules.now }
    ensures { IfOk result (λ places. ArePlaced modules.now places.items (flat_map (λ m. m) modules.now)) }
{
    let mut places = vec![in alloc; None; symbols]?;
    for (number, definitions) in modules.iter().enumerate() {
        put_all(&mut places, number, definitions.as_slice());
    }
    Ok(places)
}
