//! The final names of live symbols.
ghost use Rattle.std.specs.Prelude.{◌≡◌, length, IfOk};
ghost use Rattle.combined_index.specs.Finals.{GivesNames, final_name, final_names, name_where, suffix_at};

use crate::error::{NameTaken, NamesError};
use crate::index::Index;
use crate::live_symbols::Live;
use crate::names::Names;
use crate::taken::least_taken;
use ir_tree::{Rows, Symbol, Text};
use std::alloc::{AllocError, Global};

/// What stands behind the name of a symbol that has this home, where the suffixes are those of the modules: nothing where it
/// has none.
pub fn suffix_at(suffixes: &[Text], home: Option<u32>) -> &[u8]
    ensures { result.now ≡ suffix_at suffixes.now home }
{
    let Some(home) = home else {
        return &[];
    };
    match suffixes.get(home as usize) {
        Some(suffix) => suffix.as_slice(),
        None => &[],
    }
}

/// A symbol's final name, where the suffixes are those of the modules: its name, and what stands behind it.
pub fn final_name(alloc: Global, suffixes: &[Text], symbol: &Symbol) -> Result<Text, AllocError>
    ensures { IfOk result (λ name. name ≡ final_name suffixes.now symbol.now) }
{
    let mut name = Text::copied(alloc, symbol.name.as_slice())?;
    name.append(suffix_at(suffixes, symbol.home))?;
    Ok(name)
}

/// The final name of a symbol that is live.
fn name_where(
    alloc: Global,
    suffixes: &[Text],
    symbol: &Symbol,
    live: bool,
) -> Result<Option<Text>, AllocError>
    ensures { IfOk result (λ name. name ≡ name_where suffixes.now symbol.now live) }
{
    if !live {
        return Ok(None);
    }
    Ok(Some(final_name(alloc, suffixes, symbol)?))
}

/// The final name of each symbol that is live.
fn names_of(
    alloc: Global,
    suffixes: &[Text],
    symbols: &[Symbol],
    live: &Live,
) -> Result<Rows<Option<Text>>, AllocError>
    requires { length live.now ≡ length symbols.now }
    ensures { IfOk result (λ names. names ≡ final_names suffixes.now symbols.now live.now) }
{
    let mut names = Rows::new(alloc);
    for number in 0..live.size() {
        let symbol = &symbols[number as usize];
        names.push(name_where(alloc, suffixes, symbol, live.has(number))?)?;
    }
    Ok(names)
}

/// The names, unless two symbols have one.
fn all_apart(alloc: Global, names: Rows<Option<Text>>) -> Result<Names, NamesError>
    ensures { GivesNames names result }
{
    if let Some(name) = least_taken(alloc, names.as_slice())? {
        let name = Text::copied(alloc, name)?;
        return Err(NamesError::Fault(NameTaken { name }));
    }
    Ok(Names::of(names))
}

/// The final names of the live symbols of a link: that of one that is local to a module is its name
/// with the module's suffix behind it, any other symbol keeps its name. There is a mark for each
/// symbol of the index and a suffix for each of its modules.
///
/// Refused where two live symbols have one final name; of several such names the one with the least
/// bytes is told. Time and memory are linear in the names.
pub fn final_names(
    alloc: Global,
    index: &Index,
    live: &Live,
    suffixes: &[Text],
) -> Result<Names, NamesError>
    requires marks { length live.now ≡ length index.now.symbols }
    requires suffixes { length suffixes.now ≡ length index.now.modules }
    ensures { GivesNames (final_names suffixes.now index.now.symbols live.now) result }
{
    let names = names_of(alloc, suffixes, index.symbols(), live)?;
    all_apart(alloc, names)
}
