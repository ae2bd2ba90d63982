//! The numbers of the symbols that aren't local to a module, by name.
ghost use Rattle.std.specs.Prelude.{◌≡◌, ◌<◌, ◌^◌, length, List, ℕ, Some, IfOk, OnOk, if◌then◌else◌};
ghost use Rattle.combined_index.specs.Combined.{is_plain};
ghost use Rattle.combined_index.specs.Tables.{ArePlain, looked_up};

use indexmap::IndexMap;
use ir_tree::Symbol;
use std::alloc::{AllocError, Global};

/// Notes the number of a symbol, unless it is local to a module.
fn note(
    alloc: Global,
    plain: &mut IndexMap<Vec<u8>, u32>,
    symbol: &Symbol,
    number: u32,
) -> Result<(), AllocError>
    ensures { OnOk result ((name : List ℕ) → looked_up plain.new.entries name ≡ (if is_plain name symbol.now then Some number else looked_up plain.old.entries name)) }
{
    if symbol.home.is_none() {
        let name = Vec::from_slice(alloc, symbol.name.as_slice())?;
        plain.insert(name, number)?;
    }
    Ok(())
}

/// The numbers of the symbols without a home, by name.
pub(crate) fn plain_numbers(
    alloc: Global,
    symbols: &[Symbol],
) -> Result<IndexMap<Vec<u8>, u32>, AllocError>
    requires { length symbols.now < 2 ^ 32 }
    ensures { IfOk result (λ plain. ArePlain symbols.now plain.entries) }
{
    let mut plain = IndexMap::new(alloc);
    let mut number = symbols.len();
    while number > 0 {
        number -= 1;
        note(alloc, &mut plain, &symbols[number], number as u32)?;
    }
    Ok(plain)
}
