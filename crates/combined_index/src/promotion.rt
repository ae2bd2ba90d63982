//! The locals that imports make other modules refer to.
ghost use Rattle.std.specs.Prelude.{◌≡◌, ◌<◌, ◌||◌, ◌&&◌, not, nat_eq, ℕ, All, length, IfOk, OnOk};
ghost use Rattle.std.specs.List.{list_any};
ghost use Rattle.lto_sets.specs.Sets.{contains};
ghost use Rattle.combined_index.specs.Entries.{is_module};
ghost use Rattle.combined_index.specs.Combined.{prevailing_of};
ghost use Rattle.combined_index.specs.Indexed.{symbol_at};
ghost use Rattle.combined_index.specs.Brought.{is_brought, is_in_one, refers, rows};
ghost use Rattle.combined_index.specs.Promotions.{ArePromoted, is_local_to};

use crate::index::Index;
use crate::lists::listed;
use ir_tree::Symbol;
use lto_sets::Bits;
use std::alloc::{AllocError, Global};

/// Whether the symbol is local to this module.
fn is_local_to(symbol: &Symbol, number: u32) -> bool
    ensures { result ≡ is_module number symbol.now.home }
{
    match symbol.home {
        Some(home) => home == number,
        None => false,
    }
}

/// Marks a symbol, unless it is local to the importing module.
fn mark(marks: &mut Bits, symbols: &[Symbol], importer: u32, symbol: u32)
    requires sizes { length symbols.now ≡ length marks.old }
    requires within { symbol < length marks.old }
    ensures len { length marks.new ≡ length marks.old }
    ensures marked { (n : ℕ) → contains marks.new n ≡ (contains marks.old n || not (is_module importer (symbol_at symbols.now n).home) && nat_eq n symbol) }
{
    if !is_local_to(&symbols[symbol as usize], importer) {
        marks.with(symbol);
    }
}

/// Marks what a body refers to that a module imports, but for the module's own locals.
fn mark_refs(marks: &mut Bits, symbols: &[Symbol], importer: u32, refs: &[u32])
    requires sizes { length symbols.now ≡ length marks.old }
    requires within { All (λ n. n < length marks.old) refs.now }
    ensures len { length marks.new ≡ length marks.old }
    ensures marked { (n : ℕ) → contains marks.new n ≡ (contains marks.old n || not (is_module importer (symbol_at symbols.now n).home) && list_any (nat_eq n) refs.now) }
{
    for symbol in refs {
        mark(marks, symbols, importer, *symbol);
    }
}

/// Marks what the body of a function refers to that a module imports.
fn mark_body(marks: &mut Bits, index: &Index, importer: u32, function: u32)
    requires { length index.now.symbols ≡ length marks.old }
    ensures len { length marks.new ≡ length marks.old }
    ensures marked { (n : ℕ) → contains marks.new n ≡ (contains marks.old n || not (is_local_to index.now importer n) && refers (prevailing_of index.now function) n) }
{
    if let Some(definition) = index.prevailing(function) {
        mark_refs(marks, index.symbols(), importer, definition.refs.as_slice());
    }
}

/// Marks what the bodies refer to that a module imports.
fn mark_imports(marks: &mut Bits, index: &Index, importer: u32, functions: &[u32])
    requires { length index.now.symbols ≡ length marks.old }
    ensures len { length marks.new ≡ length marks.old }
    ensures marked { (n : ℕ) → contains marks.new n ≡ (contains marks.old n || not (is_local_to index.now importer n) && is_in_one index.now functions.now n) }
{
    for function in functions {
        mark_body(marks, index, importer, *function);
    }
}

/// Marks the locals that imports make other modules refer to. `2^32` modules or more are refused as
/// too many.
fn mark_all(marks: &mut Bits, index: &Index, imports: &[Vec<u32>]) -> Result<(), AllocError>
    requires { length index.now.symbols ≡ length marks.old }
    ensures len { length marks.new ≡ length marks.old }
    ensures marked { OnOk result ((n : ℕ) → contains marks.new n ≡ (contains marks.old n || is_brought index.now 0 (rows imports.now) n)) }
{
    let mut importer: u32 = 0;
    for functions in imports {
        mark_imports(marks, index, importer, functions.as_slice());
        let Some(next) = importer.checked_add(1) else {
            return Err(AllocError);
        };
        importer = next;
    }
    Ok(())
}

/// For each module the locals that other modules come to refer to by its bodies that they import: by
/// number, each once, rising. The imports are those of each module, by number. A module's own
/// imports of its own bodies promote nothing.
///
/// Beside want of memory, imports of `2^32` modules or more are refused as too many. Takes one step
/// for each reference of an imported body and for each symbol.
pub fn promoted(
    alloc: Global,
    index: &Index,
    imports: &[Vec<u32>],
) -> Result<Vec<Vec<u32>>, AllocError>
    ensures { IfOk result (λ lists. ArePromoted index.now (rows imports.now) (rows lists.items)) }
{
    let symbols = index.symbols();
    let mut marks = Bits::new(alloc, symbols.len() as u32)?;
    mark_all(&mut marks, index, imports)?;
    let lists = listed(alloc, &marks, symbols, index.modules().len())?;
    Ok(lists)
}
