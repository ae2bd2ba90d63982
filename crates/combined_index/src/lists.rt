//! Symbols by the modules that they are local to.
ghost use Rattle.std.specs.Prelude.{◌≡◌, ◌<◌, ◌++◌, ◌∷◌, [], ◌&&◌, ℕ, length, filter, IfOk, OnOk, if◌then◌else◌};
ghost use Rattle.std.specs.List.{range_with_len};
ghost use Rattle.lto_sets.specs.Sets.{contains};
ghost use Rattle.combined_index.specs.Entries.{is_module};
ghost use Rattle.combined_index.specs.Indexed.{symbol_at};
ghost use Rattle.combined_index.specs.Brought.{row};

use ir_tree::Symbol;
use lto_sets::Bits;
use std::alloc::{AllocError, Global};

/// So many empty lists.
#[tactic(auto, using(crate::proofs::Filled::rows_empty))]
fn empty_lists(alloc: Global, count: usize) -> Result<Vec<Vec<u32>>, AllocError>
    ensures len { IfOk result (λ lists. length lists.items ≡ count) }
    ensures empty { IfOk result (λ lists. (i : ℕ) → row lists.items i ≡ []) }
{
    let mut lists = Vec::new(alloc);
    for _ in 0..count {
        lists.push(Vec::new(alloc))?;
    }
    Ok(lists)
}

/// Adds a number to the list of this home, where there is one.
fn put(lists: &mut Vec<Vec<u32>>, home: Option<u32>, number: u32) -> Result<(), AllocError>
    ensures len { length lists.new.items ≡ length lists.old.items }
    ensures put { OnOk result ((i : ℕ) → i < length lists.old.items → row lists.new.items i ≡ row lists.old.items i ++ (if is_module i home then number ∷ [] else [])) }
{
    let Some(home) = home else {
        return Ok(());
    };
    let home = home as usize;
    if home < lists.len() {
        lists[home].push(number)?;
    }
    Ok(())
}

/// The home of a symbol that is marked.
fn marked_home(marks: &Bits, symbols: &[Symbol], number: u32) -> Option<u32>
    requires sizes { length symbols.now ≡ length marks.now }
    requires within { number < length marks.now }
    ensures { (i : ℕ) → is_module i result ≡ (contains marks.now number && is_module i (symbol_at symbols.now number).home) }
{
    if marks.has(number) {
        symbols[number as usize].home
    } else {
        None
    }
}

/// For each of so many modules the symbols that are marked and local to it, rising.
pub(crate) fn listed(
    alloc: Global,
    marks: &Bits,
    symbols: &[Symbol],
    modules: usize,
) -> Result<Vec<Vec<u32>>, AllocError>
    requires { length symbols.now ≡ length marks.now }
    ensures len { IfOk result (λ lists. length lists.items ≡ modules) }
    ensures listed { IfOk result (λ lists. (i : ℕ) → i < modules → row lists.items i ≡ filter (λ n. contains marks.now n && is_module i (symbol_at symbols.now n).home) (range_with_len 0 (length symbols.now))) }
{
    let mut lists = empty_lists(alloc, modules)?;
    for number in 0..marks.size() {
        let home = marked_home(marks, symbols, number);
        put(&mut lists, home, number)?;
    }
    Ok(lists)
}
