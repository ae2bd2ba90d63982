//! The least of the names that a link lacks.
ghost use Rattle.std.specs.Prelude.{◌≡◌, ◌<◌, ◌^◌, length, option_map};
ghost use Rattle.combined_index.specs.Best.{IsBest, lesser, lesser_if};
ghost use Rattle.ir_tree.specs.NameOrder.{comes_before};
ghost use Rattle.combined_index.specs.LiveMarks.{IsLackingAt, IsUnexportedAt, is_lacking};

use crate::host::is_host;
use crate::index::Index;
use crate::reach::exported;
use ir_tree::{Symbol, Text};
use lto_sets::Bits;
use std::cmp::Ordering;

/// A name with its place among those that were looked through.
#[derive(Clone, Copy)]
pub(crate) struct Found<'a> {
    pub name: &'a [u8],
    pub place: usize,
}

fn comes_before(name: &[u8], other: &[u8]) -> bool
    ensures { result ≡ comes_before name.now other.now }
{
    match name.cmp(other) {
        Ordering::Less => true,
        Ordering::Equal | Ordering::Greater => false,
    }
}

/// The one with the lesser name; the first of two that have the same.
fn lesser<'a>(best: Option<Found<'a>>, one: Found<'a>) -> Option<Found<'a>>
    ensures { option_map (λ f. (f.name.now, f.place)) result ≡ lesser (option_map (λ f. (f.name.now, f.place)) best.entry) (one.entry.name.now, one.entry.place) }
{
    match best {
        None => Some(one),
        Some(other) => {
            if comes_before(one.name, other.name) {
                Some(one)
            } else {
                Some(other)
            }
        }
    }
}

/// The lesser of the best so far and a further one, if that one counts.
fn lesser_if<'a>(counts: bool, best: Option<Found<'a>>, one: Found<'a>) -> Option<Found<'a>>
    ensures { option_map (λ f. (f.name.now, f.place)) result ≡ lesser_if counts (option_map (λ f. (f.name.now, f.place)) best.entry) (one.entry.name.now, one.entry.place) }
{
    if counts { lesser(best, one) } else { best }
}

/// Whether a symbol is one that the link lacks: it is live and no module's own, nobody defines it, and
/// the system doesn't give it.
fn is_lacking(index: &Index, live: &Bits, number: u32, symbol: &Symbol) -> bool
    requires { number < length live.now }
    ensures { result ≡ is_lacking index.now live.now number symbol.now }
{
    live.has(number)
        && symbol.home.is_none()
        && index.prevailing(number).is_none()
        && !is_host(symbol.name.as_slice())
}

/// Of the names that the link lacks the one with the least bytes, with the number of its symbol.
pub(crate) fn least_undefined<'a>(index: &'a Index, live: &Bits) -> Option<Found<'a>>
    requires { length live.now ≡ length index.now.symbols }
    ensures best { IsBest (IsLackingAt index.entry.now live.now) (length index.entry.now.symbols) (option_map (λ f. (f.name.now, f.place)) result) }
    ensures small { length index.entry.now.symbols < 2 ^ 32 }
{
    let mut best = None;
    for (place, symbol) in index.symbols().iter().enumerate() {
        let lacking = is_lacking(index, live, place as u32, symbol);
        let name = symbol.name.as_slice();
        best = lesser_if(lacking, best, Found { name, place });
    }
    best
}

/// Of the names to be exported that have no definition the one with the least bytes.
pub(crate) fn least_unexported<'a>(index: &Index, roots: &'a [Text]) -> Option<Found<'a>>
    ensures { IsBest (IsUnexportedAt index.now roots.entry.now) (length roots.entry.now) (option_map (λ f. (f.name.now, f.place)) result) }
{
    let mut best = None;
    for (place, root) in roots.iter().enumerate() {
        let name = root.as_slice();
        let lacking = exported(index, name).is_none();
        best = lesser_if(lacking, best, Found { name, place });
    }
    best
}
