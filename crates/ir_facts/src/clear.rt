//! Whether candidates are clear of the uses of their locals, as is seen block by block.
ghost use Rattle.std.specs.Prelude.{◌≡◌, ◌&&◌, ◌||◌, ℕ, true, nat_eq, not, IfOk, OnOk};
ghost use Rattle.std.specs.BTreeMap.{get};
ghost use Rattle.std.specs.HashSet.{contains};
ghost use Rattle.std.specs.Ordering.{nat_cmp};
ghost use Rattle.ir_meaning.specs.Facts.{is_phi};
ghost use Rattle.ir_flow.specs.OfFunction.{IsGraphOf};
ghost use Rattle.ir_facts.specs.Askable.{BlocksHaveWidths};
ghost use Rattle.ir_facts.specs.Candidates.{phi_candidates};
ghost use Rattle.ir_facts.specs.Clear.{IsClear, any_among, block_clear, blocks_clear, entries_barred, is_taken, lines_clear, phis_barred, with_given};
ghost use Rattle.ir_facts.specs.Scopes.{bars};

use crate::scopes::{Barred, Scopes, place_of, scopes_of};
use crate::sources::push_phis;
use fact_sources::{Beside, defined, end_names, instr_names, is_among, phi_locals};
use ir_flow::Edges;
use ir_tree::{Block, Function, Incoming, Line, Operand, Phi};
use std::alloc::{AllocError, Global};
use std::collections::HashSet;

// ---- phis

/// Whether what a phi takes isn't to be read at the end of the block from which it comes.
fn is_taken(scopes: &Scopes, entry: &Incoming) -> bool
    ensures { result ≡ is_taken (bars scopes.now) (get nat_cmp scopes.now.numbers entry.now.from) entry.now.value }
{
    match place_of(&scopes.numbers, entry.from) {
        Some(place) => is_among(&Barred { scopes, place }, &entry.value),
        None => true,
    }
}

fn entries_barred(scopes: &Scopes, incoming: &[Incoming]) -> bool
    ensures { result ≡ entries_barred (bars scopes.now) (get nat_cmp scopes.now.numbers) incoming.now }
{
    for entry in incoming {
        if is_taken(scopes, entry) {
            return true;
        }
    }
    false
}

fn phis_barred(scopes: &Scopes, phis: &[Phi]) -> bool
    ensures { result ≡ phis_barred (bars scopes.now) (get nat_cmp scopes.now.numbers) phis.now }
{
    for phi in phis {
        if entries_barred(scopes, phi.incoming.as_slice()) {
            return true;
        }
    }
    false
}

fn any_among(set: &HashSet<u32>, found: &[(u32, Operand)]) -> bool
    ensures { result ≡ any_among (contains nat_eq set.now) found.now }
{
    for pair in found {
        if is_among(set, &pair.1) {
            return true;
        }
    }
    false
}

/// Whether a phi of the block has a candidate of the set.
fn is_sourced(alloc: Global, own: &HashSet<u32>, phis: &[Phi]) -> Result<bool, AllocError>
    ensures { IfOk result (λ sourced. sourced ≡ any_among (contains nat_eq own.now) (phi_candidates phis.now phis.now)) }
{
    let mut found = Vec::new(alloc);
    push_phis(alloc, &mut found, phis)?;
    Ok(any_among(own, &found))
}

// ---- lines

fn insert_given(front: &mut HashSet<u32>, given: Option<u32>) -> Result<(), AllocError>
    ensures { OnOk result ((x : ℕ) → contains nat_eq front.new x ≡ with_given (contains nat_eq front.old) given x) }
{
    if let Some(local) = given {
        front.insert(local)?;
    }
    Ok(())
}

/// Whether lines read none that is barred, and the block's own behind their definitions alone; `front` has what is defined in
/// front of them.
fn lines_clear(
    bar: &Barred<'_>,
    own: &HashSet<u32>,
    front: &mut HashSet<u32>,
    lines: &[Line],
) -> Result<bool, AllocError>
    ensures { IfOk result (λ clear. clear ≡ lines_clear (bars bar.now.scopes.now bar.now.place) (contains nat_eq own.now) (contains nat_eq front.old) lines.now) }
{
    for line in lines {
        let early = Beside {
            set: own,
            but: front,
        };
        if instr_names(bar, &line.instr) || instr_names(&early, &line.instr) {
            return Ok(false);
        }
        insert_given(front, line.local)?;
    }
    Ok(true)
}

/// Whether the lines of a block are clear.
fn are_clear(
    alloc: Global,
    bar: &Barred<'_>,
    own: &HashSet<u32>,
    block: &Block,
) -> Result<bool, AllocError>
    ensures { IfOk result (λ clear. clear ≡ lines_clear (bars bar.now.scopes.now bar.now.place) (contains nat_eq own.now) (λ x. is_phi x block.now.phis) block.now.lines) }
{
    let mut front = phi_locals(alloc, block.phis.as_slice())?;
    let clear = lines_clear(bar, own, &mut front, block.lines.as_slice())?;
    Ok(clear)
}

// ---- blocks

/// Whether there is none of these, and lines are clear.
fn is_free(sourced: bool, taken: bool, read: bool, clear: bool) -> bool
    ensures { result ≡ (not sourced && (not (taken || read) && clear)) }
{
    !sourced && (!(taken || read) && clear)
}

fn block_clear(alloc: Global, bar: &Barred<'_>, block: &Block) -> Result<bool, AllocError>
    ensures { IfOk result (λ clear. clear ≡ block_clear (bars bar.now.scopes.now) (get nat_cmp bar.now.scopes.now.numbers) bar.now.place block.now) }
{
    let own = defined(alloc, block)?;
    let sourced = is_sourced(alloc, &own, block.phis.as_slice())?;
    let taken = phis_barred(bar.scopes, block.phis.as_slice());
    let read = end_names(bar, &block.end);
    let clear = are_clear(alloc, bar, &own, block)?;
    let free = is_free(sourced, taken, read, clear);
    Ok(free)
}

fn blocks_clear(alloc: Global, scopes: &Scopes, blocks: &[Block]) -> Result<bool, AllocError>
    ensures { IfOk result (λ clear. clear ≡ blocks_clear (bars scopes.now) (get nat_cmp scopes.now.numbers) 0 blocks.now) }
{
    if blocks.len() > u32::MAX as usize {
        return Err(AllocError);
    }
    let mut place: u32 = 0;
    for block in blocks {
        let bar = Barred { scopes, place };
        let clear = block_clear(alloc, &bar, block)?;
        if !clear {
            return Ok(false);
        }
        place = place + 1;
    }
    Ok(true)
}

/// Whether it is seen that the candidates that are locals of the set are clear of the uses of their locals: then each
/// candidate of the function holds wherever its local is used.
pub(crate) fn is_clear(
    alloc: Global,
    outside: &HashSet<u32>,
    f: &Function,
    edges: &Edges,
) -> Result<bool, AllocError>
    requires sized { BlocksHaveWidths f.now.blocks }
    requires graph { IsGraphOf f.now edges.now }
    ensures { IfOk result (λ clear. clear ≡ true → IsClear (contains nat_eq outside.now) f.now) }
{
    let scopes = scopes_of(alloc, outside, f, edges)?;
    blocks_clear(alloc, &scopes, f.blocks.as_slice())
}
