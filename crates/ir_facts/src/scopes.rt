//! Where locals may be read whose candidates other blocks define that aren't reached.
ghost use Rattle.std.specs.Prelude.{◌≡◌, ◌++◌, ℕ, nat_eq, IfOk, OnOk};
ghost use Rattle.std.specs.BTreeMap.{get};
ghost use Rattle.std.specs.HashSet.{contains};
ghost use Rattle.std.specs.Ordering.{nat_cmp};
ghost use Rattle.ir_flow.specs.Dominating.{dominance};
ghost use Rattle.ir_flow.specs.OfFunction.{IsGraphOf};
ghost use Rattle.fact_sources.specs.Above.{is_above as stands_above};
ghost use Rattle.fact_sources.specs.Apart.{is_listed};
ghost use Rattle.ir_facts.specs.Askable.{BlocksHaveWidths, LinesHaveWidths};
ghost use Rattle.ir_facts.specs.Candidates.{block_candidates};
ghost use Rattle.ir_facts.specs.Clear.{all_inner, all_over, is_barred, is_over, keys_among};
ghost use Rattle.ir_facts.specs.Scopes.{AreScopes};

use crate::sources::push_block;
use fact_sources::{
    Beside, Locals, above, defined, is_above, is_among, places, places_by_number, set_of,
};
use ir_flow::{Dominators, Edges};
use ir_tree::{Block, Function, Operand};
use std::alloc::{AllocError, Global};
use std::collections::{BTreeMap, HashSet};

/// The tables by which it is known where a local may be read.
#[derive(Drop)]
pub(crate) struct Scopes {
    /// The locals whose candidate a block defines that isn't reached, another one than the local's own.
    pub inner: HashSet<u32>,
    /// Those whose own block stands above that of the candidate, and those of whose candidate the place isn't known.
    pub over: HashSet<u32>,
    /// The place of the block that defines a local.
    pub places: BTreeMap<u32, u32>,
    /// The place of the block of a number.
    pub numbers: BTreeMap<u32, u32>,
    /// Which blocks stand above which.
    pub above: Dominators,
}

/// The place that a table has for a number.
pub(crate) fn place_of(places: &BTreeMap<u32, u32>, number: u32) -> Option<u32>
    ensures { result ≡ get nat_cmp places.now number }
{
    match places.get(&number) {
        Some(place) => Some(*place),
        None => None,
    }
}

// ---- what isn't to be read

fn is_barred(inner: bool, over: bool, home: Option<u32>, above: &Dominators, place: u32) -> bool
    ensures { result ≡ is_barred inner over home (stands_above (dominance above.now)) place }
{
    if !inner {
        return false;
    }
    let Some(home) = home else {
        return true;
    };
    !(home == place || (!over && is_above(above, home, place)))
}

/// The locals that aren't to be read in the block at a place.
#[derive(Clone, Copy)]
pub(crate) struct Barred<'a> {
    pub scopes: &'a Scopes,
    pub place: u32,
}

impl<'a> Locals for Barred<'a> {
    ghost use Rattle.ir_facts.specs.Scopes.{bars};

    ghost members = { λ b. bars b.scopes.now b.place };

    fn has(&self, local: u32) -> bool {
        let scopes = self.scopes;
        let inner = scopes.inner.contains(&local);
        let over = scopes.over.contains(&local);
        let home = place_of(&scopes.places, local);
        is_barred(inner, over, home, &scopes.above, self.place)
    }
}

// ---- the tables

/// The locals that a block defines that the one at a place stands above, and those of which no block is known.
#[derive(Clone, Copy)]
struct Under<'a> {
    places: &'a BTreeMap<u32, u32>,
    above: &'a Dominators,
    place: u32,
}

impl<'a> Locals for Under<'a> {
    ghost use Rattle.std.specs.BTreeMap.{get};
    ghost use Rattle.std.specs.Ordering.{nat_cmp};
    ghost use Rattle.ir_flow.specs.Dominating.{dominance};
    ghost use Rattle.fact_sources.specs.Above.{is_above};
    ghost use Rattle.ir_facts.specs.Clear.{is_over};

    ghost members = { λ u. is_over (get nat_cmp u.places.now) (is_above (dominance u.above.now)) u.place };

    fn has(&self, local: u32) -> bool {
        match place_of(self.places, local) {
            Some(place) => is_above(self.above, self.place, place),
            None => true,
        }
    }
}

/// The locals of the facts whose operand is a local of the set.
fn push_keys<L: Locals>(
    keys: &mut Vec<u32>,
    found: &[(u32, Operand)],
    among: &L,
) -> Result<(), AllocError>
    ensures { OnOk result (keys.new.items ≡ keys.old.items ++ keys_among (L.members among.now) found.now) }
{
    for pair in found {
        if is_among(among, &pair.1) {
            keys.push(pair.0)?;
        }
    }
    Ok(())
}

/// The same of the facts of a block's locals.
fn push_among<L: Locals>(
    alloc: Global,
    keys: &mut Vec<u32>,
    block: &Block,
    among: &L,
) -> Result<(), AllocError>
    requires sized { LinesHaveWidths block.now.lines }
    ensures { OnOk result (keys.new.items ≡ keys.old.items ++ keys_among (L.members among.now) (block_candidates block.now)) }
{
    let mut found = Vec::new(alloc);
    push_block(alloc, &mut found, block)?;
    push_keys(keys, &found, among)?;
    Ok(())
}

fn push_all_inner(
    alloc: Global,
    keys: &mut Vec<u32>,
    outside: &HashSet<u32>,
    blocks: &[Block],
) -> Result<(), AllocError>
    requires sized { BlocksHaveWidths blocks.now }
    ensures { OnOk result (keys.new.items ≡ keys.old.items ++ all_inner (contains nat_eq outside.now) blocks.now) }
{
    for block in blocks {
        let own = defined(alloc, block)?;
        let among = Beside {
            set: outside,
            but: &own,
        };
        push_among(alloc, keys, block, &among)?;
    }
    Ok(())
}

fn inner_of(
    alloc: Global,
    outside: &HashSet<u32>,
    blocks: &[Block],
) -> Result<HashSet<u32>, AllocError>
    requires sized { BlocksHaveWidths blocks.now }
    ensures { IfOk result (λ set. (x : ℕ) → contains nat_eq set x ≡ is_listed x (all_inner (contains nat_eq outside.now) blocks.now)) }
{
    let mut keys = Vec::new(alloc);
    push_all_inner(alloc, &mut keys, outside, blocks)?;
    let set = set_of(alloc, &keys)?;
    Ok(set)
}

fn push_all_over(
    alloc: Global,
    keys: &mut Vec<u32>,
    places: &BTreeMap<u32, u32>,
    above: &Dominators,
    blocks: &[Block],
) -> Result<(), AllocError>
    requires sized { BlocksHaveWidths blocks.now }
    ensures { OnOk result (keys.new.items ≡ keys.old.items ++ all_over (get nat_cmp places.now) (stands_above (dominance above.now)) 0 blocks.now) }
{
    if blocks.len() > u32::MAX as usize {
        return Err(AllocError);
    }
    let mut place: u32 = 0;
    for block in blocks {
        let under = Under {
            places,
            above,
            place,
        };
        push_among(alloc, keys, block, &under)?;
        place = place + 1;
    }
    Ok(())
}

fn over_of(
    alloc: Global,
    places: &BTreeMap<u32, u32>,
    above: &Dominators,
    blocks: &[Block],
) -> Result<HashSet<u32>, AllocError>
    requires sized { BlocksHaveWidths blocks.now }
    ensures { IfOk result (λ set. (x : ℕ) → contains nat_eq set x ≡ is_listed x (all_over (get nat_cmp places.now) (stands_above (dominance above.now)) 0 blocks.now)) }
{
    let mut keys = Vec::new(alloc);
    push_all_over(alloc, &mut keys, places, above, blocks)?;
    let set = set_of(alloc, &keys)?;
    Ok(set)
}

/// The tables of a function, whose predecessor edges are known, for the candidates that are locals of the set.
pub(crate) fn scopes_of(
    alloc: Global,
    outside: &HashSet<u32>,
    f: &Function,
    edges: &Edges,
) -> Result<Scopes, AllocError>
    requires sized { BlocksHaveWidths f.now.blocks }
    requires graph { IsGraphOf f.now edges.now }
    ensures { IfOk result (λ s. AreScopes (contains nat_eq outside.now) f.now s) }
{
    let blocks = f.blocks.as_slice();
    let above = above(alloc, f, edges)?;
    let places = places(alloc, blocks)?;
    let numbers = places_by_number(alloc, blocks)?;
    let inner = inner_of(alloc, outside, blocks)?;
    let over = over_of(alloc, &places, &above, blocks)?;
    Ok(Scopes {
        inner,
        over,
        places,
        numbers,
        above,
    })
}
