//! Copy and constant propagation: substitution by facts, in rounds.
ghost use Rattle.std.specs.Prelude.{◌≡◌, ℕ, nat_eq, true, false, IfOk, Ok, Some, None};
ghost use Rattle.std.specs.HashSet.{contains};
ghost use Rattle.ir_tree.specs.Rules.{Sound};
ghost use Rattle.ir_meaning.specs.Near.{BetterThan};
ghost use Rattle.ir_meaning.specs.Program.{Program};
ghost use Rattle.ir_meaning.specs.Formed.{IsFormed};
ghost use Rattle.ir_flow.specs.OfFunction.{IsGraphOf, IsReach};
ghost use Rattle.fact_sources.specs.Apart.{IsApart, resting};
ghost use Rattle.fact_sources.specs.Substitutions.{IsOf};
ghost use Rattle.ir_facts.specs.Candidates.{candidates};
ghost use Rattle.ir_facts.specs.Settled.{or_same};
ghost use Rattle.ir_facts.specs.Blocks.{with_blocks};
ghost use Rattle.ir_facts.specs.Steps.{AreRounds, IsApplied, IsRound, IsStep, candidate_of};

use crate::choices::{any_choice_in, settled};
use crate::clear::is_clear;
use crate::in_place::{forward, with_blocks};
use crate::points::facts_of;
use crate::sources::candidates;
use fact_sources::{Substitution, apart, firm, function_at, resting};
use ir_edit::substitute;
use ir_flow::{Edges, Flow};
use ir_tree::{Block, Duplicate, Function, Operand, Rows};
use lto_sets::Bits;
use std::alloc::{AllocError, Global};
use std::collections::HashSet;
use std::mem::replace;

/// At most so many rounds are made.
const ROUNDS: u32 = 16;

/// Each use of a local replaced where its fact holds at the use: of the facts in `some`, whose candidates unreached blocks
/// give values, as is looked up at each point, and of the others everywhere.
fn replaced_at_points(
    alloc: Global,
    f: &Function,
    edges: &Edges,
    outside: &HashSet<u32>,
    found: &[(u32, Operand)],
    some: &[(u32, Operand)],
) -> Result<Function, AllocError>
    requires sound { Sound f.now }
    requires graph { IsGraphOf f.now edges.now }
    requires apart { IsApart f.now (contains nat_eq outside.now) }
    requires found { found.now ≡ candidates f.now }
    requires some { some.now ≡ resting (contains nat_eq outside.now) found.now }
    ensures { IfOk result (λ g. IsStep (candidate_of f.now) f.now g) }
{
    let others = firm(alloc, found, outside)?;
    let facts = facts_of(alloc, f, edges, some)?;
    let h = substitute(alloc, f, others.as_slice())?;
    let g = function_at(alloc, facts.as_slice(), &h);
    drop(h);
    g
}

/// Each use of a local replaced where its fact holds at the use.
///
/// A fact whose candidate no unreached block gives a value holds wherever its local is used, and so does each fact where
/// blocks are clear of the others. Else it is looked up of the others at each point; `outside` has the locals to which
/// unreached blocks give values.
fn replaced(
    alloc: Global,
    f: &Function,
    edges: &Edges,
    outside: &HashSet<u32>,
    found: &[(u32, Operand)],
    substitution: &Substitution<'_>,
) -> Result<Function, AllocError>
    requires sound { Sound f.now }
    requires graph { IsGraphOf f.now edges.now }
    requires apart { IsApart f.now (contains nat_eq outside.now) }
    requires found { found.now ≡ candidates f.now }
    requires whole { IsOf found.now substitution.now }
    ensures { IfOk result (λ g. IsStep (candidate_of f.now) f.now g) }
{
    let some = resting(alloc, found, outside)?;
    let count = some.len();
    if count == 0 {
        return substitution.applied(alloc, f);
    }
    let clear = is_clear(alloc, outside, f, edges)?;
    if clear {
        return substitution.applied(alloc, f);
    }
    replaced_at_points(alloc, f, edges, outside, found, some.as_slice())
}

/// Each use of a local replaced where its fact holds at the use; none where no local that is used has a candidate.
fn forwarded(
    alloc: Global,
    f: &Function,
    edges: &Edges,
    outside: &HashSet<u32>,
) -> Result<Option<Function>, AllocError>
    requires sound { Sound f.now }
    requires graph { IsGraphOf f.now edges.now }
    requires apart { IsApart f.now (contains nat_eq outside.now) }
    ensures { IfOk result (λ g. IsStep (candidate_of f.now) f.now (or_same f.now g)) }
{
    let found = candidates(alloc, f)?;
    let substitution = Substitution::of(alloc, found.as_slice())?;
    let used = substitution.is_used(f.blocks.as_slice());
    if !used {
        return Ok(None);
    }
    let g = replaced(alloc, f, edges, outside, found.as_slice(), &substitution)?;
    Ok(Some(g))
}

/// The value that was made of another, and that it is a new one; the old one where none was made.
fn renewed<T: Drop>(old: T, made: Result<Option<T>, AllocError>) -> Result<(T, bool), AllocError>
    ensures new { IfOk result (λ both. both.1 ≡ true → made ≡ Ok (Some both.0)) }
    ensures same { IfOk result (λ both. both.1 ≡ false → (made ≡ Ok None) × (both.0 ≡ old)) }
{
    match made {
        Ok(Some(new)) => Ok((new, true)),
        Ok(None) => Ok((old, false)),
        Err(e) => Err(e),
    }
}

/// Free choices settled in their places, and each use replaced whose fact holds there; none where that changes nothing.
fn round(
    alloc: Global,
    f: &Function,
    edges: &Edges,
    outside: &HashSet<u32>,
) -> Result<Option<Function>, AllocError>
    requires sound { Sound f.now }
    requires graph { IsGraphOf f.now edges.now }
    requires apart { IsApart f.now (contains nat_eq outside.now) }
    ensures { IfOk result (λ g. IsRound f.now (or_same f.now g)) }
{
    let first = settled(alloc, f)?;
    match first {
        None => forwarded(alloc, f, edges, outside),
        Some(h) => {
            let second = forwarded(alloc, &h, edges, outside);
            let (g, _) = renewed(h, second)?;
            Ok(Some(g))
        }
    }
}

/// The function after so many rounds, and whether one has changed it. A round that changes nothing is the last, since no
/// later one changes anything.
fn rounds(
    alloc: Global,
    f: Function,
    edges: &Edges,
    outside: &HashSet<u32>,
    left: u32,
) -> Result<(Function, bool), AllocError>
    requires sound { Sound f }
    requires graph { IsGraphOf f edges.now }
    requires apart { IsApart f (contains nat_eq outside.now) }
    ensures made { IfOk result (λ made. AreRounds left f made.0) }
    ensures same { IfOk result (λ made. made.1 ≡ false → made.0 ≡ f) }
{
    if left == 0 {
        return Ok((f, false));
    }
    let next = round(alloc, &f, edges, outside);
    let (g, changed) = renewed(f, next)?;
    if !changed {
        return Ok((g, false));
    }
    let (h, _) = rounds(alloc, g, edges, outside, left - 1)?;
    Ok((h, true))
}

/// The function with these blocks after so many rounds, and whether one has changed it, where no unreached block gives a
/// local a value: then each candidate holds wherever its local is used. A block in which nothing is replaced stays as it is.
/// Behind free choices that are to be settled it goes on by whole functions.
fn rounds_in_place(
    alloc: Global,
    f: &Function,
    edges: &Edges,
    mut blocks: Vec<Block>,
    outside: &HashSet<u32>,
    left: u32,
) -> Result<(Function, bool), AllocError>
    requires sound { Sound (with_blocks f.now blocks.items) }
    requires graph { IsGraphOf (with_blocks f.now blocks.items) edges.now }
    requires apart { IsApart (with_blocks f.now blocks.items) (contains nat_eq outside.now) }
    requires none { (x : ℕ) → contains nat_eq outside.now x ≡ false }
    ensures made { IfOk result (λ made. AreRounds left (with_blocks f.now blocks.items) made.0) }
    ensures same { IfOk result (λ made. made.1 ≡ false → made.0 ≡ with_blocks f.now blocks.items) }
{
    if left == 0 {
        let same = with_blocks(alloc, f, blocks)?;
        return Ok((same, false));
    }
    let free = any_choice_in(blocks.as_slice());
    if free {
        let whole = with_blocks(alloc, f, blocks)?;
        return rounds(alloc, whole, edges, outside, left);
    }
    let changed = forward(alloc, &mut blocks)?;
    if !changed {
        let same = with_blocks(alloc, f, blocks)?;
        return Ok((same, false));
    }
    let (g, _) = rounds_in_place(alloc, f, edges, blocks, outside, left - 1)?;
    Ok((g, true))
}

/// What [`apply`] makes of a function that is given up, and whether that may be another one: where no round changes anything
/// it is the function itself. Its caller knows the predecessor edges and which blocks are reached, and both are so in what
/// is made.
///
/// Refused as [`apply`] is.
pub fn into_applied(
    alloc: Global,
    mut f: Function,
    edges: &Edges,
    reached: &Bits,
) -> Result<(Function, bool), AllocError>
    requires sound { Sound f }
    requires graph { IsGraphOf f edges.now }
    requires reach { IsReach f reached.now }
    ensures made { IfOk result (λ made. IsApplied f made.0) }
    ensures sound { IfOk result (λ made. Sound made.0) }
    ensures graph { IfOk result (λ made. IsGraphOf made.0 edges.now) }
    ensures reach { IfOk result (λ made. IsReach made.0 reached.now) }
    ensures same { IfOk result (λ made. made.1 ≡ false → made.0 ≡ f) }
{
    let outside = apart(alloc, &f, reached)?;
    let none = outside.is_empty();
    if none {
        let blocks = replace(&mut f.blocks, Rows::new(alloc)).into_vec();
        let g = rounds_in_place(alloc, &f, edges, blocks, &outside, ROUNDS);
        drop(f);
        return g;
    }
    rounds(alloc, f, edges, &outside, ROUNDS)
}

/// Copy and constant propagation: a sound function with uses of locals replaced by what has their value, the one operand
/// that a phi takes and the operand of the rule table, wherever the fact that it has this value holds at the use; sixteen
/// rounds, but none behind one that changes nothing, which would change nothing either.
/// In each round an instruction whose operand rests on a free choice becomes a freeze of it, in its place and under its
/// number, and all its uses take that one constant.
///
/// What is made is sound, and better in every program.
///
/// Beside want of memory, a function is refused as too large where it has `2^32` points or more, a candidate is a
/// local to which a block that isn't reached gives a value, and blocks aren't clear of such candidates
/// (`specs/Clear.antt`).
pub fn apply(alloc: Global, f: &Function) -> Result<Function, AllocError>
    requires sound { Sound f.now }
    ensures made { IfOk result (λ g. IsApplied f.now g) }
    ensures better { IfOk result (λ g. (p : Program) → IsFormed p → BetterThan p 1 g f.now) }
    ensures sound { IfOk result (λ g. Sound g) }
{
    let flow = Flow::of(alloc, f)?;
    let copy = f.duplicate(alloc)?;
    let (g, _) = into_applied(alloc, copy, &flow.edges, &flow.reached)?;
    Ok(g)
}
