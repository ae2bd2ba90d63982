//! The order of the passes.
ghost use Rattle.std.specs.Prelude.{◌≡◌, ◌||◌, false, IfOk, IfSome, Some};
ghost use Rattle.ir_tree.specs.Rules.{Sound};
ghost use Rattle.ir_tree.specs.declared.function.Function.{Function};
ghost use Rattle.ir_edit.specs.Numbered.{in_text_order};
ghost use Rattle.ir_flow.specs.OfFunction.{IsFlowOf, IsGraphOf};
ghost use Rattle.block_trim.specs.Merged.{IsMergeOf};
ghost use Rattle.block_trim.specs.Trimmed.{IsTrimOf};
ghost use Rattle.branch_simplify.specs.Simplified.{simplified};
ghost use Rattle.dead_code.specs.Least.{IsNeededOf};
ghost use Rattle.slot_promote.specs.Promoted.{promoted_function};
ghost use Rattle.back_end.specs.Inlinable.{AreSound};
ghost use Rattle.back_end.specs.Made.{AreTurns, IsMade, IsOptimised, IsTurn};
ghost use Rattle.back_end.specs.Walk.{AreWalks};
ghost use Rattle.back_end.specs.WalkLaws.{IsBetterWith};
ghost use Rattle.back_end.specs.Walking.{bodies_in};

use crate::bodies::Bodies;
use crate::laws::{made_is_better, turn_is_better};
use crate::walker::into_walked;
use block_trim::{into_merged, into_trimmed};
use branch_simplify::into_simplified;
use dead_code::into_needed;
use ir_edit::renumber;
use ir_facts::into_applied;
use ir_flow::{Edges, Flow, preds};
use ir_tree::{Duplicate, Function};
use slot_promote::into_promoted;
use std::alloc::{AllocError, Global};

// Each pass takes the function that the one before gave, and gives it on where it has nothing to do in it. A walk and each
// pass of a turn tell whether they did anything, so that no turn or walk is made behind one that changed nothing.

/// Whether one of two steps may have changed the function.
fn either(first: bool, second: bool) -> bool
    ensures { result ≡ (first || second) }
{
    first || second
}

/// The end of a turn: blocks joined, over these predecessor edges, and then what nobody needs gone; and whether that may have
/// changed the function.
fn turn_from_merge(
    alloc: Global,
    f: Function,
    edges: &Edges,
) -> Result<(Function, bool), AllocError>
    requires sound { Sound f }
    requires graph { IsGraphOf f edges.now }
    ensures made { IfOk result (λ made. (merged : Function) × IsMergeOf f merged × IsNeededOf merged made.0) }
    ensures same { IfOk result (λ made. made.1 ≡ false → made.0 ≡ f) }
{
    let (merged, joined) = into_merged(alloc, f, edges)?;
    let (g, swept) = into_needed(alloc, merged)?;
    Ok((g, either(joined, swept)))
}

/// The end of a turn behind the trim, which may have changed the function: its edges are those from before, unless it did.
fn turn_from_joins(
    alloc: Global,
    f: Function,
    before: &Edges,
    cut: bool,
) -> Result<(Function, bool), AllocError>
    requires sound { Sound f }
    requires graph { cut ≡ false → IsGraphOf f before.now }
    ensures made { IfOk result (λ made. (merged : Function) × IsMergeOf f merged × IsNeededOf merged made.0) }
    ensures same { IfOk result (λ made. made.1 ≡ false → made.0 ≡ f) }
{
    if cut {
        let edges = preds(alloc, &f)?;
        return turn_from_merge(alloc, f, &edges);
    }
    turn_from_merge(alloc, f, before)
}

/// A turn from where blocks that aren't reached go, of a function of this control flow.
fn turn_from_trim(alloc: Global, f: Function, flow: &Flow) -> Result<(Function, bool), AllocError>
    requires sound { Sound f }
    requires flow { IsFlowOf f flow.now }
    ensures made { IfOk result (λ made. (trimmed merged : Function) × IsTrimOf f trimmed × IsMergeOf trimmed merged × IsNeededOf merged made.0) }
    ensures same { IfOk result (λ made. made.1 ≡ false → made.0 ≡ f) }
{
    let (trimmed, cut) = into_trimmed(alloc, f, &flow.reached)?;
    let (g, changed) = turn_from_joins(alloc, trimmed, &flow.edges, cut)?;
    Ok((g, either(cut, changed)))
}

/// A turn behind the branches, of which some may have been decided: control flow is that from before, unless some were.
fn turn_from_jumps(
    alloc: Global,
    f: Function,
    before: &Flow,
    decided: bool,
) -> Result<(Function, bool), AllocError>
    requires sound { Sound f }
    requires flow { decided ≡ false → IsFlowOf f before.now }
    ensures made { IfOk result (λ made. (trimmed merged : Function) × IsTrimOf f trimmed × IsMergeOf trimmed merged × IsNeededOf merged made.0) }
    ensures same { IfOk result (λ made. made.1 ≡ false → made.0 ≡ f) }
{
    if decided {
        let flow = Flow::of(alloc, &f)?;
        return turn_from_trim(alloc, f, &flow);
    }
    turn_from_trim(alloc, f, before)
}

/// A turn from where decided branches become jumps, of a function of this control flow.
fn turn_from_branches(
    alloc: Global,
    f: Function,
    flow: &Flow,
) -> Result<(Function, bool), AllocError>
    requires sound { Sound f }
    requires flow { IsFlowOf f flow.now }
    ensures made { IfOk result (λ made. (trimmed merged : Function) × IsTrimOf (simplified f) trimmed × IsMergeOf trimmed merged × IsNeededOf merged made.0) }
    ensures same { IfOk result (λ made. made.1 ≡ false → made.0 ≡ f) }
{
    let (simplified, decided) = into_simplified(alloc, f)?;
    let (g, changed) = turn_from_jumps(alloc, simplified, flow, decided)?;
    Ok((g, either(decided, changed)))
}

/// Copies and constants propagated, decided branches as jumps, what isn't reached gone, blocks joined, and then what
/// nobody needs gone, in a function of this control flow; and whether that may have changed the function.
fn turn(alloc: Global, f: Function, flow: &Flow) -> Result<(Function, bool), AllocError>
    requires sound { Sound f }
    requires flow { IsFlowOf f flow.now }
    ensures made { IfOk result (λ made. IsTurn f made.0) }
    ensures sound { IfOk result (λ made. Sound made.0) }
    ensures same { IfOk result (λ made. made.1 ≡ false → made.0 ≡ f) }
{
    turn_is_better();
    let (propagated, replaced) = into_applied(alloc, f, &flow.edges, &flow.reached)?;
    let (g, changed) = turn_from_branches(alloc, propagated, flow)?;
    Ok((g, either(replaced, changed)))
}

/// A turn of a function whose control flow isn't known.
fn turn_anew(alloc: Global, f: Function) -> Result<(Function, bool), AllocError>
    requires { Sound f }
    ensures made { IfOk result (λ made. IsTurn f made.0) }
    ensures sound { IfOk result (λ made. Sound made.0) }
    ensures same { IfOk result (λ made. made.1 ≡ false → made.0 ≡ f) }
{
    let flow = Flow::of(alloc, &f)?;
    turn(alloc, f, &flow)
}

/// Two turns, of which the second is left out where the first changes nothing.
fn two_turns(alloc: Global, f: Function) -> Result<Function, AllocError>
    requires sound { Sound f }
    ensures { IfOk result (λ g. AreTurns 2 f g) }
{
    let (once, changed) = turn_anew(alloc, f)?;
    if !changed {
        return Ok(once);
    }
    let (g, _) = turn_anew(alloc, once)?;
    Ok(g)
}

/// Three turns of a function of this control flow, of which those are left out that stand behind one that changes nothing.
fn turns(alloc: Global, f: Function, flow: &Flow) -> Result<Function, AllocError>
    requires sound { Sound f }
    requires flow { IsFlowOf f flow.now }
    ensures { IfOk result (λ g. AreTurns 3 f g) }
{
    let (once, changed) = turn(alloc, f, flow)?;
    if !changed {
        return Ok(once);
    }
    two_turns(alloc, once)
}

/// Two walks, of which the second is left out where the first changes nothing.
fn two_walks(alloc: Global, bodies: &Bodies<'_>, f: Function) -> Result<Function, AllocError>
    requires sound { Sound f }
    requires bodies { AreSound (bodies_in bodies.now) }
    ensures walks { IfOk result (λ g. AreWalks 2 (bodies_in bodies.now) f g) }
    ensures sound { IfOk result (λ g. Sound g) }
{
    let (once, changed) = into_walked(alloc, bodies, f)?;
    if !changed {
        return Ok(once);
    }
    let (g, _) = into_walked(alloc, bodies, once)?;
    Ok(g)
}

/// Three walks, of which those are left out that stand behind one that changes nothing; and whether that may have changed the
/// function.
fn walks(alloc: Global, bodies: &Bodies<'_>, f: Function) -> Result<(Function, bool), AllocError>
    requires sound { Sound f }
    requires bodies { AreSound (bodies_in bodies.now) }
    ensures walks { IfOk result (λ walked. AreWalks 3 (bodies_in bodies.now) f walked.0) }
    ensures sound { IfOk result (λ walked. Sound walked.0) }
    ensures same { IfOk result (λ walked. walked.1 ≡ false → walked.0 ≡ f) }
{
    let (once, changed) = into_walked(alloc, bodies, f)?;
    if !changed {
        return Ok((once, false));
    }
    let g = two_walks(alloc, bodies, once)?;
    Ok((g, true))
}

/// Three turns, and then numbers in the order of the text.
fn turned(alloc: Global, f: Function, flow: &Flow) -> Result<Function, AllocError>
    requires sound { Sound f }
    requires flow { IsFlowOf f flow.now }
    ensures { IfOk result (λ g. (turned : Function) × AreTurns 3 f turned × (g ≡ in_text_order turned)) }
{
    let turned = turns(alloc, f, flow)?;
    let g = renumber(alloc, &turned)?;
    Ok(g)
}

/// Stack slots as values, three turns, and then numbers in the order of the text, of a function of this control flow. The slots'
/// values go over the edges that are there.
fn promoted(alloc: Global, f: Function, flow: &Flow) -> Result<Function, AllocError>
    requires sound { Sound f }
    requires flow { IsFlowOf f flow.now }
    ensures { IfOk result (λ g. (turned : Function) × AreTurns 3 (promoted_function f) turned × (g ≡ in_text_order turned)) }
{
    let promoted = into_promoted(alloc, f, &flow.edges)?;
    turned(alloc, promoted, flow)
}

/// What is known of a function's control flow, unless it may have been changed.
fn still(flow: Option<&Flow>, changed: bool) -> Option<&Flow>
    ensures { IfSome result (λ now. (changed ≡ false) × (flow.entry ≡ Some now)) }
{
    if changed {
        return None;
    }
    flow
}

/// The same, of a function whose control flow may be known.
fn promoted_over(alloc: Global, f: Function, flow: Option<&Flow>) -> Result<Function, AllocError>
    requires sound { Sound f }
    requires flow { IfSome flow (λ w. IsFlowOf f w.now) }
    ensures { IfOk result (λ g. (turned : Function) × AreTurns 3 (promoted_function f) turned × (g ≡ in_text_order turned)) }
{
    if let Some(flow) = flow {
        return promoted(alloc, f, flow);
    }
    let flow = Flow::of(alloc, &f)?;
    promoted(alloc, f, &flow)
}

/// Bodies inlined, stack slots as values, three turns, and then numbers in the order of the text.
fn optimised(
    alloc: Global,
    bodies: &Bodies<'_>,
    f: Function,
    flow: Option<&Flow>,
) -> Result<Function, AllocError>
    requires sound { Sound f }
    requires bodies { AreSound (bodies_in bodies.now) }
    requires flow { IfSome flow (λ w. IsFlowOf f w.now) }
    ensures { IfOk result (λ g. IsOptimised (bodies_in bodies.now) f g) }
{
    let (walked, changed) = walks(alloc, bodies, f)?;
    promoted_over(alloc, walked, still(flow, changed))
}

fn made(
    alloc: Global,
    bodies: &Bodies<'_>,
    f: &Function,
    flow: Option<&Flow>,
) -> Result<Function, AllocError>
    requires sound { Sound f.now }
    requires bodies { AreSound (bodies_in bodies.now) }
    requires flow { IfSome flow (λ w. IsFlowOf f.now w.now) }
    ensures { IfOk result (λ g. IsMade (bodies_in bodies.now) f.now g) }
{
    let copy = f.duplicate(alloc)?;
    if copy.optnone {
        Ok(copy)
    } else {
        optimised(alloc, bodies, copy, flow)
    }
}

/// What the back end makes of a sound function with these bodies: optimised, unless it is `optnone` (LangRef, "Function
/// Attributes").
///
/// It is sound, and better in every program whose own the bodies are. Its caller may know the function's control flow, which isn't
/// found again then where nothing is inlined. A number past 32 bits is answered as want of memory.
pub fn compile(
    alloc: Global,
    bodies: &Bodies<'_>,
    f: &Function,
    flow: Option<&Flow>,
) -> Result<Function, AllocError>
    requires sound { Sound f.now }
    requires bodies { AreSound (bodies_in bodies.now) }
    requires flow { IfSome flow (λ w. IsFlowOf f.now w.now) }
    ensures made { IfOk result (λ g. IsMade (bodies_in bodies.now) f.now g) }
    ensures better { IfOk result (λ g. IsBetterWith (bodies_in bodies.now) g f.now) }
    ensures sound { IfOk result (λ g. Sound g) }
{
    made_is_better();
    let g = made(alloc, bodies, f, flow)?;
    Ok(g)
}
