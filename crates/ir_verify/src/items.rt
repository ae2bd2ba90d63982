//! The rules at each phi, line and terminator of a function.
ghost use Rattle.std.specs.Prelude.{◌≡◌, ◌<◌, ◌↔◌, length, All, IfOk, IsTrue, Some};
ghost use Rattle.ir_tree.specs.Formed.{Formed, IsBlock, ItemFormed, OperandFormed};
ghost use Rattle.ir_tree.specs.Items.{phi_item, line_item, end_item};
ghost use Rattle.ir_tree.specs.Items as items;
ghost use Rattle.ir_tree.specs.Rules.{place, EndDiffers, EntriesThere, IsThereAtEnd, OnEdges};
ghost use Rattle.ir_verify.specs.Faults.{FirstBroken, LatePhi};
ghost use Rattle.ir_verify.specs.Known.{IsKnown};

use crate::available::{end_there, operand_at_end, reads_there};
use crate::cases::cases_differ;
use crate::entry::leaves_entry;
use crate::instructions::{casts_right, is_no_phi, line_follows};
use crate::known::Known;
use crate::phis::{on_edges, place_of};
use crate::types::{end_typed, entries_typed, line_typed};
use ir_tree::{Function, Incoming, Instr, Line, Phi, Rule, Terminator};
use std::alloc::{AllocError, Global};

/// Whether the entries of a phi are there at the ends of the blocks that they are for.
fn entries_there(function: &Function, known: &Known, entries: &[Incoming]) -> bool
    requires known { IsKnown function.now known.now }
    requires formed { Formed function.now }
    requires sources { All (λ e. IsBlock function.now e.from) entries.now }
    requires values { All (λ e. OperandFormed function.now e.value) entries.now }
    ensures { IsTrue result ↔ All (λ e. IsThereAtEnd function.now (place function.now.blocks e.from) e.value) entries.now }
{
    for entry in entries {
        let from = place_of(function.blocks.as_slice(), &known.places, entry.from);
        if !operand_at_end(function, known, from, &entry.value) {
            return false;
        }
    }
    true
}

/// The first rule that a phi of the block at a place breaks.
pub fn phi_broken(
    alloc: Global,
    function: &Function,
    known: &Known,
    block: usize,
    phi: &Phi,
) -> Result<Option<Rule>, AllocError>
    requires known { IsKnown function.now known.now }
    requires formed { Formed function.now }
    requires within { block < length function.now.blocks }
    requires item { ItemFormed function.now (phi_item block phi.now) }
    ensures { IfOk result (FirstBroken function.now (phi_item block phi.now)) }
{
    let entries = phi.incoming.as_slice();
    if !entries_typed(function, &known.locals, phi.reg, entries) {
        return Ok(Some(Rule::TypeMismatch));
    }
    if !entries_there(function, known, entries) {
        return Ok(Some(Rule::NotAvailable));
    }
    if !on_edges(alloc, function, &known.places, &known.preds, block, entries)? {
        return Ok(Some(Rule::PhiEdges));
    }
    if block == 0 {
        return Ok(Some(Rule::PhiPlace));
    }
    Ok(None)
}

/// The first of the rules on phis that a phi behind another instruction breaks: where it has its entries right, it stands wrong.
fn late_phi_broken(
    alloc: Global,
    function: &Function,
    known: &Known,
    block: usize,
    entries: &[Incoming],
) -> Result<Rule, AllocError>
    requires known { IsKnown function.now known.now }
    requires within { block < length function.now.blocks }
    ensures { IfOk result (LatePhi function.now block entries.now) }
{
    if on_edges(alloc, function, &known.places, &known.preds, block, entries)? {
        Ok(Rule::PhiPlace)
    } else {
        Ok(Rule::PhiEdges)
    }
}

/// The entries of a phi; any other instruction has none.
fn taken(instr: &Instr) -> &[Incoming]
    ensures { result.now ≡ items.taken instr.now }
{
    match instr {
        Instr::Phi { incoming, .. } => incoming.as_slice(),
        _ => &[],
    }
}

/// Whether what a line takes as a phi is there at the ends of the blocks that it is for.
fn taken_there(function: &Function, known: &Known, block: usize, place: usize, line: &Line) -> bool
    requires known { IsKnown function.now known.now }
    requires formed { Formed function.now }
    requires item { ItemFormed function.now (line_item block place line.now) }
    ensures { IsTrue result ↔ EntriesThere function.now (line_item block place line.now) }
{
    entries_there(function, known, taken(&line.instr))
}

/// The first rule that a line of the block at a place breaks.
pub fn line_broken(
    alloc: Global,
    function: &Function,
    known: &Known,
    block: usize,
    place: usize,
    line: &Line,
) -> Result<Option<Rule>, AllocError>
    requires known { IsKnown function.now known.now }
    requires formed { Formed function.now }
    requires within { block < length function.now.blocks }
    requires item { ItemFormed function.now (line_item block place line.now) }
    ensures { IfOk result (FirstBroken function.now (line_item block place line.now)) }
{
    if !line_typed(function, &known.locals, line) {
        return Ok(Some(Rule::TypeMismatch));
    }
    if !reads_there(function, known, block, place, &line.instr)
        || !taken_there(function, known, block, place, line)
    {
        return Ok(Some(Rule::NotAvailable));
    }
    if !is_no_phi(&line.instr) {
        let rule = late_phi_broken(alloc, function, known, block, taken(&line.instr))?;
        return Ok(Some(rule));
    }
    if !line_follows(&line.instr) {
        return Ok(Some(Rule::Index));
    }
    if !casts_right(&line.instr) {
        return Ok(Some(Rule::Cast));
    }
    Ok(None)
}

/// Whether the cases of a terminator, if it has any, differ.
fn end_differs(alloc: Global, end: &Terminator) -> Result<bool, AllocError>
    ensures { IfOk result (λ differ. IsTrue differ ↔ EndDiffers end.now) }
{
    match end {
        Terminator::Switch { cases, .. } => cases_differ(alloc, cases.as_slice()),
        _ => Ok(true),
    }
}

/// The first rule that the terminator of the block at a place breaks.
pub fn end_broken(
    alloc: Global,
    function: &Function,
    known: &Known,
    block: usize,
    end: &Terminator,
) -> Result<Option<Rule>, AllocError>
    requires known { IsKnown function.now known.now }
    requires formed { Formed function.now }
    requires within { block < length function.now.blocks }
    requires item { ItemFormed function.now (end_item block end.now) }
    ensures { IfOk result (FirstBroken function.now (end_item block end.now)) }
{
    if !end_typed(function, &known.locals, end) {
        return Ok(Some(Rule::TypeMismatch));
    }
    if !end_there(function, known, block, end) {
        return Ok(Some(Rule::NotAvailable));
    }
    if !leaves_entry(function.blocks.as_slice(), &known.places, end) {
        return Ok(Some(Rule::EntryBranch));
    }
    if !end_differs(alloc, end)? {
        return Ok(Some(Rule::CaseTwice));
    }
    Ok(None)
}
