//! The candidates of a function: copies and constants.
ghost use Rattle.std.specs.Prelude.{◌≡◌, ◌++◌, ℕ, IfOk, OnOk, option_map};
ghost use Rattle.ir_meaning.specs.Facts.{is_local, is_phi};
ghost use Rattle.fold_rules.specs.Folding.{row_of};
ghost use Rattle.fold_rules.specs.Widths.{HasWidths};
ghost use Rattle.ir_facts.specs.Askable.{BlocksHaveWidths, LinesHaveWidths};
ghost use Rattle.ir_facts.specs.Candidates.{block_candidates, blocks_candidates, candidates, first_other, line_candidates, line_source, paired, phi_candidates, result_candidate, source_beside, takes_only};

use fact_sources::{Locals, is_among, is_local, is_phi, phi_locals};
use fold_rules::{Folded, is_same, rule};
use ir_tree::{Block, Duplicate, Function, Incoming, Instr, Line, Operand, Phi};
use std::alloc::{AllocError, Global};

/// Of so many phis no set is made: each is asked.
const FEW_PHIS: usize = 8;

/// The first operand that a phi takes beside its own local.
fn first_other(local: u32, incoming: &[Incoming]) -> Option<&Operand>
    ensures { option_map (λ o. o.now) result ≡ first_other local incoming.now }
{
    for entry in incoming {
        if !is_local(local, &entry.value) {
            return Some(&entry.value);
        }
    }
    None
}

/// Whether a phi takes this operand alone beside its own local.
fn takes_only(local: u32, value: &Operand, incoming: &[Incoming]) -> bool
    ensures { result ≡ takes_only local value.now incoming.now }
{
    for entry in incoming {
        if !is_local(local, &entry.value) && !is_same(value, &entry.value) {
            return false;
        }
    }
    true
}

/// The locals of few phis, for which each phi is asked: no table is made.
#[derive(Clone, Copy)]
struct FewPhis<'a> {
    phis: &'a [Phi],
}

impl<'a> Locals for FewPhis<'a> {
    ghost use Rattle.ir_meaning.specs.Facts.{is_phi};

    ghost members = { λ s x. is_phi x s.phis.now };

    fn has(&self, local: u32) -> bool {
        is_phi(local, self.phis)
    }
}

/// The one operand that a phi takes beside its own local, unless it is a phi of the same block.
fn phi_source<'a, L: Locals>(among: &L, phi: &'a Phi) -> Option<&'a Operand>
    ensures { option_map (λ o. o.now) result ≡ source_beside (L.members among.now) phi.now }
{
    let incoming = phi.incoming.as_slice();
    let source = first_other(phi.local, incoming)?;
    if takes_only(phi.local, source, incoming) && !is_among(among, source) {
        Some(source)
    } else {
        None
    }
}

fn push_phi<L: Locals>(
    alloc: Global,
    found: &mut Vec<(u32, Operand)>,
    among: &L,
    phi: &Phi,
) -> Result<(), AllocError>
    ensures { OnOk result (found.new.items ≡ found.old.items ++ paired phi.now.local (source_beside (L.members among.now) phi.now)) }
{
    if let Some(source) = phi_source(among, phi) {
        let value = source.duplicate(alloc)?;
        found.push((phi.local, value))?;
    }
    Ok(())
}

/// The candidates of the phis of a block, whose locals are this set.
fn push_phis_among<L: Locals>(
    alloc: Global,
    found: &mut Vec<(u32, Operand)>,
    among: &L,
    phis: &[Phi],
) -> Result<(), AllocError>
    requires own { (x : ℕ) → L.members among.now x ≡ is_phi x phis.now }
    ensures { OnOk result (found.new.items ≡ found.old.items ++ phi_candidates phis.now phis.now) }
{
    for phi in phis {
        push_phi(alloc, found, among, phi)?;
    }
    Ok(())
}

/// The operand of the rule table, where it isn't the local itself.
fn line_source<'a>(local: u32, instr: &'a Instr) -> Option<Folded<'a>>
    requires sized { HasWidths instr.now }
    ensures { row_of result ≡ line_source local instr.now }
{
    let folded = rule(instr)?;
    if let Folded::Same(operand) = folded {
        if is_local(local, operand) {
            return None;
        }
    }
    Some(folded)
}

fn push_line(alloc: Global, found: &mut Vec<(u32, Operand)>, line: &Line) -> Result<(), AllocError>
    requires sized { HasWidths line.now.instr }
    ensures { OnOk result (found.new.items ≡ found.old.items ++ result_candidate line.now.local line.now.instr) }
{
    let Some(local) = line.local else {
        return Ok(());
    };
    if let Some(folded) = line_source(local, &line.instr) {
        let value = folded.operand(alloc)?;
        found.push((local, value))?;
    }
    Ok(())
}

/// The candidates of the phis of a block. Whether an operand is one of these phis is looked up in a set, where there are
/// many.
pub(crate) fn push_phis(
    alloc: Global,
    found: &mut Vec<(u32, Operand)>,
    phis: &[Phi],
) -> Result<(), AllocError>
    ensures { OnOk result (found.new.items ≡ found.old.items ++ phi_candidates phis.now phis.now) }
{
    if phis.len() <= FEW_PHIS {
        return push_phis_among(alloc, found, &FewPhis { phis }, phis);
    }
    let among = phi_locals(alloc, phis)?;
    push_phis_among(alloc, found, &among, phis)
}

fn push_lines(
    alloc: Global,
    found: &mut Vec<(u32, Operand)>,
    lines: &[Line],
) -> Result<(), AllocError>
    requires sized { LinesHaveWidths lines.now }
    ensures { OnOk result (found.new.items ≡ found.old.items ++ line_candidates lines.now) }
{
    for line in lines {
        push_line(alloc, found, line)?;
    }
    Ok(())
}

pub(crate) fn push_block(
    alloc: Global,
    found: &mut Vec<(u32, Operand)>,
    block: &Block,
) -> Result<(), AllocError>
    requires sized { LinesHaveWidths block.now.lines }
    ensures { OnOk result (found.new.items ≡ found.old.items ++ block_candidates block.now) }
{
    push_phis(alloc, found, block.phis.as_slice())?;
    push_lines(alloc, found, block.lines.as_slice())
}

/// The candidates of blocks, in the order of the text.
pub(crate) fn push_blocks(
    alloc: Global,
    found: &mut Vec<(u32, Operand)>,
    blocks: &[Block],
) -> Result<(), AllocError>
    requires sized { BlocksHaveWidths blocks.now }
    ensures { OnOk result (found.new.items ≡ found.old.items ++ blocks_candidates blocks.now) }
{
    for block in blocks {
        push_block(alloc, found, block)?;
    }
    Ok(())
}

/// The locals for whose values another operand may stand, with that operand, in the order of the text: of a phi the one
/// operand that it takes beside its own value, of an instruction that of the rule table.
///
/// The widths of instructions are 1 to 64 and their shapes have sizes, as in each formed function
/// ([`formed_functions_have_widths`]).
pub fn candidates(alloc: Global, f: &Function) -> Result<Vec<(u32, Operand)>, AllocError>
    requires sized { BlocksHaveWidths f.now.blocks }
    ensures { IfOk result (λ found. found.items ≡ candidates f.now) }
{
    let mut found = Vec::new(alloc);
    push_blocks(alloc, &mut found, f.blocks.as_slice())?;
    Ok(found)
}
