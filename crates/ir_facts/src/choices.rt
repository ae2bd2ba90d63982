//! Free choices settled: an instruction whose row may rest on one becomes a freeze of the row's constant, in its place.
ghost use Rattle.std.specs.Prelude.{◌≡◌, IfOk, is_some, map};
ghost use Rattle.ir_meaning.specs.Table.{compares_freely, is_equality, is_poison, may_choose};
ghost use Rattle.fold_rules.specs.Folding.{row_of};
ghost use Rattle.fold_rules.specs.Widths.{HasWidths};
ghost use Rattle.ir_facts.specs.Askable.{BlocksHaveWidths, LinesHaveWidths};
ghost use Rattle.ir_facts.specs.Settled.{any_choice, any_choice_in, choice_of, number_in, or_same, settled, settled_block, settled_instr, settled_line};

use fact_sources::with_blocks;
use fold_rules::{Folded, is_same, rule};
use ir_tree::{Block, Duplicate, Function, Instr, Line, Operand, Predicate, Reg, Rows};
use std::alloc::{AllocError, Global};

// ---- rows that may rest on a free choice

fn is_poison(operand: &Operand) -> bool
    ensures { result ≡ is_poison operand.now }
{
    matches!(operand, Operand::Poison(_))
}

fn is_equality(predicate: Predicate) -> bool
    ensures { result ≡ is_equality predicate }
{
    matches!(predicate, Predicate::Eq | Predicate::Ne)
}

/// Whether a comparison is an ordered one of a pointer with itself.
fn compares_freely(predicate: Predicate, reg: Reg, left: &Operand, right: &Operand) -> bool
    ensures { result ≡ compares_freely predicate reg left.now right.now }
{
    if let Reg::Int(_) = reg {
        return false;
    }
    !is_equality(predicate) && is_same(left, right) && !is_poison(left)
}

/// Whether the row of an instruction may rest on a free choice.
fn may_choose(instr: &Instr) -> bool
    ensures { result ≡ may_choose instr.now }
{
    match instr {
        Instr::Freeze { value, .. } => is_poison(value),
        Instr::Icmp {
            predicate,
            reg,
            left,
            right,
        } => compares_freely(*predicate, *reg, left, right),
        _ => false,
    }
}

/// The width and the number of a constant.
fn number_in(row: Option<Folded>) -> Option<(u8, u64)>
    ensures { result ≡ number_in (row_of row.entry) }
{
    match row {
        Some(Folded::Number { width, bits }) => Some((width, bits)),
        Some(Folded::Same(Operand::Number { width, bits })) => Some((*width, *bits)),
        _ => None,
    }
}

/// The constant by which the free choice of an instruction is settled, where it has one.
fn choice_of(instr: &Instr) -> Option<(u8, u64)>
    requires sized { HasWidths instr.now }
    ensures { result ≡ choice_of instr.now }
{
    if may_choose(instr) {
        number_in(rule(instr))
    } else {
        None
    }
}

// ---- whether there is one

fn has_choice(instr: &Instr) -> bool
    requires sized { HasWidths instr.now }
    ensures { result ≡ is_some (choice_of instr.now) }
{
    choice_of(instr).is_some()
}

fn any_choice(lines: &[Line]) -> bool
    requires sized { LinesHaveWidths lines.now }
    ensures { result ≡ any_choice lines.now }
{
    for line in lines {
        if has_choice(&line.instr) {
            return true;
        }
    }
    false
}

/// Whether a row of these blocks rests on a free choice.
pub(crate) fn any_choice_in(blocks: &[Block]) -> bool
    requires sized { BlocksHaveWidths blocks.now }
    ensures { result ≡ any_choice_in blocks.now }
{
    for block in blocks {
        if any_choice(block.lines.as_slice()) {
            return true;
        }
    }
    false
}

// ---- functions

fn settled_instr(alloc: Global, instr: &Instr) -> Result<Instr, AllocError>
    requires sized { HasWidths instr.now }
    ensures { IfOk result (λ i. i ≡ settled_instr instr.now) }
{
    match choice_of(instr) {
        Some((width, bits)) => Ok(Instr::Freeze {
            reg: Reg::Int(width),
            value: Operand::Number { width, bits },
        }),
        None => instr.duplicate(alloc),
    }
}

fn settled_lines(alloc: Global, lines: &[Line]) -> Result<Rows<Line>, AllocError>
    requires sized { LinesHaveWidths lines.now }
    ensures { IfOk result (λ rows. rows ≡ map settled_line lines.now) }
{
    let mut rows = Rows::new(alloc);
    for line in lines {
        let instr = settled_instr(alloc, &line.instr)?;
        rows.push(Line {
            local: line.local,
            instr,
        })?;
    }
    Ok(rows)
}

fn settled_block(alloc: Global, block: &Block) -> Result<Block, AllocError>
    requires sized { LinesHaveWidths block.now.lines }
    ensures { IfOk result (λ b. b ≡ settled_block block.now) }
{
    let phis = block.phis.duplicate(alloc)?;
    let lines = settled_lines(alloc, block.lines.as_slice())?;
    let end = block.end.duplicate(alloc)?;
    Ok(Block {
        number: block.number,
        phis,
        lines,
        end,
    })
}

fn settled_blocks(alloc: Global, blocks: &[Block]) -> Result<Rows<Block>, AllocError>
    requires sized { BlocksHaveWidths blocks.now }
    ensures { IfOk result (λ rows. rows ≡ map settled_block blocks.now) }
{
    let mut rows = Rows::new(alloc);
    for block in blocks {
        rows.push(settled_block(alloc, block)?)?;
    }
    Ok(rows)
}

/// The function with its free choices settled; none where it has none.
pub fn settled(alloc: Global, f: &Function) -> Result<Option<Function>, AllocError>
    requires sized { BlocksHaveWidths f.now.blocks }
    ensures { IfOk result (λ g. or_same f.now g ≡ settled f.now) }
{
    let any = any_choice_in(f.blocks.as_slice());
    if !any {
        return Ok(None);
    }
    let blocks = settled_blocks(alloc, f.blocks.as_slice())?;
    let g = with_blocks(alloc, f, blocks)?;
    Ok(Some(g))
}
