//! The facts of a function: at which of its points the operand that may stand for a local has its value.
ghost use Rattle.std.specs.Prelude.{◌≡◌, ◌++◌, ℕ, false, length, map, IfOk, OnOk};
ghost use Rattle.ir_tree.specs.Formed.{Formed};
ghost use Rattle.ir_flow.specs.Narrowing.{AreSized, marked};
ghost use Rattle.ir_flow.specs.OfFunction.{IsGraphOf};
ghost use Rattle.ir_facts.specs.FactFlow.{flow_points};
ghost use Rattle.ir_facts.specs.Points.{AreFacts, EachIsFact, IsFact, line_points};
ghost use Rattle.lto_sets.specs.Sets.{contains};

use crate::flow::{FactFlow, held_behind, opened, phi_of, put};
use crate::sources::candidates;
use fact_sources::Fact;
use ir_flow::{Edges, greatest, preds};
use ir_tree::{Block, Duplicate, Function, Line, Operand};
use lto_sets::Bits;
use std::alloc::{AllocError, Global};

/// The set of the places that are marked. Beside want of memory, `2^32` marks or more are refused as too many for it.
fn bits_of(alloc: Global, marks: &[bool]) -> Result<Bits, AllocError>
    ensures { IfOk result (λ s. s ≡ marks.now) }
{
    let count = marks.len();
    if count > u32::MAX as usize {
        return Err(AllocError);
    }
    let mut bits = Bits::new(alloc, count as u32)?;
    for place in 0..count {
        put(&mut bits, place as u32, marks[place]);
    }
    Ok(bits)
}

fn push_line_points(
    marks: &mut Vec<bool>,
    local: u32,
    value: &Operand,
    lines: &[Line],
    start: bool,
) -> Result<(), AllocError>
    ensures { OnOk result (marks.new.items ≡ marks.old.items ++ line_points local value.now lines.now start) }
{
    let mut held = start;
    for line in lines {
        marks.push(held)?;
        held = held_behind(local, value, line.local, held);
    }
    marks.push(held)?;
    Ok(())
}

/// The points of these blocks, by the members of each block's row.
fn push_points(
    marks: &mut Vec<bool>,
    local: u32,
    value: &Operand,
    rows: &[Bits],
    blocks: &[Block],
) -> Result<(), AllocError>
    requires long { length rows.now ≡ length blocks.now }
    requires sized { AreSized 2 rows.now }
    ensures { OnOk result (marks.new.items ≡ marks.old.items ++ flow_points local value.now (marked rows.now) 0 blocks.now) }
{
    for place in 0..blocks.len() {
        let block = &blocks[place];
        let row = &rows[place];
        let start = opened(local, value, block.phis.as_slice(), row.has(0), row.has(1));
        push_line_points(marks, local, value, block.lines.as_slice(), start)?;
    }
    Ok(())
}

/// The fact of one local.
fn fact_of(
    alloc: Global,
    function: &Function,
    edges: &Edges,
    none: &Bits,
    pair: &(u32, Operand),
) -> Result<Fact, AllocError>
    requires formed { Formed function.now }
    requires graph { IsGraphOf function.now edges.now }
    requires sized { length none.now ≡ 2 }
    requires bare { (y : ℕ) → contains none.now y ≡ false }
    ensures { IfOk result (λ t. (t.local ≡ pair.now.0) × (t.value ≡ pair.now.1) × IsFact function.now t) }
{
    let local = pair.0;
    let blocks = function.blocks.as_slice();
    let home = phi_of(local, blocks);
    let flow = FactFlow {
        function,
        edges,
        none,
        local,
        value: &pair.1,
        home,
    };
    let rows = greatest(alloc, &flow)?;
    let mut marks = Vec::new(alloc);
    push_points(&mut marks, local, &pair.1, &rows, blocks)?;
    let at = bits_of(alloc, &marks)?;
    let value = pair.1.duplicate(alloc)?;
    Ok(Fact { local, value, at })
}

/// The fact of each of these pairs of a local and an operand, by the function's predecessor edges.
pub(crate) fn facts_of(
    alloc: Global,
    f: &Function,
    edges: &Edges,
    pairs: &[(u32, Operand)],
) -> Result<Vec<Fact>, AllocError>
    requires formed { Formed f.now }
    requires graph { IsGraphOf f.now edges.now }
    ensures listed { IfOk result (λ found. map (λ t. (t.local, t.value)) found.items ≡ pairs.now) }
    ensures each { IfOk result (λ found. EachIsFact f.now found.items) }
{
    let none = Bits::new(alloc, 2)?;
    let mut facts = Vec::with_capacity(alloc, pairs.len())?;
    for pair in pairs {
        let fact = fact_of(alloc, f, edges, &none, pair)?;
        facts.push(fact)?;
    }
    Ok(facts)
}

/// For each local that has a candidate, in the order of the text, the candidate and the points at which it may stand
/// for the local: by the greatest solution of the equations of `specs/Points.antt` over the function's edges. In a
/// block without predecessors, other than the entry, each fact holds behind the phis.
///
/// Beside want of memory, a function of `2^32` blocks or points or more is refused as too large for it. For each
/// fact the equations are solved over the blocks and their phis and instructions, and there is a bit for each point:
/// use it to look at facts. [`apply`](crate::apply) asks for points of those facts alone whose operand is a local that
/// an unreached block defines, and of these only where blocks aren't clear of them (`specs/Clear.antt`).
pub fn facts(alloc: Global, f: &Function) -> Result<Vec<Fact>, AllocError>
    requires formed { Formed f.now }
    ensures { IfOk result (λ found. AreFacts f.now found.items) }
{
    let edges = preds(alloc, f)?;
    let found = candidates(alloc, f)?;
    let facts = facts_of(alloc, f, &edges, found.as_slice())?;
    Ok(facts)
}
