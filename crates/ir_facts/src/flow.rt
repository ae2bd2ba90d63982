//! The equations of one fact, from block to block.
ghost use Rattle.std.specs.Prelude.{◌≡◌, ◌<◌, ℕ, false, length, option_map, slice_set};
ghost use Rattle.lto_sets.specs.Sets.{contains};
ghost use Rattle.ir_meaning.specs.Facts.{edge_operand, is_phi_operand};
ghost use Rattle.ir_flow.specs.OfFunction.{IsGraphOf};
ghost use Rattle.ir_facts.specs.FactFlow.{opened, phi_in, phi_of, taken_from};
ghost use Rattle.ir_facts.specs.Points.{entry_holds, held_along, held_behind};

use fact_sources::{is_local, is_phi};
use fold_rules::is_same;
use ir_flow::{Edges, Equations};
use ir_tree::{Block, Function, Incoming, Line, Operand, Phi};
use lto_sets::Bits;

/// The phi that gives a local its value, of these.
fn phi_in(local: u32, phis: &[Phi]) -> Option<&Phi>
    ensures { option_map (λ p. p.now) result ≡ phi_in local phis.now }
{
    for phi in phis {
        if phi.local == local {
            return Some(phi);
        }
    }
    None
}

/// The phi that gives a local its value, of these blocks; none where an instruction does.
pub(crate) fn phi_of(local: u32, blocks: &[Block]) -> Option<&Phi>
    ensures { option_map (λ p. p.now) result ≡ phi_of local blocks.now }
{
    for block in blocks {
        if let Some(phi) = phi_in(local, block.phis.as_slice()) {
            return Some(phi);
        }
    }
    None
}

/// What a phi takes on the edge from a block.
fn edge_operand(from: u32, incoming: &[Incoming]) -> Option<&Operand>
    ensures { option_map (λ o. o.now) result ≡ edge_operand from incoming.now }
{
    for entry in incoming {
        if entry.from == from {
            return Some(&entry.value);
        }
    }
    None
}

fn taken_from<'a>(from: u32, home: Option<&'a Phi>) -> Option<&'a Operand>
    ensures { option_map (λ o. o.now) result ≡ taken_from from (option_map (λ p. p.now) home.entry) }
{
    edge_operand(from, home?.incoming.as_slice())
}

fn is_phi_operand(operand: &Operand, phis: &[Phi]) -> bool
    ensures { result ≡ is_phi_operand operand.now phis.now }
{
    match operand {
        Operand::Local(local) => is_phi(*local, phis),
        _ => false,
    }
}

/// Whether the fact that `value` may stand for `local` holds behind a block's phis.
pub(crate) fn opened(local: u32, value: &Operand, phis: &[Phi], before: bool, entered: bool) -> bool
    ensures { result ≡ opened local value.now phis.now before entered }
{
    if is_phi_operand(value, phis) {
        return false;
    }
    if is_phi(local, phis) { entered } else { before }
}

/// Whether it holds behind an instruction.
pub(crate) fn held_behind(local: u32, value: &Operand, given: Option<u32>, held: bool) -> bool
    ensures { result ≡ held_behind local value.now given held }
{
    let Some(given) = given else {
        return held;
    };
    local == given || (held && !is_local(given, value))
}

fn held_along(local: u32, value: &Operand, lines: &[Line], start: bool) -> bool
    ensures { result ≡ held_along local value.now lines.now start }
{
    let mut held = start;
    for line in lines {
        held = held_behind(local, value, line.local, held);
    }
    held
}

/// Whether what a phi takes on an edge is what its fact says.
fn entry_holds(local: u32, value: &Operand, held: bool, taken: Option<&Operand>) -> bool
    ensures { result ≡ entry_holds local value.now held (option_map (λ o. o.now) taken.entry) }
{
    let Some(operand) = taken else {
        return true;
    };
    is_same(value, operand) || (is_local(local, operand) && held)
}

/// Makes a number below the size a member, or none.
pub(crate) fn put(row: &mut Bits, member: u32, held: bool)
    requires { member < length row.old }
    ensures { row.new ≡ slice_set row.old member held }
{
    if held {
        row.with(member);
    } else {
        row.without(member);
    }
}

/// The equations of one fact: that `value` may stand for `local`. Each block has two members: 0 that the fact holds in
/// front of the block's phis, and 1 that the local, where it is a phi of the block, takes what the fact says on each
/// edge.
#[derive(Drop)]
pub(crate) struct FactFlow<'a> {
    pub function: &'a Function,
    pub edges: &'a Edges,
    pub none: &'a Bits,
    pub local: u32,
    pub value: &'a Operand,
    pub home: Option<&'a Phi>,
    ghost graph: { IsGraphOf function.now edges.now },
    ghost sized: { length none.now ≡ 2 },
    ghost bare: { (y : ℕ) → contains none.now y ≡ false },
    ghost homed: { option_map (λ p. p.now) home ≡ phi_of local function.now.blocks },
}

impl<'a> Equations for FactFlow<'a> {
    ghost use Rattle.ir_facts.specs.FactFlow.{fact_flow};
    ghost use Rattle.ir_facts.specs.FlowLaws.{flow_keeps};

    ghost system = { λ s. fact_flow s.function.now s.local s.value.now };

    fn size(&self) -> u32 {
        2
    }

    fn edges(&self) -> &Edges {
        self.edges
    }

    fn fixed(&self, block: u32) -> Option<&Bits> {
        if block == 0 { Some(self.none) } else { None }
    }

    fn transfer(&self, block: u32, row: &mut Bits) {
        let block = &self.function.blocks.as_slice()[block as usize];
        let start = opened(
            self.local,
            self.value,
            block.phis.as_slice(),
            row.has(0),
            row.has(1),
        );
        let held = held_along(self.local, self.value, block.lines.as_slice(), start);
        let taken = taken_from(block.number, self.home);
        let entered = entry_holds(self.local, self.value, held, taken);
        put(row, 0, held);
        put(row, 1, entered);
    }

    ghost lawful = { λ s. flow_keeps s.function.now s.local s.value.now };
}
