//! The slots that can be promoted.
ghost use Rattle.std.specs.Prelude.{◌≡◌, ℕ, List, ◌==◌, ◌++◌, ◌&&◌, ◌||◌, not, IfOk, OnOk};
ghost use Rattle.ir_tree.specs.declared.operand.Reg.{Reg};
ghost use Rattle.promotable_slots.specs.Accesses.{allows};
ghost use Rattle.promotable_slots.specs.Slots.{scalar, slot_made, line_slots, slots, is_access, is_accessed_as, promotable, limited, promoted_slots};
ghost use Rattle.promotable_slots.specs.Uses.{uses};
ghost use Rattle.promotable_slots.specs.declared.uses.Use.{Use};

use crate::uses::{Use, uses_in};
use ir_tree::{Block, Function, Instr, Line, Reg, Shape, ShapeNode};
use std::alloc::{AllocError, Global};
use std::collections::HashMap;

/// A stack slot of a scalar: the local that holds its address, and the scalar's type.
#[derive(Clone, Copy)]
pub struct Slot {
    pub local: u32,
    pub reg: Reg,
}

fn scalar(shape: &Shape) -> Option<Reg>
    ensures { result ≡ scalar shape.now }
{
    match shape.node() {
        ShapeNode::Int(width) => Some(Reg::Int(*width)),
        ShapeNode::Ptr => Some(Reg::Ptr),
        ShapeNode::Array(..) | ShapeNode::Struct(..) => None,
    }
}

fn push_slot(found: &mut Vec<Slot>, line: &Line) -> Result<(), AllocError>
    ensures { OnOk result (found.new.items ≡ found.old.items ++ slot_made line.now.local line.now.instr) }
{
    match (line.local, &line.instr) {
        (Some(local), Instr::Alloca { shape, .. }) => match scalar(shape) {
            Some(reg) => {
                found.push(Slot { local, reg })?;
                Ok(())
            }
            None => Ok(()),
        },
        _ => Ok(()),
    }
}

fn push_slots(found: &mut Vec<Slot>, lines: &[Line]) -> Result<(), AllocError>
    ensures { OnOk result (found.new.items ≡ found.old.items ++ line_slots lines.now) }
{
    for line in lines {
        push_slot(found, line)?;
    }
    Ok(())
}

/// The slots of scalars, in the order of the text.
fn slots_in(alloc: Global, blocks: &[Block]) -> Result<Vec<Slot>, AllocError>
    ensures { IfOk result (λ found. found.items ≡ slots blocks.now) }
{
    let mut found = Vec::new(alloc);
    for block in blocks {
        push_slots(&mut found, block.lines.as_slice())?;
    }
    Ok(found)
}

/// How the locals are used: as addresses of accesses of one type, or in other ways.
#[derive(Drop)]
struct Accesses {
    by_local: HashMap<u32, Option<Reg>>,
}

impl Accesses {
    /// Whether each use of the local is the address of an access of this type.
    fn allows(&self, reg: Reg, local: u32) -> bool
        ensures { result ≡ allows self.now reg local }
    {
        match self.by_local.get(&local) {
            None => true,
            Some(None) => false,
            Some(Some(access)) => *access == reg,
        }
    }

    /// The type of all accesses of a use's local, with this use.
    fn merged(&self, one: Use) -> Option<Reg>
        ensures { (reg : Reg) → is_access reg result ≡ (allows self.now reg one.local && is_access reg one.access) }
    {
        match self.by_local.get(&one.local) {
            None => one.access,
            Some(access) => {
                if *access == one.access {
                    one.access
                } else {
                    None
                }
            }
        }
    }

    /// One more use.
    fn add(&mut self, one: Use) -> Result<(), AllocError>
        ensures { OnOk result ((reg : Reg) (x : ℕ) → allows self.new reg x ≡ (allows self.old reg x && (not (one.local == x) || is_access reg one.access))) }
    {
        let access = self.merged(one);
        self.by_local.insert(one.local, access)?;
        Ok(())
    }

    fn of(alloc: Global, uses: &[Use]) -> Result<Self, AllocError>
        ensures { IfOk result (λ a. (reg : Reg) (x : ℕ) → allows a reg x ≡ is_accessed_as reg x uses.now) }
    {
        let mut accesses = Accesses {
            by_local: HashMap::new(alloc),
        };
        for one in uses {
            accesses.add(*one)?;
        }
        Ok(accesses)
    }
}

/// The slots that these uses allow.
fn allowed(alloc: Global, accesses: &Accesses, slots: &[Slot]) -> Result<Vec<Slot>, AllocError>
    ensures { IfOk result (λ kept. (us : List Use) → ((reg : Reg) (x : ℕ) → allows accesses.now reg x ≡ is_accessed_as reg x us) → kept.items ≡ promotable us slots.now) }
{
    let mut kept = Vec::new(alloc);
    for slot in slots {
        if accesses.allows(slot.reg, slot.local) {
            kept.push(*slot)?;
        }
    }
    Ok(kept)
}

/// The slots each of whose uses is the address of an access of their type.
fn promotable(alloc: Global, uses: &[Use], slots: &[Slot]) -> Result<Vec<Slot>, AllocError>
    ensures { IfOk result (λ kept. kept.items ≡ promotable uses.now slots.now) }
{
    let accesses = Accesses::of(alloc, uses)?;
    let kept = allowed(alloc, &accesses, slots)?;
    Ok(kept)
}

/// The promotable slots of these blocks.
fn promotable_in(alloc: Global, blocks: &[Block]) -> Result<Vec<Slot>, AllocError>
    ensures { IfOk result (λ kept. kept.items ≡ promotable (uses blocks.now) (slots blocks.now)) }
{
    let slots = slots_in(alloc, blocks)?;
    if slots.len() == 0 {
        return Ok(slots);
    }
    let uses = uses_in(alloc, blocks)?;
    let kept = promotable(alloc, &uses, &slots)?;
    Ok(kept)
}

/// How many values of slots at blocks are kept at most.
const MOST_VALUES: usize = 4_000_000;

fn limited(alloc: Global, blocks: usize, slots: Vec<Slot>) -> Vec<Slot>
    ensures { result.items ≡ limited blocks slots.items }
{
    match slots.len().checked_mul(blocks) {
        Some(values) if values <= MOST_VALUES => slots,
        _ => Vec::new(alloc),
    }
}

/// The slots of a function that are promoted, in the order of their `alloca`s: scalars each of whose uses is the address of
/// a load or a store of their type; none where slots times blocks are more than 4,000,000.
pub fn promoted_slots(alloc: Global, f: &Function) -> Result<Vec<Slot>, AllocError>
    ensures { IfOk result (λ slots. slots.items ≡ promoted_slots f.now) }
{
    let blocks = f.blocks.as_slice();
    let kept = promotable_in(alloc, blocks)?;
    Ok(limited(alloc, blocks.len(), kept))
}
