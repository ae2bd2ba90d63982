//! The values of slots along a block.
ghost use Rattle.std.specs.Prelude.{◌≡◌, ℕ, ◌+◌, ◌++◌, ◌∷◌, if◌then◌else◌, List, Option, IfOk, OnOk};
ghost use Rattle.ir_tree.specs.declared.instr.Line.{Line};
ghost use Rattle.ir_meaning.specs.Promote.{behind, changed, chosen_value};
ghost use Rattle.slot_promote.specs.Tables.{current, place_in};
ghost use Rattle.slot_promote.specs.Values.{behind_line, behind_lines, goes, instr_with, is_slot, load_with, local_goes, makes, reg_of, regs, value_at_start, without_slots, writes};
ghost use Rattle.slot_promote.specs.declared.slots.SlotRank.{SlotRank};

use crate::slots::Slots;
use ir_tree::{Argument, Duplicate, Instr, Line, Operand, Rows};
use std::alloc::{AllocError, Global};
use std::collections::HashMap;

/// The number so many behind the first; refused where it passes 32 bits.
pub(crate) fn number_behind(first: usize, rank: usize) -> Result<u32, AllocError>
    ensures { IfOk result (λ n. n ≡ first + rank) }
{
    let Some(number) = first.checked_add(rank) else {
        return Err(AllocError);
    };
    match u32::try_from(number) {
        Ok(number) => Ok(number),
        Err(_) => Err(AllocError),
    }
}

/// The value of each slot at a point of a block: what the block wrote last, and else what it has at the block's start.
#[derive(Drop)]
pub(crate) struct Values {
    first: Option<usize>,
    written: HashMap<u32, Operand>,
}

impl Values {
    /// The values at a block's start: of its phis, the first of which has this number, or poison where it has none.
    pub(crate) fn new(alloc: Global, first: Option<usize>) -> Self
        ensures { (at : ℕ → Option SlotRank) (x : ℕ) → current at result x ≡ value_at_start first (at x) }
    {
        Values {
            first,
            written: HashMap::new(alloc),
        }
    }

    fn at_start(&self, slots: &Slots, local: u32) -> Result<Operand, AllocError>
        ensures { IfOk result (λ o. o ≡ value_at_start self.now.first (place_in slots.now local)) }
    {
        match self.first {
            None => Ok(Operand::Poison(slots.reg(local))),
            Some(first) => {
                let number = number_behind(first, slots.rank(local))?;
                Ok(Operand::Local(number))
            }
        }
    }

    /// The value of a slot.
    ///
    /// Beside want of memory, a phi whose number passes 32 bits is refused.
    pub(crate) fn at(&self, alloc: Global, slots: &Slots, local: u32) -> Result<Operand, AllocError>
        ensures { IfOk result (λ o. o ≡ current (place_in slots.now) self.now local) }
    {
        match self.written.get(&local) {
            Some(value) => value.duplicate(alloc),
            None => self.at_start(slots, local),
        }
    }

    /// Gives a slot a value.
    fn set(&mut self, local: u32, value: Operand) -> Result<(), AllocError>
        ensures { OnOk result ((at : ℕ → Option SlotRank) (x : ℕ) → current at self.new x ≡ changed local value (current at self.old) x) }
    {
        self.written.insert(local, value)?;
        Ok(())
    }

    /// Goes on behind an `alloca` whose address this local gets.
    fn pass_alloca(&mut self, slots: &Slots, local: Option<u32>) -> Result<(), AllocError>
        ensures { OnOk result ((x : ℕ) → current (place_in slots.now) self.new x ≡ behind (regs (place_in slots.now)) (makes (place_in slots.now) local) (current (place_in slots.now) self.old) x) }
    {
        match local {
            Some(local) => {
                if slots.has(local) {
                    self.set(local, Operand::Poison(slots.reg(local)))
                } else {
                    Ok(())
                }
            }
            None => Ok(()),
        }
    }

    /// Goes on behind a store.
    fn pass_store(
        &mut self,
        alloc: Global,
        slots: &Slots,
        value: &Operand,
        address: &Operand,
    ) -> Result<(), AllocError>
        ensures { OnOk result ((x : ℕ) → current (place_in slots.now) self.new x ≡ behind (regs (place_in slots.now)) (writes (place_in slots.now) value.now address.now) (current (place_in slots.now) self.old) x) }
    {
        match address {
            Operand::Local(local) => {
                if slots.has(*local) {
                    self.set(*local, value.duplicate(alloc)?)
                } else {
                    Ok(())
                }
            }
            _ => Ok(()),
        }
    }

    /// Goes on behind a line.
    fn pass(&mut self, alloc: Global, slots: &Slots, line: &Line) -> Result<(), AllocError>
        ensures { OnOk result ((x : ℕ) → current (place_in slots.now) self.new x ≡ behind_line (place_in slots.now) line.now (current (place_in slots.now) self.old) x) }
    {
        match &line.instr {
            Instr::Alloca { .. } => self.pass_alloca(slots, line.local),
            Instr::Store { value, address, .. } => self.pass_store(alloc, slots, value, address),
            _ => Ok(()),
        }
    }

    /// Goes on behind these lines.
    pub(crate) fn pass_all(
        &mut self,
        alloc: Global,
        slots: &Slots,
        lines: &[Line],
    ) -> Result<(), AllocError>
        ensures { OnOk result ((x : ℕ) → current (place_in slots.now) self.new x ≡ behind_lines (place_in slots.now) (current (place_in slots.now) self.old) lines.now x) }
    {
        for line in lines {
            self.pass(alloc, slots, line)?;
        }
        Ok(())
    }

    /// `select i1 true, v, v` of a slot's value.
    fn selected(&self, alloc: Global, slots: &Slots, local: u32) -> Result<Instr, AllocError>
        ensures { IfOk result (λ i. i ≡ chosen_value (reg_of (place_in slots.now local)) (current (place_in slots.now) self.now local)) }
    {
        let reg = slots.reg(local);
        let if_true = self.at(alloc, slots, local)?;
        let if_false = self.at(alloc, slots, local)?;
        Ok(Instr::Select {
            condition: Operand::Number { width: 1, bits: 1 },
            if_true: Argument {
                reg,
                operand: if_true,
            },
            if_false: Argument {
                reg,
                operand: if_false,
            },
        })
    }

    /// What a load from an address becomes.
    fn load(
        &self,
        alloc: Global,
        slots: &Slots,
        load: &Instr,
        address: &Operand,
    ) -> Result<Instr, AllocError>
        ensures { IfOk result (λ i. i ≡ load_with (place_in slots.now) (current (place_in slots.now) self.now) load.now address.now) }
    {
        match address {
            Operand::Local(local) => {
                if slots.has(*local) {
                    self.selected(alloc, slots, *local)
                } else {
                    load.duplicate(alloc)
                }
            }
            _ => load.duplicate(alloc),
        }
    }

    /// What an instruction becomes where the slots have these values: a load of a slot becomes a `select`.
    fn instr(&self, alloc: Global, slots: &Slots, instr: &Instr) -> Result<Instr, AllocError>
        ensures { IfOk result (λ i. i ≡ instr_with (place_in slots.now) (current (place_in slots.now) self.now) instr.now) }
    {
        match instr {
            Instr::Load { address, .. } => self.load(alloc, slots, instr, address),
            _ => instr.duplicate(alloc),
        }
    }
}

/// Whether an `alloca` whose address this local gets makes a slot.
fn makes_slot(slots: &Slots, local: Option<u32>) -> bool
    ensures { result ≡ local_goes (place_in slots.now) local }
{
    match local {
        Some(local) => slots.has(local),
        None => false,
    }
}

/// Whether the operand is the address of a slot.
fn is_slot(slots: &Slots, operand: &Operand) -> bool
    ensures { result ≡ is_slot (place_in slots.now) operand.now }
{
    match operand {
        Operand::Local(local) => slots.has(*local),
        _ => false,
    }
}

/// Whether a line goes: the `alloca` of a slot, or a store to one.
fn goes(slots: &Slots, line: &Line) -> bool
    ensures { result ≡ goes (place_in slots.now) line.now.local line.now.instr }
{
    match &line.instr {
        Instr::Alloca { .. } => makes_slot(slots, line.local),
        Instr::Store { address, .. } => is_slot(slots, address),
        _ => false,
    }
}

impl Values {
    /// Adds what a line becomes where the slots have these values.
    fn push_line(
        &self,
        alloc: Global,
        slots: &Slots,
        rows: &mut Rows<Line>,
        line: &Line,
    ) -> Result<(), AllocError>
        ensures { OnOk result ((rest : List Line) → rows.new ++ rest ≡ rows.old ++ (if goes (place_in slots.now) line.now.local line.now.instr then rest else record { local = line.now.local; instr = instr_with (place_in slots.now) (current (place_in slots.now) self.now) line.now.instr } ∷ rest)) }
    {
        if goes(slots, line) {
            return Ok(());
        }
        let instr = self.instr(alloc, slots, &line.instr)?;
        rows.push(Line {
            local: line.local,
            instr,
        })?;
        Ok(())
    }
}

/// The lines of a block without the slots, whose values at its start are these.
pub(crate) fn without_slots(
    alloc: Global,
    slots: &Slots,
    start: Values,
    lines: &[Line],
) -> Result<Rows<Line>, AllocError>
    ensures { IfOk result (λ rows. rows ≡ without_slots (place_in slots.now) (current (place_in slots.now) start) lines.now) }
{
    let mut values = start;
    let mut rows = Rows::new(alloc);
    for line in lines {
        values.push_line(alloc, slots, &mut rows, line)?;
        values.pass(alloc, slots, line)?;
    }
    Ok(rows)
}
