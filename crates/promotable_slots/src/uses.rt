//! The uses of locals in a function, in the order of its text.
ghost use Rattle.std.specs.Prelude.{◌≡◌, ◌++◌, IfOk, OnOk, Some, None};
ghost use Rattle.promotable_slots.specs.Uses.{operand_uses, argument_uses, entry_uses, instr_uses, uses};

use ir_edit::{FindUses, push_uses};
use ir_tree::{Argument, Block, Incoming, Instr, Line, Operand, Phi, Reg};
use std::alloc::{AllocError, Global};

/// A use of a local: as the address of a load or a store of the type `access`, or in any other way where that is
/// `None`.
#[derive(Clone, Copy)]
pub struct Use {
    pub local: u32,
    pub access: Option<Reg>,
}

fn push_operand(
    uses: &mut Vec<Use>,
    access: Option<Reg>,
    operand: &Operand,
) -> Result<(), AllocError>
    ensures { OnOk result (uses.new.items ≡ uses.old.items ++ operand_uses access operand.now) }
{
    match operand {
        Operand::Local(local) => {
            let local = *local;
            uses.push(Use { local, access })?;
            Ok(())
        }
        _ => Ok(()),
    }
}

fn push_arguments(uses: &mut Vec<Use>, arguments: &[Argument]) -> Result<(), AllocError>
    ensures { OnOk result (uses.new.items ≡ uses.old.items ++ argument_uses arguments.now) }
{
    for argument in arguments {
        push_operand(uses, None, &argument.operand)?;
    }
    Ok(())
}

fn push_entries(uses: &mut Vec<Use>, entries: &[Incoming]) -> Result<(), AllocError>
    ensures { OnOk result (uses.new.items ≡ uses.old.items ++ entry_uses entries.now) }
{
    for entry in entries {
        push_operand(uses, None, &entry.value)?;
    }
    Ok(())
}

/// The uses of two operands.
fn push_both(uses: &mut Vec<Use>, left: &Operand, right: &Operand) -> Result<(), AllocError>
    ensures { OnOk result (uses.new.items ≡ uses.old.items ++ (operand_uses None left.now ++ operand_uses None right.now)) }
{
    push_operand(uses, None, left)?;
    push_operand(uses, None, right)
}

/// The uses of a store.
fn push_store(
    uses: &mut Vec<Use>,
    reg: Reg,
    value: &Operand,
    address: &Operand,
) -> Result<(), AllocError>
    ensures { OnOk result (uses.new.items ≡ uses.old.items ++ (operand_uses None value.now ++ operand_uses (Some reg) address.now)) }
{
    push_operand(uses, None, value)?;
    push_operand(uses, Some(reg), address)
}

/// The uses of an operand and of arguments behind it.
fn push_with(
    uses: &mut Vec<Use>,
    operand: &Operand,
    arguments: &[Argument],
) -> Result<(), AllocError>
    ensures { OnOk result (uses.new.items ≡ uses.old.items ++ (operand_uses None operand.now ++ argument_uses arguments.now)) }
{
    push_operand(uses, None, operand)?;
    push_arguments(uses, arguments)
}

/// The uses of a `select`.
fn push_select(
    uses: &mut Vec<Use>,
    condition: &Operand,
    if_true: &Argument,
    if_false: &Argument,
) -> Result<(), AllocError>
    ensures { OnOk result (uses.new.items ≡ uses.old.items ++ (operand_uses None condition.now ++ (operand_uses None if_true.now.operand ++ operand_uses None if_false.now.operand))) }
{
    push_operand(uses, None, condition)?;
    push_both(uses, &if_true.operand, &if_false.operand)
}

fn push_instr(uses: &mut Vec<Use>, instr: &Instr) -> Result<(), AllocError>
    ensures { OnOk result (uses.new.items ≡ uses.old.items ++ instr_uses instr.now) }
{
    match instr {
        Instr::Load { reg, address, .. } => push_operand(uses, Some(*reg), address),
        Instr::Store {
            reg,
            value,
            address,
            ..
        } => push_store(uses, *reg, value, address),
        Instr::Binary { left, right, .. } => push_both(uses, left, right),
        Instr::Icmp { left, right, .. } => push_both(uses, left, right),
        Instr::Cast { value, .. } => push_operand(uses, None, value),
        Instr::Select {
            condition,
            if_true,
            if_false,
        } => push_select(uses, condition, if_true, if_false),
        Instr::Freeze { value, .. } => push_operand(uses, None, value),
        Instr::Alloca { .. } => Ok(()),
        Instr::Address { base, indices, .. } => push_with(uses, base, indices.as_slice()),
        Instr::Call {
            callee,
            arguments,
            ..
        } => push_with(uses, callee, arguments.as_slice()),
        Instr::Phi { incoming, .. } => push_entries(uses, incoming.as_slice()),
    }
}

impl FindUses for Use {
    ghost use Rattle.promotable_slots.specs.Uses.{entry_uses, instr_uses, operand_uses};

    ghost of_phi = { λ p. entry_uses p.incoming };

    ghost of_line = { λ l. instr_uses l.instr };

    ghost of_read = { operand_uses None };

    fn push_phi(uses: &mut Vec<Use>, phi: &Phi) -> Result<(), AllocError> {
        push_entries(uses, phi.incoming.as_slice())
    }

    fn push_line(uses: &mut Vec<Use>, line: &Line) -> Result<(), AllocError> {
        push_instr(uses, &line.instr)
    }

    fn push_read(uses: &mut Vec<Use>, operand: &Operand) -> Result<(), AllocError> {
        push_operand(uses, None, operand)
    }
}

/// The uses in these blocks.
pub(crate) fn uses_in(alloc: Global, blocks: &[Block]) -> Result<Vec<Use>, AllocError>
    ensures { IfOk result (λ us. us.items ≡ uses blocks.now) }
{
    let mut uses = Vec::new(alloc);
    push_uses(&mut uses, blocks)?;
    Ok(uses)
}
