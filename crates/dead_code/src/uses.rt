//! The uses of locals in a function, in the order of its text.
ghost use Rattle.std.specs.Prelude.{◌≡◌, ◌++◌, IfOk, OnOk, Some, None};
ghost use Rattle.ir_meaning.specs.Needed.{is_effect};
ghost use Rattle.dead_code.specs.Uses.{operand_uses, arguments_uses, edges_uses, instr_uses, blocks_uses};

use ir_edit::{FindUses, push_uses};
use ir_tree::{Argument, Function, Incoming, Instr, Line, Operand, Phi};
use std::alloc::{AllocError, Global};

/// That the local `read` is read by what gives the local `reader` its value, or by a store, a call or
/// a terminator where that is `None`.
#[derive(Clone, Copy, Debug, PartialEq, Eq)]
pub(crate) struct Use {
    pub reader: Option<u32>,
    pub read: u32,
}

fn push_operand(
    uses: &mut Vec<Use>,
    reader: Option<u32>,
    operand: &Operand,
) -> Result<(), AllocError>
    ensures { OnOk result (uses.new.items ≡ uses.old.items ++ operand_uses reader operand.now) }
{
    match operand {
        Operand::Local(read) => {
            let read = *read;
            uses.push(Use { reader, read })?;
            Ok(())
        }
        _ => Ok(()),
    }
}

fn push_arguments(
    uses: &mut Vec<Use>,
    reader: Option<u32>,
    arguments: &[Argument],
) -> Result<(), AllocError>
    ensures { OnOk result (uses.new.items ≡ uses.old.items ++ arguments_uses reader arguments.now) }
{
    for argument in arguments {
        push_operand(uses, reader, &argument.operand)?;
    }
    Ok(())
}

fn push_edges(
    uses: &mut Vec<Use>,
    reader: Option<u32>,
    edges: &[Incoming],
) -> Result<(), AllocError>
    ensures { OnOk result (uses.new.items ≡ uses.old.items ++ edges_uses reader edges.now) }
{
    for edge in edges {
        push_operand(uses, reader, &edge.value)?;
    }
    Ok(())
}

fn push_instr(uses: &mut Vec<Use>, reader: Option<u32>, instr: &Instr) -> Result<(), AllocError>
    ensures { OnOk result (uses.new.items ≡ uses.old.items ++ instr_uses reader instr.now) }
{
    match instr {
        Instr::Binary { left, right, .. } => {
            push_operand(uses, reader, left)?;
            push_operand(uses, reader, right)
        }
        Instr::Icmp { left, right, .. } => {
            push_operand(uses, reader, left)?;
            push_operand(uses, reader, right)
        }
        Instr::Cast { value, .. } => push_operand(uses, reader, value),
        Instr::Select {
            condition,
            if_true,
            if_false,
        } => {
            push_operand(uses, reader, condition)?;
            push_operand(uses, reader, &if_true.operand)?;
            push_operand(uses, reader, &if_false.operand)
        }
        Instr::Freeze { value, .. } => push_operand(uses, reader, value),
        Instr::Alloca { .. } => Ok(()),
        Instr::Load { address, .. } => push_operand(uses, reader, address),
        Instr::Store { value, address, .. } => {
            push_operand(uses, reader, value)?;
            push_operand(uses, reader, address)
        }
        Instr::Address { base, indices, .. } => {
            push_operand(uses, reader, base)?;
            push_arguments(uses, reader, indices.as_slice())
        }
        Instr::Call {
            callee,
            arguments,
            ..
        } => {
            push_operand(uses, reader, callee)?;
            push_arguments(uses, reader, arguments.as_slice())
        }
        Instr::Phi { .. } => Ok(()),
    }
}

/// Whether an instruction has an effect beside its value: a store or a call.
pub(crate) fn is_effect(instr: &Instr) -> bool
    ensures { result ≡ is_effect instr.now }
{
    matches!(instr, Instr::Store { .. } | Instr::Call { .. })
}

impl FindUses for Use {
    ghost use Rattle.dead_code.specs.Uses.{line_uses, operand_uses, phi_uses};

    ghost of_phi = { phi_uses };

    ghost of_line = { line_uses };

    ghost of_read = { operand_uses None };

    fn push_phi(uses: &mut Vec<Use>, phi: &Phi) -> Result<(), AllocError> {
        push_edges(uses, Some(phi.local), phi.incoming.as_slice())
    }

    fn push_line(uses: &mut Vec<Use>, line: &Line) -> Result<(), AllocError> {
        if is_effect(&line.instr) {
            return push_instr(uses, None, &line.instr);
        }
        match line.local {
            Some(local) => push_instr(uses, Some(local), &line.instr),
            None => Ok(()),
        }
    }

    fn push_read(uses: &mut Vec<Use>, operand: &Operand) -> Result<(), AllocError> {
        push_operand(uses, None, operand)
    }
}

/// The uses of a function.
pub(crate) fn uses_of(alloc: Global, f: &Function) -> Result<Vec<Use>, AllocError>
    ensures { IfOk result (λ uses. uses.items ≡ blocks_uses f.now.blocks) }
{
    let mut uses = Vec::new(alloc);
    push_uses(&mut uses, f.blocks.as_slice())?;
    Ok(uses)
}
