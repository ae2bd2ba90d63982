//! The first rule: types.
ghost use Rattle.std.specs.Prelude.{◌≡◌, ◌↔◌, IsTrue, All};
ghost use Rattle.ir_tree.specs.Items.{typed, reads, end_reads, taken_as};
ghost use Rattle.ir_tree.specs.Rules.{type_of, HasType, LineTypes, EndTypes};
ghost use Rattle.ir_verify.specs.Definitions.{definitions};
ghost use Rattle.ir_verify.specs.Kept.{LineTyped, EndTyped};
ghost use Rattle.ir_verify.specs.Tables.{Holds};

use crate::cases::cases_have;
use crate::definitions::Definition;
use crate::reads::{end_read, read_at, read_count};
use crate::table::Table;
use ir_tree::{Function, Incoming, Instr, Line, Operand, Reg, Terminator};

/// The type of an operand.
fn operand_type(function: &Function, locals: &Table<Definition>, operand: &Operand) -> Option<Reg>
    requires { Holds locals.now.entries.items (definitions function.now) }
    ensures { result ≡ type_of function.now operand.now }
{
    match operand {
        Operand::Local(local) => match locals.get(*local) {
            Some(definition) => definition.reg,
            None => None,
        },
        Operand::Number { width, .. } => Some(Reg::Int(*width)),
        Operand::Null | Operand::Symbol { .. } => Some(Reg::Ptr),
        Operand::Poison(reg) => Some(*reg),
    }
}

/// Whether an operand has a type.
fn has_type(function: &Function, locals: &Table<Definition>, reg: Reg, operand: &Operand) -> bool
    requires { Holds locals.now.entries.items (definitions function.now) }
    ensures { IsTrue result ↔ HasType function.now (typed reg operand.now) }
{
    operand_type(function, locals, operand) == Some(reg)
}

/// Whether what an instruction reads has the types that are written.
fn reads_typed(function: &Function, locals: &Table<Definition>, instr: &Instr) -> bool
    requires { Holds locals.now.entries.items (definitions function.now) }
    ensures { IsTrue result ↔ All (HasType function.now) (reads instr.now) }
{
    for number in 0..read_count(instr) {
        let Some((reg, operand)) = read_at(instr, number) else {
            return true;
        };
        if !has_type(function, locals, reg, operand) {
            return false;
        }
    }
    true
}

/// Whether the entries of a phi have its type.
pub fn entries_typed(
    function: &Function,
    locals: &Table<Definition>,
    reg: Reg,
    entries: &[Incoming],
) -> bool
    requires { Holds locals.now.entries.items (definitions function.now) }
    ensures { IsTrue result ↔ All (HasType function.now) (taken_as reg entries.now) }
{
    for entry in entries {
        if !has_type(function, locals, reg, &entry.value) {
            return false;
        }
    }
    true
}

/// Whether the arms of a `select` have one type, and a call without result has no name.
fn result_typed(local: Option<u32>, instr: &Instr) -> bool
    ensures { IsTrue result ↔ LineTypes local instr.now }
{
    match instr {
        Instr::Select {
            if_true,
            if_false,
            ..
        } => if_true.reg == if_false.reg,
        Instr::Call { result: None, .. } => local.is_none(),
        _ => true,
    }
}

/// Whether an instruction keeps the first rule.
pub fn line_typed(function: &Function, locals: &Table<Definition>, line: &Line) -> bool
    requires { Holds locals.now.entries.items (definitions function.now) }
    ensures { IsTrue result ↔ LineTyped function.now line.now }
{
    let entries = match &line.instr {
        Instr::Phi { reg, incoming } => {
            entries_typed(function, locals, *reg, incoming.as_slice())
        }
        _ => true,
    };
    entries && reads_typed(function, locals, &line.instr) && result_typed(line.local, &line.instr)
}

/// Whether a terminator keeps the first rule.
pub fn end_typed(function: &Function, locals: &Table<Definition>, end: &Terminator) -> bool
    requires { Holds locals.now.entries.items (definitions function.now) }
    ensures { IsTrue result ↔ EndTyped function.now end.now }
{
    if let Some((reg, operand)) = end_read(end) {
        if !has_type(function, locals, reg, operand) {
            return false;
        }
    }
    match end {
        Terminator::Return(None) => function.result.is_none(),
        Terminator::Return(Some(argument)) => function.result == Some(argument.reg),
        Terminator::Switch { width, cases, .. } => cases_have(*width, cases.as_slice()),
        _ => true,
    }
}
