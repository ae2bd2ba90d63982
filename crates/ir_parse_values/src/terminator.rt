//! Terminators with their names resolved (LangRef, "Terminator Instructions").
ghost use Rattle.std.specs.Prelude.{◌≡◌, Some};
ghost use Rattle.ir_parse_parts.specs.declared.raw.Terminator.TheVariants as written;
ghost use Rattle.ir_parse_names.specs.Bodies.{end_in, case_in};
ghost use Rattle.ir_parse_names.specs.Resolving.{ResolvesTo, each};

use crate::operand::{argument_in, operand_in};
use ir_parse_names::{Locals, ResolveError, Sort, Types};
use ir_parse_parts::{Argument, Case as WrittenCase, Name, Operand, Terminator as Written};
use ir_tree::{Case, Rows, Terminator};
use std::alloc::Global;

fn case_in(alloc: Global, locals: &Locals, case: &WrittenCase) -> Result<Case, ResolveError>
    ensures { ResolvesTo (λ c. c) result (case_in locals.now case.now) }
{
    let target = locals.number_of(alloc, &case.target, Sort::Block)?;
    Ok(Case {
        reg: case.reg,
        width: case.width,
        bits: case.bits,
        target,
    })
}

fn cases_in(
    alloc: Global,
    locals: &Locals,
    cases: &[WrittenCase],
) -> Result<Rows<Case>, ResolveError>
    ensures { ResolvesTo (λ v. v) result (each (case_in locals.now) cases.now) }
{
    let mut out = Rows::new(alloc);
    'each: for case in cases {
        let made = case_in(alloc, locals, case)?;
        out.push(made)?;
    }
    Ok(out)
}

fn return_in<'t>(
    alloc: Global,
    types: &Types<'t>,
    locals: &Locals<'t>,
    value: &'t Argument,
) -> Result<Terminator, ResolveError>
    ensures { ResolvesTo (λ e. e) result (end_in types.now locals.now (written.Return (Some value.now))) }
{
    let value = argument_in(alloc, types, locals, value)?;
    Ok(Terminator::Return(Some(value)))
}

fn branch_in<'t>(
    alloc: Global,
    types: &Types<'t>,
    locals: &Locals<'t>,
    condition: &'t Operand,
    if_true: &Name,
    if_false: &Name,
) -> Result<Terminator, ResolveError>
    ensures { ResolvesTo (λ e. e) result (end_in types.now locals.now (written.Branch condition.now if_true.now if_false.now)) }
{
    let condition = operand_in(alloc, types, locals, condition)?;
    let if_true = locals.number_of(alloc, if_true, Sort::Block)?;
    let if_false = locals.number_of(alloc, if_false, Sort::Block)?;
    Ok(Terminator::Branch {
        condition,
        if_true,
        if_false,
    })
}

fn switch_in<'t>(
    alloc: Global,
    types: &Types<'t>,
    locals: &Locals<'t>,
    width: u8,
    value: &'t Operand,
    default: &Name,
    cases: &'t Rows<WrittenCase>,
) -> Result<Terminator, ResolveError>
    ensures { ResolvesTo (λ e. e) result (end_in types.now locals.now (written.Switch width value.now default.now cases.now)) }
{
    let value = operand_in(alloc, types, locals, value)?;
    let default = locals.number_of(alloc, default, Sort::Block)?;
    let cases = cases_in(alloc, locals, cases.as_slice())?;
    Ok(Terminator::Switch {
        width,
        value,
        default,
        cases,
    })
}

/// What a terminator stands for.
pub fn end_in<'t>(
    alloc: Global,
    types: &Types<'t>,
    locals: &Locals<'t>,
    end: &'t Written,
) -> Result<Terminator, ResolveError>
    ensures { ResolvesTo (λ e. e) result (end_in types.now locals.now end.now) }
{
    match end {
        Written::Return(None) => Ok(Terminator::Return(None)),
        Written::Return(Some(value)) => return_in(alloc, types, locals, value),
        Written::Jump(target) => {
            let target = locals.number_of(alloc, target, Sort::Block)?;
            Ok(Terminator::Jump(target))
        }
        Written::Branch {
            condition,
            if_true,
            if_false,
        } => branch_in(alloc, types, locals, condition, if_true, if_false),
        Written::Switch {
            width,
            value,
            default,
            cases,
        } => switch_in(alloc, types, locals, *width, value, default, cases),
        Written::Unreachable => Ok(Terminator::Unreachable),
    }
}
