//! Operands with their names resolved (LangRef, "Identifiers" and "Constants").
ghost use Rattle.std.specs.Prelude.{◌≡◌};
ghost use Rattle.ir_parse_names.specs.Bodies.{operand_in, argument_in, incoming_in};
ghost use Rattle.ir_parse_names.specs.Resolving.{ResolvesTo, each};

use ir_parse_names::{Locals, ResolveError, Sort, Types, address_offset, symbol_of};
use ir_parse_parts::{Argument as Written, Incoming as WrittenIncoming, Operand as WrittenOperand};
use ir_tree::{Argument, Incoming, Operand, Rows};
use std::alloc::Global;

/// What an operand stands for.
pub fn operand_in<'t>(
    alloc: Global,
    types: &Types<'t>,
    locals: &Locals<'t>,
    operand: &'t WrittenOperand,
) -> Result<Operand, ResolveError>
    ensures { ResolvesTo (λ o. o) result (operand_in types.now locals.now operand.now) }
{
    match operand {
        WrittenOperand::Local(name) => {
            let local = locals.number_of(alloc, name, Sort::Value)?;
            Ok(Operand::Local(local))
        }
        WrittenOperand::Global(name) => {
            let symbol = symbol_of(alloc, name)?;
            Ok(Operand::Symbol { symbol, offset: 0 })
        }
        WrittenOperand::Number { width, bits } => Ok(Operand::Number {
            width: *width,
            bits: *bits,
        }),
        WrittenOperand::Null => Ok(Operand::Null),
        WrittenOperand::Poison(reg) => Ok(Operand::Poison(*reg)),
        WrittenOperand::Address(address) => {
            let steps = address.steps();
            let offset = address_offset(alloc, types, steps.levels.as_slice())?;
            let symbol = symbol_of(alloc, &steps.name)?;
            Ok(Operand::Symbol { symbol, offset })
        }
    }
}

/// What an operand with its type stands for.
pub fn argument_in<'t>(
    alloc: Global,
    types: &Types<'t>,
    locals: &Locals<'t>,
    argument: &'t Written,
) -> Result<Argument, ResolveError>
    ensures { ResolvesTo (λ a. a) result (argument_in types.now locals.now argument.now) }
{
    let operand = operand_in(alloc, types, locals, &argument.operand)?;
    Ok(Argument {
        reg: argument.reg,
        operand,
    })
}

/// What each of these stands for.
pub fn arguments_in<'t>(
    alloc: Global,
    types: &Types<'t>,
    locals: &Locals<'t>,
    arguments: &'t [Written],
) -> Result<Rows<Argument>, ResolveError>
    ensures { ResolvesTo (λ v. v) result (each (argument_in types.now locals.now) arguments.now) }
{
    let mut out = Rows::new(alloc);
    'each: for argument in arguments {
        let made = argument_in(alloc, types, locals, argument)?;
        out.push(made)?;
    }
    Ok(out)
}

/// What an entry of a phi stands for.
fn incoming_in<'t>(
    alloc: Global,
    types: &Types<'t>,
    locals: &Locals<'t>,
    incoming: &'t WrittenIncoming,
) -> Result<Incoming, ResolveError>
    ensures { ResolvesTo (λ i. i) result (incoming_in types.now locals.now incoming.now) }
{
    let value = operand_in(alloc, types, locals, &incoming.value)?;
    let from = locals.number_of(alloc, &incoming.from, Sort::Block)?;
    Ok(Incoming { from, value })
}

/// What each entry of a phi stands for.
pub fn entries_in<'t>(
    alloc: Global,
    types: &Types<'t>,
    locals: &Locals<'t>,
    entries: &'t [WrittenIncoming],
) -> Result<Rows<Incoming>, ResolveError>
    ensures { ResolvesTo (λ v. v) result (each (incoming_in types.now locals.now) entries.now) }
{
    let mut out = Rows::new(alloc);
    'each: for entry in entries {
        let made = incoming_in(alloc, types, locals, entry)?;
        out.push(made)?;
    }
    Ok(out)
}
