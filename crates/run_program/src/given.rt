//! The arguments of a run: decimals as literals of the types of parameters.
ghost use Rattle.std.specs.Prelude.{◌≡◌, All, IfOk, length, nat_eq, slice_get};
ghost use Rattle.run_program.specs.Arguments.{IsTyped, argument_at};
ghost use Rattle.run_program.specs.Starting.{argument, arguments};

use crate::literals::literal;
use ir_tree::{Param, Reg, Rows};
use lto_words::Decimal;
use std::alloc::{AllocError, Global};

/// What a parameter of a type takes; no decimal is a literal of a pointer.
fn argument(reg: Reg, decimal: Decimal) -> Option<u64>
    requires { IsTyped reg }
    ensures { result ≡ argument reg decimal }
{
    match reg {
        Reg::Int(width) => literal(width, decimal),
        Reg::Ptr => None,
    }
}

/// What the parameter of this place takes, if there are one and an argument.
fn argument_at(params: &[Param], given: &[Decimal], place: usize) -> Option<u64>
    requires { All (λ p. IsTyped p.reg) params.now }
    ensures { result ≡ argument_at (slice_get params.now place) (slice_get given.now place) }
{
    match params.get(place) {
        Some(param) => match given.get(place) {
            Some(decimal) => argument(param.reg, *decimal),
            None => None,
        },
        None => None,
    }
}

fn are_as_many(params: &[Param], given: &[Decimal]) -> bool
    ensures { result ≡ nat_eq (length params.now) (length given.now) }
{
    params.len() == given.len()
}

/// The arguments as numbers; none where the parameters don't take them, one each.
pub fn arguments(
    alloc: Global,
    params: &[Param],
    given: &[Decimal],
) -> Result<Option<Rows<u64>>, AllocError>
    requires { All (λ p. IsTyped p.reg) params.now }
    ensures { IfOk result (λ taken. taken ≡ arguments params.now given.now) }
{
    if !are_as_many(params, given) {
        return Ok(None);
    }
    let mut numbers = Rows::new(alloc);
    for place in 0..params.len() {
        let Some(number) = argument_at(params, given, place) else {
            return Ok(None);
        };
        numbers.push(number)?;
    }
    Ok(Some(numbers))
}
