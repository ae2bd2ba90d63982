//! Declarations of functions (LangRef, "Functions").
ghost use Rattle.std.specs.Prelude.{◌≡◌, [], Ok, false};
ghost use Rattle.ir_parse_values.specs.Blocks.{params_from};
ghost use Rattle.ir_parse_values.specs.Blocks as blocks;
ghost use Rattle.ir_parse_names.specs.Resolving.{ResolvesTo};

use crate::block::after;
use crate::numbering::params_of;
use ir_parse_names::{ResolveError, Types, symbol_of};
use ir_parse_parts::{FunctionHeader, Param as WrittenParam};
use ir_tree::{Function, Param, Rows};
use std::alloc::Global;

/// The parameters of a function, numbered from 0 on.
pub fn params_in(alloc: Global, written: &[WrittenParam]) -> Result<Rows<Param>, ResolveError>
    ensures { ResolvesTo (λ ps. ps) result (Ok (params_from 0 written.now)) }
{
    let mut out = Rows::new(alloc);
    let mut next = 0;
    'each: for param in written {
        out.push(Param {
            local: next,
            reg: param.reg,
        })?;
        next = after(next)?;
    }
    Ok(out)
}

/// What a declaration stands for. It has no linkage but `External`, and keeps no attributes.
#[tactic(auto, unfolding(crate::specs::Blocks::function_in))]
pub fn declaration_in(
    alloc: Global,
    types: &Types,
    head: &FunctionHeader,
) -> Result<Function, ResolveError>
    ensures { ResolvesTo (λ f. f) result (blocks.function_in types.now head.now [] false false) }
{
    params_of(alloc, head.params.as_slice())?;
    let symbol = symbol_of(alloc, &head.name)?;
    let params = params_in(alloc, head.params.as_slice())?;
    Ok(Function {
        symbol,
        linkage: head.linkage,
        result: head.result,
        params,
        noinline: false,
        optnone: false,
        blocks: Rows::new(alloc),
    })
}
