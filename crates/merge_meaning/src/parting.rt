//! What each module gives to a link, by itself.
ghost use Rattle.std.specs.Prelude.{◌≡◌, Bool, IfOk, List, Some, slice_get};
ghost use Rattle.ir_tree.specs.declared.module.Module.{Module};
ghost use Rattle.ir_tree.specs.declared.operand.Symbol.{Symbol};
ghost use Rattle.ir_flow.specs.OfFunction.{AreFlows, AreModuleFlows};
ghost use Rattle.symbol_resolve.specs.Resolved.{symbols};
ghost use Rattle.merge_meaning.specs.Given.{given_in, parts_in};
ghost use Rattle.merge_meaning.specs.Lives.{is_live, parts};
ghost use Rattle.merge_meaning.specs.Scopes.{keeps};

use crate::giving::give;
use crate::lives::{Link, LiveSymbols};
use ir_flow::{AnalysedValue, Flow};
use ir_tree::{Rows, Text, Verified};
use std::alloc::{AllocError, Global};
use std::mem::replace;
use symbol_resolve::Resolution;

/// What is known of the control flow of the module at this place, which is moved out.
fn take_flows(alloc: Global, all: &mut Vec<Rows<Option<Flow>>>, place: usize) -> Rows<Option<Flow>>
    ensures flows { (ms : List Module) (m : Module) → AreModuleFlows ms all.old.items → slice_get ms place ≡ Some m → AreFlows m.globals result }
    ensures others { (ms : List Module) → AreModuleFlows ms all.old.items → AreModuleFlows ms all.new.items }
{
    if place >= all.len() {
        return Rows::new(alloc);
    }
    replace(&mut all[place], Rows::new(alloc))
}

/// What the module of this number gives to a link.
fn part(
    alloc: Global,
    link: Link,
    number: u32,
    verified: &Verified,
    flows: Rows<Option<Flow>>,
    resolution: &Resolution,
) -> Result<Rows<AnalysedValue>, AllocError>
    requires { AreFlows verified.now.globals flows }
    ensures { IfOk result (λ part. part ≡ given_in resolution.now (Some link.entry) number verified.now.globals) }
{
    let mut rows = Rows::new(alloc);
    give(
        alloc,
        &mut rows,
        Some(link),
        number,
        verified,
        flows,
        resolution,
    )?;
    Ok(rows)
}

fn all_parts(
    alloc: Global,
    link: Link,
    modules: &[Verified],
    mut flows: Vec<Rows<Option<Flow>>>,
    resolution: &Resolution,
) -> Result<Vec<Rows<AnalysedValue>>, AllocError>
    requires { AreModuleFlows modules.now flows.items }
    ensures { IfOk result (λ all. all.items ≡ parts_in resolution.now link.entry 0 modules.now) }
{
    let mut all = Vec::new(alloc);
    let mut number: u32 = 0;
    for verified in modules {
        let flows = take_flows(alloc, &mut flows, number as usize);
        all.push(part(alloc, link, number, verified, flows, resolution)?)?;
        let Some(next) = number.checked_add(1) else {
            return Err(AllocError);
        };
        number = next;
    }
    Ok(all)
}

/// The part of each module: those of its definitions that prevail and are live, under final names, each with its control flow, as
/// far as that is known of its module. The resolution is that of the modules; the suffixes are theirs too.
///
/// Beside want of memory, `2^32` modules or more are refused as too many. What is kept is copied once, and each name is looked up
/// once or twice.
pub fn parts(
    alloc: Global,
    modules: &[Verified],
    flows: Vec<Rows<Option<Flow>>>,
    resolution: &Resolution,
    live: &LiveSymbols,
    suffixes: &[Text],
) -> Result<Vec<Rows<AnalysedValue>>, AllocError>
    requires resolved { resolution.now ≡ symbols modules.now }
    requires flows { AreModuleFlows modules.now flows.items }
    ensures { IfOk result (λ all. (index : List Symbol) (marks : List Bool) → ((s : Symbol) → keeps live.now s ≡ is_live index marks s) → all.items ≡ parts modules.now index marks suffixes.now) }
{
    let link = Link { live, suffixes };
    all_parts(alloc, link, modules, flows, resolution)
}
