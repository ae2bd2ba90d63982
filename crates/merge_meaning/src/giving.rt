//! What one module gives.
ghost use Rattle.std.specs.Prelude.{◌≡◌, ◌++◌, IfSome, List, OnOk, Some, slice_get};
ghost use Rattle.ir_tree.specs.Wholes.{IsVerified};
ghost use Rattle.ir_tree.specs.declared.module.GlobalValue.{GlobalValue};
ghost use Rattle.ir_flow.specs.OfFunction.{AreFlows, IsValueFlow};
ghost use Rattle.merge_meaning.specs.Given.{given_each, given_in, given_one};

use crate::lives::Link;
use crate::scope::{Scope, name_of};
use crate::taken::taken;
use ir_flow::{AnalysedValue, Flow};
use ir_tree::{GlobalValue, Rows, Verified};
use std::alloc::{AllocError, Global};
use symbol_resolve::Resolution;

/// What is known of the control flow at this place, which is moved out.
fn take_flow(flows: &mut Vec<Option<Flow>>, place: usize) -> Option<Flow>
    ensures flow { (gs : List GlobalValue) (g : GlobalValue) → AreFlows gs flows.old.items → slice_get gs place ≡ Some g → IfSome result (IsValueFlow g) }
    ensures others { (gs : List GlobalValue) → AreFlows gs flows.old.items → AreFlows gs flows.new.items }
{
    if place >= flows.len() {
        return None;
    }
    flows[place].take()
}

/// Adds a global value of the module, where it is the definition of its symbol and the link, if there is one, keeps the symbol.
/// Under other names it has the control flow that it had.
fn give_one(
    alloc: Global,
    rows: &mut Rows<AnalysedValue>,
    scope: &Scope,
    global: &GlobalValue,
    flow: Option<Flow>,
    resolution: &Resolution,
) -> Result<(), AllocError>
    requires { IfSome flow (IsValueFlow global.now) }
    ensures { OnOk result (rows.new ≡ rows.old ++ given_one resolution.now scope.now global.now) }
{
    let chosen = resolution.module_of(name_of(global));
    if scope.gives(global, chosen) {
        let value = taken(alloc, scope, global)?;
        rows.push(AnalysedValue::of(value, flow))?;
    }
    Ok(())
}

fn give_each(
    alloc: Global,
    rows: &mut Rows<AnalysedValue>,
    scope: &Scope,
    verified: &Verified,
    mut flows: Vec<Option<Flow>>,
    resolution: &Resolution,
) -> Result<(), AllocError>
    requires { AreFlows verified.now.globals flows.items }
    ensures { OnOk result (rows.new ≡ rows.old ++ given_each resolution.now scope.now verified.now.globals) }
{
    let globals = verified.module().globals.as_slice();
    for place in 0..globals.len() {
        let flow = take_flow(&mut flows, place);
        give_one(alloc, rows, scope, &globals[place], flow, resolution)?;
    }
    Ok(())
}

/// Adds what the module of this number gives: its definitions that prevail, and of these, where there is a link, the live ones
/// under their final names. With each goes its control flow, as far as it is known.
pub(crate) fn give(
    alloc: Global,
    rows: &mut Rows<AnalysedValue>,
    link: Option<Link>,
    number: u32,
    verified: &Verified,
    flows: Rows<Option<Flow>>,
    resolution: &Resolution,
) -> Result<(), AllocError>
    requires { AreFlows verified.now.globals flows }
    ensures given { OnOk result (rows.new ≡ rows.old ++ given_in resolution.now link.entry number verified.now.globals) }
    ensures verified { OnOk result (IsVerified verified.now) }
{
    let globals = verified.module().globals.as_slice();
    let scope = Scope::of(alloc, number, globals, link)?;
    give_each(alloc, rows, &scope, verified, flows.into_vec(), resolution)
}
