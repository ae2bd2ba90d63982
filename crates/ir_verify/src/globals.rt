//! The globals of a module, one after another.
ghost use Rattle.std.specs.Prelude.{◌≡◌, ℕ, ◌<◌, ◌↔◌, length, IfOk, IfSome, IsTrue, All, MatchOption};
ghost use Rattle.std.specs.List.{AllZip};
ghost use Rattle.ir_tree.specs.Wholes.{GlobalFormed, GlobalSound, HasLines};
ghost use Rattle.ir_tree.specs.Fits.{FitsShape};
ghost use Rattle.ir_flow.specs.OfFunction.{AreFlows, IsFlowOf, IsValueFlow};
ghost use Rattle.ir_tree.specs.Formed.{Formed};
ghost use Rattle.ir_tree.specs.Items.{items};
ghost use Rattle.ir_tree.specs.declared.module.GlobalValue.TheVariants as global;
ghost use Rattle.ir_verify.specs.Modules.{GlobalPast, IsFirst, IsLeastFault};
ghost use Rattle.ir_verify.specs.Orders.{IsPast};

use crate::blocks::function_fault;
use crate::fault::{VerifyFault, noted};
use crate::initial::init_fits;
use crate::known::learned;
use ir_flow::Flow;
use ir_tree::{Function, GlobalValue, Parsed, Rows, Rule, Variable};
use std::alloc::{AllocError, Global};

/// Whether the initialiser of a variable, where it has one, fits its shape.
fn variable_fits(alloc: Global, variable: &Variable) -> Result<bool, AllocError>
    ensures { IfOk result (λ fits. IsTrue fits ↔ FitsShape variable.now) }
{
    match &variable.init {
        None => Ok(true),
        Some(init) => init_fits(alloc, &variable.shape, init),
    }
}

/// The first fault of a variable and of what was found before.
#[tactic(auto, using(crate::proofs::Modules::past_fitting, crate::proofs::Modules::past_other))]
fn variable_fault(
    alloc: Global,
    variable: &Variable,
    lines: &[u32],
    found: Option<VerifyFault>,
) -> Result<Option<VerifyFault>, AllocError>
    requires { length lines.now ≡ 1 }
    ensures { IfOk result (λ new. (k : ℕ) → GlobalPast (global.Variable variable.now) lines.now k found new) }
{
    if variable_fits(alloc, variable)? {
        return Ok(found);
    }
    Ok(noted(found, None, lines[0], Some(Rule::TypeMismatch)))
}

/// The first fault of a function and of what was found before, and the function's control flow.
///
/// Beside want of memory, a function of `2^32` blocks or more is refused as too large for it. Time is near linear in the function
/// where control flow is reducible, memory linear.
fn function_fault_and_flow(
    alloc: Global,
    function: &Function,
    lines: &[u32],
    number: u32,
    found: Option<VerifyFault>,
) -> Result<(Option<VerifyFault>, Flow), AllocError>
    requires formed { Formed function.now }
    requires lined { length lines.now ≡ length (items function.now) }
    ensures fault { IfOk result (λ r. IsPast function.now lines.now number found r.0) }
    ensures flow { IfOk result (λ r. IsFlowOf function.now r.1) }
{
    let known = learned(alloc, function)?;
    let fault = function_fault(alloc, function, &known, lines, number, found)?;
    Ok((fault, known.into_flow()))
}

/// The first fault of a global and of what was found before, and the global's control flow if it is a function.
fn global_fault(
    alloc: Global,
    global: &GlobalValue,
    lines: &[u32],
    number: u32,
    found: Option<VerifyFault>,
) -> Result<(Option<VerifyFault>, Option<Flow>), AllocError>
    requires formed { GlobalFormed global.now }
    requires lined { HasLines global.now lines.now }
    ensures fault { IfOk result (λ r. GlobalPast global.now lines.now number found r.0) }
    ensures flow { IfOk result (λ r. IfSome r.1 (IsValueFlow global.now)) }
{
    match global {
        GlobalValue::Variable(variable) => {
            let fault = variable_fault(alloc, variable, lines, found)?;
            Ok((fault, None))
        }
        GlobalValue::Function(function) => {
            let (fault, flow) = function_fault_and_flow(alloc, function, lines, number, found)?;
            Ok((fault, Some(flow)))
        }
    }
}

/// The first fault of these globals, and of each the control flow if it is a function.
fn globals_fault(
    alloc: Global,
    globals: &[GlobalValue],
    lines: &[Rows<u32>],
) -> Result<(Option<VerifyFault>, Rows<Option<Flow>>), AllocError>
    requires formed { All GlobalFormed globals.now }
    requires lined { AllZip HasLines globals.now lines.now }
    ensures fault { IfOk result (λ r. IsFirst globals.now lines.now (length globals.now) r.0) }
    ensures flows { IfOk result (λ r. AreFlows globals.now r.1) }
{
    if globals.len() > u32::MAX as usize {
        return Err(AllocError);
    }
    let mut best = None;
    let mut flows = Rows::new(alloc);
    for number in 0..globals.len() {
        let on = lines[number].as_slice();
        let (fault, flow) = global_fault(alloc, &globals[number], on, number as u32, best)?;
        flows.push(flow)?;
        best = fault;
    }
    Ok((best, flows))
}

/// The fault of a module: on the least line, and there of the least rule; none exactly where every function is sound and every
/// initialiser fits its shape. With it goes the control flow of each function.
///
/// Beside want of memory, a module of `2^32` globals or more, or with a function of `2^32` blocks or more, is refused as too large for
/// it. Time is near linear in the module where control flow is reducible, memory linear in its largest function and its edges.
pub(crate) fn module_fault_and_flow(
    alloc: Global,
    parsed: &Parsed,
) -> Result<(Option<VerifyFault>, Rows<Option<Flow>>), AllocError>
    ensures fault { IfOk result (λ r. MatchOption r.0 (All GlobalSound parsed.now.0.globals) (IsLeastFault parsed.now.0.globals parsed.now.1)) }
    ensures flows { IfOk result (λ r. AreFlows parsed.now.0.globals r.1) }
{
    globals_fault(alloc, parsed.module().globals.as_slice(), parsed.lines())
}
