//! The verifier of whole modules.
ghost use Rattle.std.specs.Prelude.{◌≡◌, All, IfOk, OnOk, IsErrOf};
ghost use Rattle.ir_tree.specs.Wholes.{GlobalSound, IsVerified};
ghost use Rattle.ir_flow.specs.OfFunction.{AreFlows};
ghost use Rattle.ir_verify.specs.Modules.{IsLeastFault};
ghost use Rattle.ir_tree.specs.declared.failure.Failure.TheVariants.{Fault};
ghost use Rattle.ir_verify.specs.declared.fault.VerifyFault.{VerifyFault};

use crate::fault::VerifyError;
use crate::globals::module_fault_and_flow;
use ir_flow::{AnalysedModule, Flow};
use ir_tree::{Parsed, Rows, Verified};
use std::alloc::Global;

/// Refuses a module that has a fault; else it gives the control flow of each function.
fn refuse_fault(alloc: Global, parsed: &Parsed) -> Result<Rows<Option<Flow>>, VerifyError>
    ensures sound { OnOk result (All GlobalSound parsed.now.0.globals) }
    ensures flows { IfOk result (λ flows. AreFlows parsed.now.0.globals flows) }
    ensures fault { (fault : VerifyFault) → IsErrOf result (Fault fault) → IsLeastFault parsed.now.0.globals parsed.now.1 fault }
{
    let (fault, flows) = module_fault_and_flow(alloc, parsed)?;
    match fault {
        Some(fault) => Err(VerifyError::Fault(fault)),
        None => Ok(flows),
    }
}

/// Verifies a module (LangRef, "Well-Formedness"): the module itself, where every function is sound and every initialiser fits its
/// shape, and else its fault, on the least line and there of the least rule.
///
/// Where memory runs out that is the answer; a module of `2^32` globals or more, or with a function of `2^32` blocks or more, is
/// refused as too large for it. Time is near linear in the module where control flow is reducible, memory linear in its largest
/// function and its edges. The module is moved and not copied, and what was found of its functions' control flow goes with it.
pub fn verify(alloc: Global, parsed: Parsed) -> Result<AnalysedModule, VerifyError>
    ensures same { IfOk result (λ verified. verified ≡ parsed.0) }
    ensures sound { IfOk result (λ verified. IsVerified parsed.0) }
    ensures fault { (fault : VerifyFault) → IsErrOf result (Fault fault) → IsLeastFault parsed.0.globals parsed.1 fault }
{
    let flows = refuse_fault(alloc, &parsed)?;
    let (module, _lines) = parsed.into_parts();
    Ok(AnalysedModule::of(Verified::of(module), flows))
}
