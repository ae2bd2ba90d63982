//! Verified modules, with what is known of their control flow.
ghost use Rattle.std.specs.Prelude.{◌≡◌};
ghost use Rattle.ir_flow.specs.OfFunction.{AreFlows};

use crate::flow::Flow;
use ir_tree::{Rows, Verified};
use std::marker::Model;

/// A verified module, and for each of its global values the control flow, where that is known. Contracts see the module.
#[derive(Drop)]
pub struct AnalysedModule {
    verified: Verified,
    flows: Rows<Option<Flow>>,
}

impl Model for AnalysedModule {
    ghost use Rattle.ir_tree.specs.declared.module.Module.{Module};
    ghost use Rattle.ir_tree.specs.contracts.shape.Shape as shape;
    ghost use Rattle.ir_tree.specs.contracts.init.Init as init;
    ghost use Rattle.std.specs.Coded.{codes};

    ghost Value = { Module };

    ghost coded = { Prim.hlevel (codes, shape.the_row.coded, init.the_row.coded) };

    ghost use Rattle.ir_flow.specs.OfFunction.{AreFlows};

    ghost view = { λ m. m.verified };

    ghost invariant = { λ m. AreFlows m.verified.globals m.flows };
}

impl AnalysedModule {
    /// The module with these, of which each belongs to the global value at its place; takes no memory.
    pub fn of(verified: Verified, flows: Rows<Option<Flow>>) -> AnalysedModule
        requires { AreFlows verified.globals flows }
        ensures { result ≡ verified }
    {
        AnalysedModule { verified, flows }
    }

    /// The module.
    pub fn verified(&self) -> &Verified
        ensures { result.now ≡ self.now }
    {
        &self.verified
    }

    /// The module and what is known of its global values, which are moved out.
    pub fn into_parts(self) -> (Verified, Rows<Option<Flow>>)
        ensures module { result.0 ≡ self }
        ensures flows { AreFlows self.globals result.1 }
    {
        (self.verified, self.flows)
    }
}
