//! Global values, with what is known of their control flow.
ghost use Rattle.std.specs.Prelude.{◌≡◌, IfSome};
ghost use Rattle.ir_flow.specs.OfFunction.{IsValueFlow};

use crate::flow::Flow;
use ir_tree::GlobalValue;
use std::marker::Model;

/// A global value, and its control flow where that is known. Contracts see the value.
#[derive(Drop)]
pub struct AnalysedValue {
    value: GlobalValue,
    flow: Option<Flow>,
}

impl Model for AnalysedValue {
    ghost use Rattle.ir_tree.specs.declared.module.GlobalValue.{GlobalValue};
    ghost use Rattle.ir_tree.specs.contracts.shape.Shape as shape;
    ghost use Rattle.ir_tree.specs.contracts.init.Init as init;
    ghost use Rattle.std.specs.Coded.{codes};

    ghost Value = { GlobalValue };

    ghost coded = { Prim.hlevel (codes, shape.the_row.coded, init.the_row.coded) };

    ghost use Rattle.std.specs.Prelude.{IfSome};
    ghost use Rattle.ir_flow.specs.OfFunction.{IsValueFlow};

    ghost view = { λ v. v.value };

    ghost invariant = { λ v. IfSome v.flow (IsValueFlow v.value) };
}

impl AnalysedValue {
    /// The value with its control flow, or without; takes no memory.
    pub fn of(value: GlobalValue, flow: Option<Flow>) -> AnalysedValue
        requires { IfSome flow (IsValueFlow value) }
        ensures { result ≡ value }
    {
        AnalysedValue { value, flow }
    }

    /// The value.
    pub fn value(&self) -> &GlobalValue
        ensures { result.now ≡ self.now }
    {
        &self.value
    }

    /// The value, which is moved out.
    pub fn into_value(self) -> GlobalValue
        ensures { result ≡ self }
    {
        self.value
    }

    /// Its control flow, where that is known.
    pub fn flow(&self) -> Option<&Flow>
        ensures { IfSome result (λ flow. IsValueFlow self.now flow.now) }
    {
        match &self.flow {
            Some(flow) => Some(flow),
            None => None,
        }
    }
}
