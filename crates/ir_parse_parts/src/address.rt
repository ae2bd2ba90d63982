//! Constant addresses (LangRef, "Constant Expressions").
ghost use Rattle.std.specs.Prelude.{◌≡◌, IfOk};

use crate::name::Name;
use crate::shape::Typed;
use ir_tree::Rows;
use std::alloc::{AllocError, Global};
use std::marker::Model;

/// An index of a constant address: a number of `width` bits, and the line of the number.
#[derive(Clone, Copy)]
pub struct Index {
    pub width: u8,
    pub bits: u64,
    pub line: u32,
}

/// One `getelementptr` of a constant address: the shape that it steps through, and its indices.
#[derive(Drop)]
pub struct Level {
    pub typed: Typed,
    pub indices: Rows<Index>,
}

/// The name of a global, and the levels of `getelementptr` around it, the innermost first.
#[derive(Drop)]
pub struct Steps {
    pub name: Name,
    pub levels: Rows<Level>,
}

/// A constant address that has levels, which contracts see as its steps.
#[derive(Drop)]
pub struct Address {
    steps: Box<Steps>,
}

impl Model for Address {
    ghost use Rattle.ir_parse_parts.specs.declared.address.Steps.{Steps};
    ghost use Rattle.ir_parse_parts.specs.ShapeCode.{code_from};
    ghost use Rattle.std.specs.Coded.{codes};

    ghost Value = { Steps };

    ghost coded = { Prim.hlevel (codes, code_from (Prim.hlevel (codes))) };

    ghost view = { λ a. a.steps.value };
}

impl Address {
    /// The address of these steps.
    pub fn of(alloc: Global, steps: Steps) -> Result<Address, AllocError>
        ensures { IfOk result (λ address. address ≡ steps) }
    {
        let steps = Box::new(alloc, steps)?;
        Ok(Address { steps })
    }

    /// Its steps.
    pub fn steps(&self) -> &Steps
        ensures { self.now ≡ result.now }
    {
        &self.steps
    }
}
