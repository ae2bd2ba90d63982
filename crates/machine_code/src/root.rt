//! Functions in which a run can begin.
ghost use Rattle.std.specs.Prelude.{◌≡◌, ℕ, List, None, IfSome, length, option_copied, slice_get};
ghost use Rattle.ir_tree.specs.declared.module.GlobalValue.{GlobalValue};
ghost use Rattle.ir_tree.specs.declared.operand.Reg.{Reg};
ghost use Rattle.ir_interp.specs.Steps.{CanBegin};
ghost use Rattle.ir_meaning.specs.Programs.{shared};
ghost use Rattle.machine_code.specs.Addresses.{base_in};
ghost use Rattle.machine_code.specs.Lowered.{IsMadeOf};
ghost use Rattle.machine_code.specs.Roots.{IsRoot, are_integers, index_in, integers_of, only_integers};

use crate::code::Lowered;
use crate::key::Key;
use ir_interp::Entity;
use ir_machine::Base;
use ir_tree::Reg;

/// A function in which a run can begin: the index of its symbol, and the types of its parameters, which are integers.
#[derive(Clone, Copy)]
pub struct Root<'r> {
    pub index: u32,
    pub params: &'r [Reg],
}

/// Whether all types are those of integers.
fn are_integers(regs: &[Reg]) -> bool
    ensures { result ≡ are_integers regs.now }
{
    match regs {
        [] => true,
        [reg, rest @ ..] => match reg {
            Reg::Int(_) => are_integers(rest),
            Reg::Ptr => false,
        },
    }
}

/// These types, where all are those of integers.
fn only_integers(types: &[Reg]) -> Option<&[Reg]>
    ensures { option_copied result ≡ only_integers types.now }
{
    if are_integers(types) {
        Some(types)
    } else {
        None
    }
}

impl<'a> Lowered<'a> {
    /// The index of the function on which the address of the symbol of a name is based that modules share.
    fn index_of(&self, name: &[u8]) -> Option<u32>
        ensures { result ≡ index_in (base_in self.now.addresses (shared name.now)) }
    {
        let base = self.addresses.bases.get(Key { home: None, name })?;
        match base {
            Base::Function(index) => Some(index),
            Base::Null | Base::Block(_) => None,
        }
    }

    /// The types of the parameters of the symbol of an index, where it is a function that takes integers alone.
    fn integers_of(&self, index: u32) -> Option<&[Reg]>
        ensures { option_copied result ≡ integers_of (slice_get self.now.code.entities.items index) }
    {
        match self.code.entities.get(index as usize) {
            Some(entity) => match entity {
                Entity::Function { params, .. } => only_integers(params),
                Entity::Host(_) | Entity::Other => None,
            },
            None => None,
        }
    }

    /// The function of a name that modules share in which a run can begin: one that is defined, and whose parameters are integers.
    pub fn root(&self, name: &[u8]) -> Option<Root<'_>>
        ensures begins { IfSome result (λ r. CanBegin self.now.code r.index (length r.params.now)) }
        ensures some { IfSome result (λ r. (gs : List GlobalValue) → IsMadeOf gs self.now → IsRoot gs name.now r.index r.params.now) }
        ensures none { result ≡ None → (gs : List GlobalValue) (i : ℕ) (types : List Reg) → IsMadeOf gs self.now → IsRoot gs name.now i types → ⊥ }
    {
        let index = self.index_of(name)?;
        let params = self.integers_of(index)?;
        if self.code.can_begin(index, params.len()) {
            Some(Root { index, params })
        } else {
            None
        }
    }
}
