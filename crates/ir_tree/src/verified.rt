//! Modules that are sound.
ghost use Rattle.std.specs.Prelude.{◌≡◌};
ghost use Rattle.ir_tree.specs.Wholes.{IsVerified};

use crate::module::Module;
use std::marker::Model;

/// A module each function of which is sound and each initialiser of which fits its shape.
///
/// Its type keeps besides that each global name stands once and that each one that is used is there. Contracts see the module.
#[derive(Drop)]
pub struct Verified {
    module: Module,
}

impl Model for Verified {
    ghost use Rattle.ir_tree.specs.declared.module.Module.{Module};
    ghost use Rattle.ir_tree.specs.contracts.shape.Shape as shape;
    ghost use Rattle.ir_tree.specs.contracts.init.Init as init;
    ghost use Rattle.std.specs.Coded.{codes};

    ghost Value = { Module };

    ghost coded = { Prim.hlevel (codes, shape.the_row.coded, init.the_row.coded) };

    ghost use Rattle.ir_tree.specs.Wholes.{IsVerified};

    ghost view = { λ v. v.module };

    ghost invariant = { λ v. IsVerified v.module };
}

impl Verified {
    /// A sound module; takes no memory.
    pub fn of(tree: Module) -> Verified
        requires { IsVerified tree }
        ensures { result ≡ tree }
    {
        Verified { module: tree }
    }

    /// The module.
    pub fn module(&self) -> &Module
        ensures module { result.now ≡ self.now }
        ensures sound { IsVerified self.now }
    {
        &self.module
    }
}
