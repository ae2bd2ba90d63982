//! The locals that phis give values.
ghost use Rattle.std.specs.Prelude.{◌≡◌, ℕ, nat_eq, IfOk};
ghost use Rattle.std.specs.HashSet.{contains};
ghost use Rattle.ir_meaning.specs.Facts.{is_phi};

use ir_tree::Phi;
use std::alloc::{AllocError, Global};
use std::collections::HashSet;

/// Whether a phi gives this local its value.
pub fn is_phi(local: u32, phis: &[Phi]) -> bool
    ensures { result ≡ is_phi local phis.now }
{
    for phi in phis {
        if phi.local == local {
            return true;
        }
    }
    false
}

/// The locals that phis give values.
pub fn phi_locals(alloc: Global, phis: &[Phi]) -> Result<HashSet<u32>, AllocError>
    ensures { IfOk result (λ set. (x : ℕ) → contains nat_eq set x ≡ is_phi x phis.now) }
{
    let mut set = HashSet::new(alloc);
    for phi in phis {
        set.insert(phi.local)?;
    }
    Ok(set)
}
