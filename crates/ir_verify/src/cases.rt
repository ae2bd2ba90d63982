//! The cases of a `switch`.
ghost use Rattle.std.specs.Prelude.{◌≡◌, ◌↔◌, IfOk, IsTrue};
ghost use Rattle.ir_tree.specs.Rules.{CaseHas, CasesDiffer};
ghost use Rattle.std.specs.List.{All};

use ir_tree::{Case, Reg};
use std::alloc::{AllocError, Global};
use std::collections::HashSet;

/// Whether each case has the type of its switch.
pub fn cases_have(width: u8, cases: &[Case]) -> bool
    ensures { IsTrue result ↔ All (CaseHas width) cases.now }
{
    cases
        .iter()
        .all(|case| case.reg == Reg::Int(width) && case.width == width)
}

/// Whether no two cases have one value.
pub fn cases_differ(alloc: Global, cases: &[Case]) -> Result<bool, AllocError>
    ensures { IfOk result (λ differ. IsTrue differ ↔ CasesDiffer cases.now) }
{
    let mut seen = HashSet::new(alloc);
    for case in cases {
        if !seen.insert(case.bits)? {
            return Ok(false);
        }
    }
    Ok(true)
}
