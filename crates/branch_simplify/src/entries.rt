//! Phi entries that stay as edges are lost.
ghost use Rattle.std.specs.Prelude.{◌≡◌, ℕ, map, IfOk};
ghost use Rattle.ir_meaning.specs.Counted.{sources};
ghost use Rattle.branch_simplify.specs.Simplified.{entries_left, phi_left};
ghost use Rattle.branch_simplify.specs.Tables.{count_of};

use crate::counts::Counts;
use ir_tree::{Duplicate, Incoming, Phi, Rows};
use std::alloc::{AllocError, Global};

/// The blocks of the entries.
fn sources(alloc: Global, entries: &[Incoming]) -> Result<Vec<u32>, AllocError>
    ensures { IfOk result (λ v. v.items ≡ sources entries.now) }
{
    let mut numbers = Vec::with_capacity(alloc, entries.len())?;
    for entry in entries {
        numbers.push(entry.from)?;
    }
    Ok(numbers)
}

/// The entries without the last ones of each block, as many as edges from it are lost.
fn entries_left(
    alloc: Global,
    lost: &Counts,
    entries: &[Incoming],
) -> Result<Rows<Incoming>, AllocError>
    ensures { IfOk result (λ rows. rows ≡ entries_left (count_of lost.now) entries.now) }
{
    let mut rows = Rows::new(alloc);
    let sources = sources(alloc, entries)?;
    let mut behind = Counts::of(alloc, &sources)?;
    for entry in entries {
        let others = behind.at(entry.from) - 1;
        behind.set(entry.from, others)?;
        if lost.at(entry.from) <= others {
            rows.push(entry.duplicate(alloc)?)?;
        }
    }
    Ok(rows)
}

fn phi_left(alloc: Global, lost: &Counts, phi: &Phi) -> Result<Phi, AllocError>
    ensures { IfOk result (λ p. p ≡ phi_left (count_of lost.now) phi.now) }
{
    let incoming = entries_left(alloc, lost, phi.incoming.as_slice())?;
    Ok(Phi {
        local: phi.local,
        reg: phi.reg,
        incoming,
    })
}

/// The phis of a block that loses these predecessor edges.
pub(crate) fn phis_left(alloc: Global, lost: &Counts, phis: &[Phi]) -> Result<Rows<Phi>, AllocError>
    ensures { IfOk result (λ rows. rows ≡ map (phi_left (count_of lost.now)) phis.now) }
{
    let mut rows = Rows::new(alloc);
    for phi in phis {
        rows.push(phi_left(alloc, lost, phi)?)?;
    }
    Ok(rows)
}
