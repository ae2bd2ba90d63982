//! Names, each once.
ghost use Rattle.std.specs.Prelude.{◌≡◌, IfOk};
ghost use Rattle.ir_summary.specs.Once.{texts};
ghost use Rattle.ir_tree.specs.Once.{once};

use indexmap::IndexSet;
use ir_tree::{Rows, Text};
use std::alloc::{AllocError, Global};

fn distinct<'a>(alloc: Global, names: &[&'a [u8]]) -> Result<IndexSet<&'a [u8]>, AllocError>
    ensures { IfOk result (λ set. texts set.keys ≡ once (texts names.entry.now)) }
{
    let mut seen = IndexSet::new(alloc);
    for name in names {
        seen.insert(*name)?;
    }
    Ok(seen)
}

#[tactic(auto, using(crate::proofs::Onces::text_more))]
fn rows_of(alloc: Global, names: &[&[u8]]) -> Result<Rows<Text>, AllocError>
    ensures { IfOk result (λ rows. rows ≡ texts names.now) }
{
    let mut rows = Rows::new(alloc);
    for name in names {
        rows.push(Text::copied(alloc, name)?)?;
    }
    Ok(rows)
}

/// Each name once, in the order in which they first come.
pub(crate) fn once(alloc: Global, names: &[&[u8]]) -> Result<Rows<Text>, AllocError>
    ensures { IfOk result (λ rows. rows ≡ once (texts names.now)) }
{
    let seen = distinct(alloc, names)?;
    rows_of(alloc, seen.as_slice())
}
