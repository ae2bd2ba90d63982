//! The parts of an initialiser as they come (LangRef, "Complex Constants").
//!
//! Each aggregate that is begun stays open up to its end. A text in the grammar closes all of them at
//! its last part; of other lists of parts the ends that lack stand at the end, and what comes when
//! nothing is open is left out, so that what is kept is the flat form of a tree.
ghost use Rattle.std.specs.Prelude.{◌≡◌, ◌≤◌, ◌++◌, [], IfOk, OnOk, Ok, replicate};
ghost use Rattle.ir_tree.specs.declared.init_node.InitPart.TheVariants as part_kinds;
ghost use Rattle.ir_parse_values.specs.Closing.{begun, depth_behind, pushed, finished};
ghost use Rattle.ir_parse_names.specs.Resolving.{ResolvesTo};

use crate::block::after;
use ir_parse_names::ResolveError;
use ir_tree::{InitHead, InitPart, Rows};
use std::alloc::{AllocError, Global};

/// The parts that are kept so far, and how many aggregates are open behind them.
#[derive(Drop)]
pub struct Collected {
    pub parts: Rows<InitPart>,
    pub depth: u32,
}

/// How many aggregates are open behind a beginning.
fn begun(depth: u32, head: &InitHead) -> Result<u32, ResolveError>
    ensures { ResolvesTo (λ n. n) result (Ok (begun depth head.now)) }
{
    match head {
        InitHead::Plain(_) | InitHead::Zeros | InitHead::Bytes(_) => Ok(depth),
        InitHead::Array | InitHead::Struct { .. } => after(depth),
    }
}

/// How many aggregates are open behind a part, where some are before it.
fn depth_behind(depth: u32, part: &InitPart) -> Result<u32, ResolveError>
    requires { 1 ≤ depth }
    ensures { ResolvesTo (λ n. n) result (Ok (depth_behind depth part.now)) }
{
    match part {
        InitPart::Typed { head, .. } => begun(depth, head),
        InitPart::End => Ok(depth - 1),
    }
}

/// No part behind the beginning of an initialiser.
pub fn behind(alloc: Global, root: &InitHead) -> Result<Collected, ResolveError>
    ensures { ResolvesTo (λ c. c) result (Ok (record { parts = []; depth = begun 0 root.now })) }
{
    let depth = begun(0, root)?;
    Ok(Collected {
        parts: Rows::new(alloc),
        depth,
    })
}

/// One more part.
pub fn push(collected: &mut Collected, part: InitPart) -> Result<(), ResolveError>
    ensures { ResolvesTo (λ _. collected.new) result (Ok (pushed collected.old part)) }
{
    if collected.depth == 0 {
        return Ok(());
    }
    let depth = depth_behind(collected.depth, &part)?;
    collected.parts.push(part)?;
    collected.depth = depth;
    Ok(())
}

/// So many ends more.
fn push_ends(parts: &mut Rows<InitPart>, count: u32) -> Result<(), AllocError>
    ensures { OnOk result (parts.new ≡ parts.old ++ replicate count part_kinds.End) }
{
    'each: for _ in 0..count {
        parts.push(InitPart::End)?;
    }
    Ok(())
}

/// The parts, with an end for each aggregate that is open.
pub fn finish(collected: Collected) -> Result<Rows<InitPart>, AllocError>
    ensures { IfOk result (λ ps. ps ≡ finished collected []) }
{
    let mut parts = collected.parts;
    push_ends(&mut parts, collected.depth)?;
    Ok(parts)
}
