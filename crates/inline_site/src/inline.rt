//! Inlining at one call.
ghost use Rattle.std.specs.Prelude.{◌≡◌, ◌≢◌, ℕ, ◌∷◌, ◌++◌, [], Some, IfOk, IfSome, OnOk};
ghost use Rattle.ir_tree.specs.Rules.{Sound};
ghost use Rattle.ir_tree.specs.declared.function.Function.{Function};
ghost use Rattle.inline_site.specs.Callers.{IsReady, counted_done, made_of, opened_with};
ghost use Rattle.inline_site.specs.Copying.{site_of};
ghost use Rattle.inline_site.specs.Inlined.{IsInlined};
ghost use Rattle.inline_site.specs.Laws.{IsBetterIfGiven};
ghost use Rattle.inline_site.specs.Sites.{IsCallOf, StandsAt};

use crate::caller::Caller;
use crate::open::Open;
use crate::site::{SiteParts, arguments_of, site_at};
use ir_tree::{Argument, Function};
use std::alloc::{AllocError, Global};

/// Goes on up to a call, in whose block nothing else is ahead.
fn up_to(alloc: Global, caller: &mut Caller, site: SiteParts<'_>) -> Result<Open, AllocError>
    ensures block { IfOk result (λ o. o ≡ record { number = (site_of site.entry).block.number; phis = (site_of site.entry).block.phis; lines = (site_of site.entry).before }) }
    ensures done { IfOk result (λ o. caller.new.done.items ≡ caller.old.done.items ++ (site_of site.entry).front) }
    ensures free { IfOk result (λ o. caller.new.free ≡ caller.old.free) }
    ensures late { IfOk result (λ o. caller.new.late ≡ caller.old.late) }
{
    caller.pass(alloc, site.front)?;
    let mut current = Open::of(alloc, site.block)?;
    current.push_all(alloc, site.before)?;
    Ok(current)
}

/// Goes on with what stands behind a call.
fn from_there(
    alloc: Global,
    caller: &mut Caller,
    current: Open,
    site: SiteParts<'_>,
) -> Result<(), AllocError>
    ensures { OnOk result ((f : Function) → made_of f caller.new [] ≡ made_of f caller.old (opened_with current (site_of site.entry).after (site_of site.entry).block.end ∷ (site_of site.entry).back)) }
{
    let mut current = current;
    current.push_all(alloc, site.after)?;
    caller.end(alloc, current, &site.block.end)?;
    caller.pass(alloc, site.back)?;
    Ok(())
}

/// Goes on up to a call, inlines the callee there, and goes on with what stands behind the call.
fn inline_there(
    alloc: Global,
    caller: &mut Caller,
    site: SiteParts<'_>,
    arguments: &[Argument],
    callee: &Function,
) -> Result<(), AllocError>
    requires some { callee.now.blocks ≢ [] }
    requires call { IsCallOf callee.now (site_of site).call.instr arguments.now }
    ensures { OnOk result ((f : Function) (place : ℕ) → made_of f caller.old f.blocks ≡ f → IsReady f caller.old → counted_done caller.old ≡ 0 → StandsAt f.blocks place (site_of site.entry) → Sound callee.now → IsInlined f place callee.now (Some (made_of f caller.new []))) }
{
    let mut current = up_to(alloc, caller, site)?;
    caller.inline(alloc, &mut current, site.call, arguments, callee)?;
    from_there(alloc, caller, current, site)?;
    Ok(())
}

fn inlined(
    alloc: Global,
    f: &Function,
    place: u32,
    site: SiteParts<'_>,
    arguments: &[Argument],
    callee: &Function,
) -> Result<Function, AllocError>
    requires some { callee.now.blocks ≢ [] }
    requires stands { StandsAt f.now.blocks place (site_of site) }
    requires call { IsCallOf callee.now (site_of site).call.instr arguments.now }
    ensures { IfOk result (λ g. Sound callee.now → IsInlined f.now place callee.now (Some g)) }
{
    let mut caller = Caller::of(alloc, f);
    inline_there(alloc, &mut caller, site, arguments, callee)?;
    let g = caller.finish(alloc, f)?;
    Ok(g)
}

/// Inlining of one call: the function with the callee's body in the place of the direct call of the callee, of its type, that
/// stands at this place, counted from 1 over the function's phis, instructions and terminators in the order of the text.
/// `None` where no such call stands there, or the callee has no blocks.
///
/// The result is the one that `specs/Inlined.antt` defines, for a sound callee; for a sound function it is sound too, and
/// better in each program in which the callee's body is the program's own. Beside want of memory, functions are refused whose
/// numbers together pass 32 bits (LangRef, "'call' Instruction"; of the numbers, "Identifiers").
pub fn inline_at(
    alloc: Global,
    f: &Function,
    place: u32,
    callee: &Function,
) -> Result<Option<Function>, AllocError>
    ensures inlined { IfOk result (λ g. Sound callee.now → IsInlined f.now place callee.now g) }
    ensures better { IfOk result (λ g. Sound f.now → Sound callee.now → IsBetterIfGiven g f.now callee.now) }
    ensures sound { IfOk result (λ g. Sound f.now → Sound callee.now → IfSome g Sound) }
{
    if callee.blocks.len() == 0 {
        return Ok(None);
    }
    let Some(site) = site_at(f.blocks.as_slice(), place) else {
        return Ok(None);
    };
    let Some(arguments) = arguments_of(callee, &site.call.instr) else {
        return Ok(None);
    };
    let g = inlined(alloc, f, place, site, arguments, callee)?;
    Ok(Some(g))
}
