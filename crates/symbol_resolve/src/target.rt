//! Target lines: modules that are linked name one data layout and one target triple.
ghost use Rattle.std.specs.Prelude.{◌≡◌, ◌<◌, length, IfOk, IfSome};
ghost use Rattle.symbol_resolve.specs.Clashes.{Differing, differs, first_given, first_other, is_given, target_text};

use ir_tree::{TargetLine, Text, Verified};
use std::alloc::AllocError;

fn target_text(line: TargetLine, verified: &Verified) -> &Text
    ensures { result.now ≡ target_text line verified.now }
{
    match line {
        TargetLine::Datalayout => &verified.module().datalayout,
        TargetLine::Triple => &verified.module().triple,
    }
}

fn is_given(text: &Text) -> bool
    ensures { result ≡ is_given text.now }
{
    match text.as_slice() {
        [] => false,
        [_, ..] => true,
    }
}

/// The first module that has the line.
fn first_given(line: TargetLine, modules: &[Verified]) -> Option<usize>
    ensures given { result ≡ first_given line modules.now }
    ensures within { IfSome result (λ i. i < length modules.now) }
{
    for (i, verified) in modules.iter().enumerate() {
        if is_given(target_text(line, verified)) {
            return Some(i);
        }
    }
    None
}

fn differs(text: &Text, other: &Text) -> bool
    ensures { result ≡ differs text.now other.now }
{
    is_given(other) && !other.equals(text.as_slice())
}

/// The first module that has the line otherwise.
fn first_other(line: TargetLine, text: &Text, modules: &[Verified]) -> Option<usize>
    ensures { result ≡ first_other line text.now modules.now }
{
    for (i, verified) in modules.iter().enumerate() {
        if differs(text, target_text(line, verified)) {
            return Some(i);
        }
    }
    None
}

/// A module's number; `2^32` and more are refused.
fn number_of(index: usize) -> Result<u32, AllocError>
    ensures { IfOk result (λ number. number ≡ index) }
{
    if index > 0xFFFF_FFFF {
        return Err(AllocError);
    }
    Ok(index as u32)
}

/// Two modules whose lines differ; `None` where all that have the line have the same.
pub(crate) fn differing(
    line: TargetLine,
    modules: &[Verified],
) -> Result<Option<(u32, u32)>, AllocError>
    ensures { IfOk result (Differing line modules.now) }
{
    let Some(first) = first_given(line, modules) else {
        return Ok(None);
    };
    let text = target_text(line, &modules[first]);
    let Some(second) = first_other(line, text, modules) else {
        return Ok(None);
    };
    let first = number_of(first)?;
    let second = number_of(second)?;
    Ok(Some((first, second)))
}
