//! The target lines of the linked module.
ghost use Rattle.std.specs.Prelude.{◌≡◌, IfOk};
ghost use Rattle.symbol_resolve.specs.Clashes.{given_text, is_given, target_text};

use ir_tree::{Duplicate, TargetLine, Text, Verified};
use std::alloc::{AllocError, Global};

fn target_text(line: TargetLine, verified: &Verified) -> &Text
    ensures { result.now ≡ target_text line verified.now }
{
    match line {
        TargetLine::Datalayout => &verified.module().datalayout,
        TargetLine::Triple => &verified.module().triple,
    }
}

fn is_given(text: &Text) -> bool
    ensures { result ≡ is_given text.now }
{
    match text.as_slice() {
        [] => false,
        [_, ..] => true,
    }
}

/// The line of the first module that has one; empty where none has.
pub(crate) fn given_text(
    alloc: Global,
    line: TargetLine,
    modules: &[Verified],
) -> Result<Text, AllocError>
    ensures { IfOk result (λ text. text ≡ given_text line modules.now) }
{
    for verified in modules {
        let text = target_text(line, verified);
        if is_given(text) {
            return text.duplicate(alloc);
        }
    }
    Ok(Text::new(alloc))
}
