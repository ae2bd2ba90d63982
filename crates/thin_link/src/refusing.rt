//! Refusals, which tell modules by the names of their files.
ghost use Rattle.std.specs.Prelude.{◌≡◌, IfOk};
ghost use Rattle.thin_link.specs.Refusing.{clash_refusal, file, lack_refusal};

use combined_index::Refused;
use ir_tree::{Duplicate, Text};
use lto_fault::Refusal;
use std::alloc::{AllocError, Global};
use symbol_resolve::Clash;

/// The name of a module's file.
fn file(alloc: Global, files: &[Text], number: u32) -> Result<Text, AllocError>
    ensures { IfOk result (λ name. name ≡ file files.now number) }
{
    match files.get(number as usize) {
        Some(name) => name.duplicate(alloc),
        None => Ok(Text::new(alloc)),
    }
}

/// The names of two modules' files.
fn file_pair(
    alloc: Global,
    files: &[Text],
    first: u32,
    second: u32,
) -> Result<(Text, Text), AllocError>
    ensures { IfOk result (λ pair. (pair.0 ≡ file files.now first) × (pair.1 ≡ file files.now second)) }
{
    let first = file(alloc, files, first)?;
    let second = file(alloc, files, second)?;
    Ok((first, second))
}

/// How it is told that two modules can't be linked.
pub(crate) fn clash_refusal(
    alloc: Global,
    files: &[Text],
    clash: Clash,
) -> Result<Refusal, AllocError>
    ensures { IfOk result (λ why. why ≡ clash_refusal files.now clash) }
{
    match clash {
        Clash::TargetClash {
            line,
            first,
            second,
        } => {
            let (first, second) = file_pair(alloc, files, first, second)?;
            Ok(Refusal::TargetClash {
                target: line,
                first,
                second,
            })
        }
        Clash::DuplicateSymbol {
            name,
            first,
            second,
        } => {
            let (first, second) = file_pair(alloc, files, first, second)?;
            Ok(Refusal::DuplicateSymbol {
                name,
                first,
                second,
            })
        }
        Clash::KindClash {
            name,
            function,
            variable,
        } => {
            let (function, variable) = file_pair(alloc, files, function, variable)?;
            Ok(Refusal::KindClash {
                name,
                function,
                variable,
            })
        }
    }
}

/// How it is told that a link lacks a definition.
pub(crate) fn lack_refusal(
    alloc: Global,
    files: &[Text],
    lack: Refused,
) -> Result<Refusal, AllocError>
    ensures { IfOk result (λ why. why ≡ lack_refusal files.now lack) }
{
    match lack {
        Refused::Undefined { name, module } => Ok(Refusal::UndefinedSymbol {
            name,
            file: file(alloc, files, module)?,
        }),
        Refused::NoExport { name } => Ok(Refusal::NoExport { name }),
    }
}
