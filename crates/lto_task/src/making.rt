//! The pieces of definitions.
ghost use Rattle.std.specs.Prelude.{◌≡◌, ◌↔◌, ◌++◌, ◌∷◌, [], ℕ, List, Contains, IfOk, OnOk};
ghost use Rattle.ir_print.specs.Modules.{global_value, text_of};
ghost use Rattle.ir_summary.specs.Once.{texts};
ghost use Rattle.ir_summary.specs.References.{global_names};
ghost use Rattle.ir_tree.specs.Wholes.{global_symbol};
ghost use Rattle.lto_task.specs.Pieces.{IsPieceOf, NamesRise};

use crate::piece::Piece;
use ir_print::{print_function, print_variable};
use ir_summary::references;
use ir_tree::{GlobalValue, Rows, Text};
use std::alloc::{AllocError, Global};

fn name_of(global: &GlobalValue) -> &[u8]
    ensures { result.now ≡ (global_symbol global.now).name }
{
    match global {
        GlobalValue::Variable(variable) => variable.symbol.name.as_slice(),
        GlobalValue::Function(function) => function.symbol.name.as_slice(),
    }
}

/// The lines of a global value as they stand in the text of a module.
pub(crate) fn text_of(alloc: Global, global: &GlobalValue) -> Result<Text, AllocError>
    ensures { IfOk result (λ text. text ≡ text_of (global_value global.now ∷ [])) }
{
    match global {
        GlobalValue::Variable(variable) => print_variable(alloc, variable),
        GlobalValue::Function(function) => print_function(alloc, function),
    }
}

/// Sorts names in the order of bytes, and leaves each one once.
fn sort_names(names: &mut Vec<&[u8]>)
    ensures rise { NamesRise (texts names.new.items) }
    ensures same { (name : List ℕ) → Contains (texts names.new.items) name ↔ Contains (texts names.old.items) name }
{
    names.sort_unstable();
    names.dedup();
}

fn push_copy(alloc: Global, rows: &mut Rows<Text>, name: &[u8]) -> Result<(), AllocError>
    ensures { OnOk result (rows.new ≡ rows.old ++ name.now ∷ []) }
{
    rows.push(Text::copied(alloc, name)?)?;
    Ok(())
}

#[tactic(auto, using(ir_summary::proofs::Onces::text_more))]
fn copies(alloc: Global, names: &[&[u8]]) -> Result<Rows<Text>, AllocError>
    ensures { IfOk result (λ rows. rows ≡ texts names.now) }
{
    let mut rows = Rows::new(alloc);
    for name in names {
        push_copy(alloc, &mut rows, name)?;
    }
    Ok(rows)
}

/// The names that a definition refers to, each once, in the order of bytes.
fn refs_of(alloc: Global, global: &GlobalValue) -> Result<Rows<Text>, AllocError>
    ensures rise { IfOk result (λ refs. NamesRise refs) }
    ensures refers { IfOk result (λ refs. (name : List ℕ) → Contains refs name ↔ Contains (global_names global.now) name) }
{
    let mut names = references(alloc, global)?;
    sort_names(&mut names);
    copies(alloc, &names)
}

/// The piece of a definition, which has its name in the linked module.
pub fn piece_of(alloc: Global, global: &GlobalValue) -> Result<Piece, AllocError>
    ensures { IfOk result (λ piece. IsPieceOf global.now piece) }
{
    let name = Text::copied(alloc, name_of(global))?;
    let refs = refs_of(alloc, global)?;
    let text = text_of(alloc, global)?;
    Ok(Piece { name, refs, text })
}
