//! What a back end makes of a task, and of nothing else.
ghost use Rattle.std.specs.Prelude.{◌≡◌, ◌++◌, ◌∷◌, [], if◌then◌else◌, All, IfOk, OnOk, filter};
ghost use Rattle.std.specs.List.{AllZip};
ghost use Rattle.ir_tree.specs.Wholes.{GlobalSound};
ghost use Rattle.back_end.specs.Inlinable.{AreSound};
ghost use Rattle.back_end.specs.Walking.{bodies_in};
ghost use Rattle.emit.specs.Joins.{IsInNameOrder};
ghost use Rattle.lto_task.specs.Tasks.{globals_of, task_view};
ghost use Rattle.importer.specs.Tables.{values};
ghost use Rattle.link_one.specs.TaskUnits.{AreKeptPieces, IsTaskUnit, bodies_in_task, definitions, is_defined, offered_by};
ghost use Rattle.link_one.specs.Units.{IsLinkedPiece};

use crate::piece::linked_piece;
use crate::referable::{push_copies, push_shown};
use back_end::Bodies;
use emit::{Exported, strip};
use importer::{copies, push_all};
use ir_flow::AnalysedValue;
use ir_tree::{GlobalValue, Rows, Text};
use lto_task::{Piece, Task, TaskModule};
use std::alloc::{AllocError, Global};

fn is_defined(global: &GlobalValue) -> bool
    ensures { result ≡ is_defined global.now }
{
    match global {
        GlobalValue::Variable(variable) => variable.init.is_some(),
        GlobalValue::Function(function) => !function.blocks.as_slice().is_empty(),
    }
}

/// Adds the definitions and the declarations of a module of a task.
fn push_module<'a>(
    list: &mut Vec<&'a AnalysedValue>,
    m: &'a TaskModule<'a>,
) -> Result<(), AllocError>
    ensures { OnOk result (values list.new.items ≡ values list.old.items ++ globals_of m.entry.now) }
{
    list.extend_from_slice(&m.defined)?;
    push_all(list, m.declared.as_slice())
}

/// These values alone.
fn plain<'a>(
    alloc: Global,
    globals: &[&'a AnalysedValue],
) -> Result<Vec<&'a GlobalValue>, AllocError>
    ensures { IfOk result (λ list. values list.items ≡ values globals.now) }
{
    let mut list = Vec::new(alloc);
    for global in globals {
        list.push(global.value())?;
    }
    Ok(list)
}

/// The bodies that may be inlined in a task's module: imported ones, and its own.
fn bodies_of<'a>(alloc: Global, task: &'a Task<'a>) -> Result<Bodies<'a>, AllocError>
    ensures { IfOk result (λ bodies. bodies_in bodies ≡ bodies_in_task (task_view task.entry.now)) }
{
    let mut list = Vec::new(alloc);
    push_module(&mut list, &task.imported)?;
    push_module(&mut list, &task.own)?;
    let globals = plain(alloc, &list)?;
    Bodies::of(alloc, &globals, task.inline_limit)
}

/// Adds a value, where it is a definition.
fn push_defined<'a>(
    list: &mut Vec<&'a AnalysedValue>,
    global: &'a AnalysedValue,
) -> Result<(), AllocError>
    ensures { OnOk result (values list.new.items ≡ values list.old.items ++ (if is_defined global.entry.now then global.entry.now ∷ [] else [])) }
{
    if is_defined(global.value()) {
        list.push(global)?;
    }
    Ok(())
}

/// Those of these values that are definitions.
fn defined_among<'a>(
    alloc: Global,
    globals: &[&'a AnalysedValue],
) -> Result<Vec<&'a AnalysedValue>, AllocError>
    ensures { IfOk result (λ list. values list.items ≡ definitions (values globals.now)) }
{
    let mut list = Vec::new(alloc);
    for global in globals {
        push_defined(&mut list, global)?;
    }
    Ok(list)
}

/// The definitions of a module of a task.
fn definitions<'a>(
    alloc: Global,
    m: &'a TaskModule<'a>,
) -> Result<Vec<&'a AnalysedValue>, AllocError>
    ensures { IfOk result (λ list. values list.items ≡ definitions (globals_of m.entry.now)) }
{
    let mut all = Vec::new(alloc);
    push_module(&mut all, m)?;
    defined_among(alloc, &all)
}

fn linked_pieces(
    alloc: Global,
    bodies: &Bodies<'_>,
    exported: &Exported<'_>,
    globals: &[&AnalysedValue],
) -> Result<Rows<Piece>, AllocError>
    requires sound { All GlobalSound (values globals.now) }
    requires bodies { AreSound (bodies_in bodies.now) }
    ensures { IfOk result (λ rows. AllZip (IsLinkedPiece (bodies_in bodies.now) exported.now.exports.now) (values globals.now) rows) }
{
    let mut rows = Rows::new(alloc);
    'each: for global in globals {
        rows.push(linked_piece(alloc, bodies, exported, global)?)?;
    }
    Ok(rows)
}

/// The pieces of these definitions of a task.
fn pieces_of(
    alloc: Global,
    task: &Task<'_>,
    globals: &[&AnalysedValue],
) -> Result<Rows<Piece>, AllocError>
    requires sound { All GlobalSound (values globals.now) }
    requires own { All GlobalSound (task_view task.now).own }
    requires imported { All GlobalSound (task_view task.now).imported }
    ensures { IfOk result (λ rows. AllZip (IsLinkedPiece (bodies_in_task (task_view task.now)) (task_view task.now).exports) (values globals.now) rows) }
{
    let bodies = bodies_of(alloc, task)?;
    let exports = copies(alloc, &task.exports)?;
    let exported = Exported::of(alloc, exports.as_slice())?;
    linked_pieces(alloc, &bodies, &exported, globals)
}

/// The names by which other units may refer to a task's definitions.
fn offers_of(
    alloc: Global,
    task: &Task<'_>,
    globals: &[&AnalysedValue],
) -> Result<Rows<Text>, AllocError>
    requires { values globals.now ≡ definitions (task_view task.now).own }
    ensures { IfOk result (λ names. names ≡ offered_by (task_view task.now)) }
{
    let mut names = Rows::new(alloc);
    push_shown(alloc, &mut names, globals)?;
    push_copies(alloc, &mut names, &task.promoted)?;
    Ok(names)
}

/// Sorts pieces by name, in the order of bytes.
fn sort_pieces(pieces: &mut Vec<Piece>) -> Result<(), AllocError>
    ensures { OnOk result (IsInNameOrder pieces.old.items pieces.new.items) }
{
    pieces.sort_by(|a, b| a.name.as_slice().cmp(b.name.as_slice()))?;
    Ok(())
}

/// Of the pieces of a task's definitions those to which other units may refer, and what these lead to.
fn kept_pieces(
    alloc: Global,
    task: &Task<'_>,
    globals: &[&AnalysedValue],
) -> Result<Rows<Piece>, AllocError>
    requires defined { values globals.now ≡ definitions (task_view task.now).own }
    requires own { All GlobalSound (task_view task.now).own }
    requires imported { All GlobalSound (task_view task.now).imported }
    ensures { IfOk result (AreKeptPieces (task_view task.now)) }
{
    let pieces = pieces_of(alloc, task, globals)?;
    let offers = offers_of(alloc, task, globals)?;
    strip(alloc, offers.as_slice(), pieces)
}

/// Pieces by name.
fn in_name_order(pieces: Rows<Piece>) -> Result<Rows<Piece>, AllocError>
    ensures { IfOk result (IsInNameOrder pieces) }
{
    let mut unit = pieces.into_vec();
    sort_pieces(&mut unit)?;
    Ok(Rows::of(unit))
}

/// The unit of a task of sound values: the pieces of its definitions to which others may refer, and what these lead to, by name.
pub(crate) fn compiled(alloc: Global, task: &Task<'_>) -> Result<Rows<Piece>, AllocError>
    requires own { All GlobalSound (task_view task.now).own }
    requires imported { All GlobalSound (task_view task.now).imported }
    ensures { IfOk result (IsTaskUnit (task_view task.now)) }
{
    let definitions = definitions(alloc, &task.own)?;
    let kept = kept_pieces(alloc, task, &definitions)?;
    in_name_order(kept)
}
