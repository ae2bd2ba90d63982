//! Writes the text of a task.
ghost use Rattle.std.specs.Prelude.{◌≡◌, ◌<◌, ◌^◌, ◌++◌, ◌∷◌, [], All, IfOk, OnOk, codes, flat_map, length, map};
ghost use Rattle.ir_print.specs.Modules.{global_value, global_values, module_text, text_of};
ghost use Rattle.ir_summary.specs.Once.{texts};
ghost use Rattle.ir_tree.specs.Names.{AllBytes};
ghost use Rattle.lto_task.specs.Tasks as tasks;
ghost use Rattle.lto_task.specs.Tasks.{IsWrittenTask, TasksAgree, globals_of, module_of, task_view};
ghost use Rattle.lto_task.specs.Units.{name_line};

use crate::making::text_of;
use crate::task::{Task, TaskModule};
use crate::writing::{push_name_line, push_names, push_number};
use ir_flow::AnalysedValue;
use ir_tree::Text;
use std::alloc::{AllocError, Global};

/// A word and a number on a line.
fn push_number_line(out: &mut Text, word: &[u8], number: usize) -> Result<(), AllocError>
    ensures { OnOk result (out.new ≡ out.old ++ tasks.number_line word.now number) }
{
    out.append(word)?;
    out.append(b" ")?;
    push_number(out, number)?;
    out.append(b"\n")
}

fn push_borrowed_names(alloc: Global, out: &mut Text, names: &[&[u8]]) -> Result<(), AllocError>
    ensures wrote { OnOk result (out.new ≡ out.old ++ flat_map name_line (texts names.now)) }
    ensures bytes { OnOk result (All AllBytes (texts names.now)) }
{
    for name in names {
        push_name_line(alloc, out, name)?;
    }
    Ok(())
}

fn push_global(alloc: Global, out: &mut Text, global: &AnalysedValue) -> Result<(), AllocError>
    ensures { OnOk result (out.new ≡ out.old ++ text_of (global_value global.now ∷ [])) }
{
    let text = text_of(alloc, global.value())?;
    out.append(text.as_slice())
}

fn push_defined(alloc: Global, out: &mut Text, defined: &[&AnalysedValue]) -> Result<(), AllocError>
    ensures { OnOk result (out.new ≡ out.old ++ text_of (global_values (map (λ g. g.now) defined.now))) }
{
    for global in defined {
        push_global(alloc, out, global)?;
    }
    Ok(())
}

fn push_declared(
    alloc: Global,
    out: &mut Text,
    declared: &[AnalysedValue],
) -> Result<(), AllocError>
    ensures { OnOk result (out.new ≡ out.old ++ text_of (global_values declared.now)) }
{
    for global in declared {
        push_global(alloc, out, global)?;
    }
    Ok(())
}

/// The text of a module without target lines.
fn module_text(alloc: Global, m: &TaskModule) -> Result<Text, AllocError>
    ensures { IfOk result (λ text. text ≡ module_text (module_of (globals_of m.now))) }
{
    let mut out = Text::new(alloc);
    push_defined(alloc, &mut out, &m.defined)?;
    push_declared(alloc, &mut out, m.declared.as_slice())?;
    Ok(out)
}

/// A module's text behind the number of its bytes.
fn push_module(alloc: Global, out: &mut Text, word: &[u8], m: &TaskModule) -> Result<(), AllocError>
    ensures wrote { OnOk result (out.new ≡ out.old ++ tasks.counted_bytes word.now (module_text (module_of (globals_of m.now)))) }
    ensures fits { OnOk result (length (module_text (module_of (globals_of m.now))) < 2 ^ 64) }
{
    let text = module_text(alloc, m)?;
    push_number_line(out, word, text.len())?;
    out.append(text.as_slice())
}

fn push_exports(alloc: Global, out: &mut Text, exports: &[&[u8]]) -> Result<(), AllocError>
    ensures wrote { OnOk result (out.new ≡ out.old ++ tasks.counted_names (codes "exported") (texts exports.now)) }
    ensures bytes { OnOk result (All AllBytes (texts exports.now)) }
    ensures fits { length (texts exports.now) < 2 ^ 64 }
{
    push_number_line(out, b"exported", exports.len())?;
    push_borrowed_names(alloc, out, exports)
}

fn push_promoted(alloc: Global, out: &mut Text, promoted: &[Text]) -> Result<(), AllocError>
    ensures wrote { OnOk result (out.new ≡ out.old ++ tasks.counted_names (codes "promoted") promoted.now) }
    ensures bytes { OnOk result (All AllBytes promoted.now) }
    ensures fits { length promoted.now < 2 ^ 64 }
{
    push_number_line(out, b"promoted", promoted.len())?;
    push_names(alloc, out, promoted)
}

/// The text of a task: a line with the version, the inline limit, the names that are exported and those that are promoted, each
/// list behind its count and each name on a line, and the module and what it imports, each printed behind the number of its bytes.
pub fn task_text(alloc: Global, task: &Task) -> Result<Text, AllocError>
    ensures text { IfOk result (λ text. text ≡ tasks.task_text (task_view task.now)) }
    ensures written { IfOk result (λ _. IsWrittenTask (task_view task.now)) }
{
    let mut out = Text::new(alloc);
    push_number_line(&mut out, b"thinlto task", 1)?;
    push_number_line(&mut out, b"inline", task.inline_limit as usize)?;
    push_exports(alloc, &mut out, &task.exports)?;
    push_promoted(alloc, &mut out, &task.promoted)?;
    push_module(alloc, &mut out, b"own", &task.own)?;
    push_module(alloc, &mut out, b"imported", &task.imported)?;
    Ok(out)
}

/// Tasks with one text have the same inline limit, the same names, and modules with the same text.
pub fn tasks_with_one_text_agree()
    ensures { TasksAgree }
{}
