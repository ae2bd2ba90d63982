//! The run of modules: what they mean together runs from its root with the input and the output.
ghost use Rattle.std.specs.Prelude.{IfOk};
ghost use Rattle.merge_meaning.specs.Merged.{merged};
ghost use Rattle.run_program.specs.Causes.{Comes};
ghost use Rattle.run_program.specs.Merged.{merged_causes};
ghost use Rattle.run_program.specs.Runs.{ReturnsSo};
ghost use Rattle.run_program.specs.Streams.{streams_seen};

use crate::program::run_globals;
use crate::root::RunOptions;
use ir_tree::Verified;
use lto_fault::{Refusal, Returned};
use lto_outside::{ByteIn, ByteOut};
use lto_words::FileName;
use merge_meaning::program;
use std::alloc::Global;
use symbol_resolve::resolve;

/// Runs the modules of these files together.
pub fn run_merged<I: ByteIn, O: ByteOut>(
    alloc: Global,
    names: &[FileName],
    modules: &[Verified],
    options: &RunOptions,
    input: &mut I,
    out: &mut O,
) -> Result<Returned, Refusal>
    ensures answer { Comes (merged_causes options.now.root options.now.args options.now.steps names.now (streams_seen I.left I.faults O.sent O.faults input.old input.new out.old out.new) modules.now) result }
    ensures returned { IfOk result (ReturnsSo (merged modules.now) options.now.root options.now.args options.now.steps (streams_seen I.left I.faults O.sent O.faults input.old input.new out.old out.new)) }
{
    // Modules that clash were refused before.
    let Ok(resolution) = resolve(alloc, modules) else {
        return Err(Refusal::NoMemory);
    };
    let Ok(globals) = program(alloc, modules, &resolution) else {
        return Err(Refusal::NoMemory);
    };
    run_globals(
        alloc,
        globals.as_slice(),
        names,
        &resolution,
        options,
        input,
        out,
    )
}
