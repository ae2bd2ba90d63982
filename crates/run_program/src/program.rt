//! The run of global values: their code runs from its root with the input and the output.
ghost use Rattle.std.specs.Prelude.{◌≡◌, ◌⊎◌, IfErr, IfOk, IfSome, Some, length};
ghost use Rattle.ir_meaning.specs.Program.{State};
ghost use Rattle.ir_meaning.specs.Run.{start};
ghost use Rattle.ir_machine.specs.Meant.{symbol_at};
ghost use Rattle.ir_interp.specs.Runs.{HasFedRun, HasRun, IsBlamed};
ghost use Rattle.ir_meaning.specs.Programs.{program_of};
ghost use Rattle.ir_meaning.specs.Runnable.{AreRunnable};
ghost use Rattle.ir_tree.specs.Wholes.{symbols};
ghost use Rattle.machine_code.specs.Lowered.{IsLowered, IsMadeOf};
ghost use Rattle.ir_interp.specs.Steps.{CanBegin, numbers_meant};
ghost use Rattle.run_program.specs.Arguments.{IsGiven};
ghost use Rattle.run_program.specs.Files.{file_in};
ghost use Rattle.run_program.specs.Causes.{Because, Comes, never};
ghost use Rattle.run_program.specs.Endings.{Unbegun};
ghost use Rattle.run_program.specs.Roots.{BeginsSo};
ghost use Rattle.run_program.specs.Runs.{ReturnsSo, StopsSo, run_causes};
ghost use Rattle.run_program.specs.Streams.{streams_seen};

use crate::ending::ended;
use crate::root::{Begun, RunOptions, begin};
use crate::streams::{given_up, stream_names};
use ir_interp::{Machine, RunEnd, RunFault};
use ir_tree::{GlobalValue, Text};
use lto_fault::{Refusal, Returned};
use lto_outside::{ByteIn, ByteOut};
use lto_words::FileName;
use machine_code::{Lowered, lower, opening};
use std::alloc::Global;
use symbol_resolve::Resolution;

/// Runs code from where it begins, over the memory that its global values begin with.
fn ran<I: ByteIn, O: ByteOut>(
    alloc: Global,
    globals: &[GlobalValue],
    lowered: &Lowered,
    begun: &Begun,
    steps: u32,
    input: &mut I,
    out: &mut O,
) -> Result<RunEnd, RunFault>
    requires runnable { AreRunnable globals.now }
    requires code { IsLowered globals.now lowered.now.code }
    requires made { IsMadeOf globals.now lowered.now }
    requires begins { CanBegin lowered.now.code begun.now.index (length begun.now.numbers) }
    ensures ok { IfOk result (λ end. (first : State) → start (program_of globals.now) (symbol_at (symbols globals.now) begun.now.index) (numbers_meant begun.now.numbers) ≡ Some first → IfSome (I.left input.old) (λ bytes. HasRun (symbols globals.now) (program_of globals.now) first bytes steps (I.left input.new) (O.sent out.old) (O.sent out.new) end)) }
    ensures fed { IfOk result (λ end. (first : State) → start (program_of globals.now) (symbol_at (symbols globals.now) begun.now.index) (numbers_meant begun.now.numbers) ≡ Some first → HasFedRun (symbols globals.now) (program_of globals.now) first steps (O.sent out.old) (O.sent out.new) end) }
    ensures part { IfErr result (λ why. Unbegun why (streams_seen I.left I.faults O.sent O.faults input.old input.new out.old out.new) ⊎ ((first : State) → start (program_of globals.now) (symbol_at (symbols globals.now) begun.now.index) (numbers_meant begun.now.numbers) ≡ Some first → StopsSo (program_of globals.now) first steps (streams_seen I.left I.faults O.sent O.faults input.old input.new out.old out.new) why)) }
    ensures cause { IfErr result (IsBlamed (I.faults input.old) (I.faults input.new) (O.faults out.old) (O.faults out.new)) }
{
    let Ok(memory) = opening(alloc, globals, &lowered.addresses.bases) else {
        return Err(RunFault::NoMemory);
    };
    let numbers = begun.numbers.as_slice();
    let Ok(mut machine) = Machine::new(alloc, &lowered.code, memory, begun.index, numbers) else {
        return Err(RunFault::NoMemory);
    };
    ir_interp::run(alloc, &mut machine, input, out, u64::from(steps))
}

/// Runs code from where it begins: what it returned, or why it didn't return.
fn run_begun<I: ByteIn, O: ByteOut>(
    alloc: Global,
    globals: &[GlobalValue],
    names: &[FileName],
    resolution: &Resolution<'_>,
    lowered: &Lowered,
    begun: &Begun,
    options: &RunOptions,
    input: &mut I,
    out: &mut O,
) -> Result<Returned, Refusal>
    requires runnable { AreRunnable globals.now }
    requires code { IsLowered globals.now lowered.now.code }
    requires made { IsMadeOf globals.now lowered.now }
    requires begins { CanBegin lowered.now.code begun.now.index (length begun.now.numbers) }
    requires gives { IsGiven begun.now.gives }
    requires found { BeginsSo globals.now options.now.root options.now.args begun.now }
    ensures answer { Comes (run_causes (program_of globals.now) options.now.root options.now.args (file_in names.now resolution.now) options.now.steps (streams_seen I.left I.faults O.sent O.faults input.old input.new out.old out.new)) result }
    ensures returned { IfOk result (ReturnsSo (program_of globals.now) options.now.root options.now.args options.now.steps (streams_seen I.left I.faults O.sent O.faults input.old input.new out.old out.new)) }
{
    let Ok(streams) = stream_names(alloc) else {
        return Err(Refusal::NoMemory);
    };
    match ran(alloc, globals, lowered, begun, options.steps, input, out) {
        Ok(end) => ended(
            alloc,
            globals,
            names,
            resolution,
            begun.gives,
            options.steps,
            end,
        ),
        Err(fault) => Err(given_up(fault, streams)),
    }
}

/// That the root isn't a function that takes the arguments.
fn unfit(alloc: Global, root: &Text) -> Refusal
    ensures { Because (record never { unfit = λ name. name ≡ root.now; memory = Unit {0} }) result }
{
    match Text::copied(alloc, root.as_slice()) {
        Ok(name) => Refusal::BadArguments { name },
        Err(_) => Refusal::NoMemory,
    }
}

/// Runs global values: of files whose modules this resolves.
pub(crate) fn run_globals<I: ByteIn, O: ByteOut>(
    alloc: Global,
    globals: &[GlobalValue],
    names: &[FileName],
    resolution: &Resolution<'_>,
    options: &RunOptions,
    input: &mut I,
    out: &mut O,
) -> Result<Returned, Refusal>
    requires { AreRunnable globals.now }
    ensures answer { Comes (run_causes (program_of globals.now) options.now.root options.now.args (file_in names.now resolution.now) options.now.steps (streams_seen I.left I.faults O.sent O.faults input.old input.new out.old out.new)) result }
    ensures returned { IfOk result (ReturnsSo (program_of globals.now) options.now.root options.now.args options.now.steps (streams_seen I.left I.faults O.sent O.faults input.old input.new out.old out.new)) }
{
    let Ok(lowered) = lower(alloc, globals) else {
        return Err(Refusal::NoMemory);
    };
    let Ok(beginning) = begin(alloc, globals, &lowered, options) else {
        return Err(Refusal::NoMemory);
    };
    match beginning {
        None => Err(unfit(alloc, &options.root)),
        Some(begun) => run_begun(
            alloc, globals, names, resolution, &lowered, &begun, options, input, out,
        ),
    }
}
