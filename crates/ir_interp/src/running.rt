//! Runs, step by step.
ghost use Rattle.std.specs.Prelude.{◌≡◌, ◌≤◌, ℕ, List, Some, drop, IfOk, IfErr, OnErr};
ghost use Rattle.std.specs.Io.KnownBytes.{Keeps};
ghost use Rattle.ir_tree.specs.declared.operand.Symbol.{Symbol};
ghost use Rattle.ir_meaning.specs.Program.{Program, State};
ghost use Rattle.ir_interp.specs.Code.{IsRunnable};
ghost use Rattle.ir_interp.specs.Steps.{IsRunning, WantsByte};
ghost use Rattle.ir_interp.specs.Runs.{HasFedPart, HasFedRun, HasLeft, HasRun, HasSentPart, IsBlamed};
ghost use Rattle.ir_interp.specs.Turns.{HasAdvanced, HasTurned, Leaves};

use crate::end::{RunEnd, RunFault};
use crate::{Machine, StepEnd};
use lto_outside::{ByteIn, ByteOut};
use std::alloc::Global;

/// Gives the machine the next byte of the input, or its end, and takes the step that asks for it.
fn feed<I: ByteIn>(alloc: Global, machine: &mut Machine, input: &mut I) -> Result<StepEnd, RunFault>
    requires { IsRunnable machine.old.code.now }
    ensures ok { IfOk result (λ end. (names : List Symbol) (p : Program) (s : State) → IsRunning names p machine.old s → WantsByte p s → HasAdvanced names p s (I.left input.old) (I.left input.new) machine.new end) }
    ensures left { IfErr result (λ why. (p : Program) (s : State) (bytes : List ℕ) → WantsByte p s → I.left input.old ≡ Some (drop s.place bytes) → HasLeft p s bytes 0 (I.left input.new) why) }
    ensures later { I.faults input.old ≤ I.faults input.new }
    ensures cause { IfErr result (IsBlamed (I.faults input.old) (I.faults input.new) 0 0) }
    ensures code { machine.new.code.now ≡ machine.old.code.now }
{
    let Ok(byte) = input.next() else {
        return Err(RunFault::In);
    };
    match machine.step(alloc, 0, Some(byte)) {
        Ok(end) => Ok(end),
        Err(_) => Err(RunFault::NoMemory),
    }
}

/// One step of a machine that runs, with the next byte of the input where it asks for one.
fn advance<I: ByteIn>(
    alloc: Global,
    machine: &mut Machine,
    input: &mut I,
) -> Result<StepEnd, RunFault>
    requires { IsRunnable machine.old.code.now }
    ensures ok { IfOk result (λ end. (names : List Symbol) (p : Program) (s : State) → IsRunning names p machine.old s → HasAdvanced names p s (I.left input.old) (I.left input.new) machine.new end) }
    ensures left { IfErr result (Leaves machine.old (I.left input.old) (I.left input.new)) }
    ensures later { I.faults input.old ≤ I.faults input.new }
    ensures cause { IfErr result (IsBlamed (I.faults input.old) (I.faults input.new) 0 0) }
    ensures code { machine.new.code.now ≡ machine.old.code.now }
{
    let Ok(end) = machine.step(alloc, 0, None) else {
        return Err(RunFault::NoMemory);
    };
    match end {
        StepEnd::Wants => feed(alloc, machine, input),
        _ => Ok(end),
    }
}

/// One turn of a run: a step, and what it wrote is sent. None where the run goes on.
fn turn<I: ByteIn, O: ByteOut>(
    alloc: Global,
    machine: &mut Machine,
    input: &mut I,
    out: &mut O,
) -> Result<Option<RunEnd>, RunFault>
    requires { IsRunnable machine.old.code.now }
    ensures ok { IfOk result (λ end. (names : List Symbol) (p : Program) (s : State) → IsRunning names p machine.old s → HasTurned names p s (I.left input.old) (I.left input.new) (O.sent out.old) (O.sent out.new) machine.new end) }
    ensures left { IfErr result (Leaves machine.old (I.left input.old) (I.left input.new)) }
    ensures kept { OnErr result (Keeps (O.sent out.old) (O.sent out.new)) }
    ensures inputs { I.faults input.old ≤ I.faults input.new }
    ensures outputs { O.faults out.old ≤ O.faults out.new }
    ensures cause { IfErr result (IsBlamed (I.faults input.old) (I.faults input.new) (O.faults out.old) (O.faults out.new)) }
    ensures code { machine.new.code.now ≡ machine.old.code.now }
{
    let end = advance(alloc, machine, input)?;
    match end {
        StepEnd::Going => Ok(None),
        StepEnd::Wants => Ok(None),
        StepEnd::Wrote(byte) => match out.push(byte) {
            Ok(()) => Ok(None),
            Err(_) => Err(RunFault::Out),
        },
        StepEnd::Returned(answer) => Ok(Some(RunEnd::Returned(answer))),
        StepEnd::Undefined(cause, place) => Ok(Some(RunEnd::Undefined(cause, place))),
        StepEnd::Uninit(place) => Ok(Some(RunEnd::Uninit(place))),
    }
}

/// Runs a machine for at most `budget` steps, the last one included.
///
/// Where the input tells what it has left, the run is the definition's over these bytes. Whatever it tells, the run is
/// one over what it gave: the definition's over all bytes that answer its reads so, and over any bytes where the
/// definition's reads nothing.
///
/// A run that is given up has taken from the input what its steps read, and where memory was refused to the step that was
/// given a byte, that byte too.
pub fn run<I: ByteIn, O: ByteOut>(
    alloc: Global,
    machine: &mut Machine,
    input: &mut I,
    out: &mut O,
    budget: u64,
) -> Result<RunEnd, RunFault>
    requires { IsRunnable machine.old.code.now }
    ensures ok { IfOk result (λ end. (names : List Symbol) (p : Program) (s : State) (bytes : List ℕ) → IsRunning names p machine.old s → I.left input.old ≡ Some (drop s.place bytes) → HasRun names p s bytes budget (I.left input.new) (O.sent out.old) (O.sent out.new) end) }
    ensures fed { IfOk result (λ end. (names : List Symbol) (p : Program) (s : State) → IsRunning names p machine.old s → HasFedRun names p s budget (O.sent out.old) (O.sent out.new) end) }
    ensures part { IfErr result (λ why. (names : List Symbol) (p : Program) (s : State) (bytes : List ℕ) → IsRunning names p machine.old s → I.left input.old ≡ Some (drop s.place bytes) → HasSentPart p s bytes budget why (I.left input.new) (O.sent out.old) (O.sent out.new)) }
    ensures fed_part { OnErr result ((names : List Symbol) (p : Program) (s : State) → IsRunning names p machine.old s → HasFedPart p s budget (O.sent out.old) (O.sent out.new)) }
    ensures inputs { I.faults input.old ≤ I.faults input.new }
    ensures outputs { O.faults out.old ≤ O.faults out.new }
    ensures cause { IfErr result (IsBlamed (I.faults input.old) (I.faults input.new) (O.faults out.old) (O.faults out.new)) }
    ensures code { machine.new.code.now ≡ machine.old.code.now }
{
    let mut left = budget;
    while left > 0 {
        left -= 1;
        match turn(alloc, machine, input, out)? {
            Some(end) => return Ok(end),
            None => {}
        }
    }
    Ok(RunEnd::OutOfSteps)
}
