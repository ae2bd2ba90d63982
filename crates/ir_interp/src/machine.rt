//! The machine and its steps.
ghost use Rattle.std.specs.Prelude.{◌≡◌, ◌+◌, ◌<◌, ◌∷◌, ◌++◌, [], ℕ, List, Option, length, map, Some, IfOk, OnErr, vec_len, vec_capacity};
ghost use Rattle.ir_tree.specs.declared.operand.Symbol.{Symbol};
ghost use Rattle.ir_meaning.specs.Frame.{Frame as MeantFrame};
ghost use Rattle.ir_meaning.specs.Memory.{Memory as MeantMemory};
ghost use Rattle.ir_meaning.specs.Program.{Next, Program, State, place_of};
ghost use Rattle.ir_machine.specs.Meant.{symbol_at};
ghost use Rattle.ir_machine.specs.Names.{AreDistinct};
ghost use Rattle.ir_machine.specs.declared.scalar.Scalar.TheVariants.{Number};
ghost use Rattle.ir_interp.specs.Locals.{IsMemory};
ghost use Rattle.ir_interp.specs.Code.{IsCode, IsRunnable, Knows};
ghost use Rattle.ir_interp.specs.Frames.{IsStanding};
ghost use Rattle.ir_interp.specs.Steps.{CanBegin, HasBegun, IsAt, IsRunning, IsStep, IsStepped, WentBack, place_meant};

use crate::act::act;
use crate::code::Code;
use crate::frame::{Did, Frame};
use crate::open::open;
use crate::step_end::{StepEnd, StepPlace};
use ir_machine::{Memory, Scalar};
use std::alloc::{AllocError, Global};
use std::mem::replace;

/// A run of a program: its code, the topmost frame and those that wait below it, the memory, room to take
/// phis in, and how the run has ended, if it has.
#[derive(Drop)]
pub struct Machine<'c, 'a> {
    pub code: &'c Code<'a>,
    pub top: Frame,
    pub below: Vec<Frame>,
    pub memory: Memory,
    pub values: Vec<Scalar>,
    pub ended: Option<StepEnd>,
}

/// Where a frame is.
fn place_in(code: &Code, frame: &Frame) -> StepPlace
    ensures { (names : List Symbol) (p : Program) (d : MeantFrame) → IsCode names p code.now → frame.now.function < length names → p.code (symbol_at names frame.now.function) ≡ Some d.function → IsStanding d.function.blocks d frame.now.block frame.now.line → place_meant names result ≡ place_of d }
{
    let function = frame.function;
    match code.block(function, frame.block) {
        Some(block) => StepPlace {
            function,
            instruction: block
                .before
                .saturating_add(frame.line as u64)
                .saturating_add(1),
        },
        None => StepPlace {
            function,
            instruction: 0,
        },
    }
}

/// The values of numbers.
fn values_of(alloc: Global, numbers: &[u64]) -> Result<Vec<Scalar>, AllocError>
    ensures { IfOk result (λ values. values.items ≡ map Number numbers.now) }
{
    let mut values = Vec::with_capacity(alloc, numbers.len())?;
    for number in numbers {
        values.push(Scalar::Number(*number))?;
    }
    Ok(values)
}

impl<'c, 'a> Machine<'c, 'a> {
    /// Ends the run.
    fn end(&mut self, end: StepEnd) -> StepEnd
        ensures value { result ≡ end }
        ensures ended { self.new.ended ≡ Some end }
        ensures code { self.new.code.now ≡ self.old.code.now }
    {
        self.ended = Some(end);
        end
    }

    /// Enters a function above the topmost frame, which waits; there is room for it.
    fn enter(&mut self, callee: Frame) -> StepEnd
        requires { vec_len self.old.below < vec_capacity self.old.below }
        ensures value { result ≡ StepEnd.Going }
        ensures top { self.new.top ≡ callee }
        ensures below { self.new.below.items ≡ self.old.below.items ++ self.old.top ∷ [] }
        ensures memory { self.new.memory ≡ self.old.memory }
        ensures code { self.new.code.now ≡ self.old.code.now }
        ensures ended { self.new.ended ≡ self.old.ended }
    {
        let waiting = replace(&mut self.top, callee);
        let _ = self.below.push(waiting);
        StepEnd::Going
    }

    /// Goes back to the frame that waits below, with an answer, or ends the run where none waits.
    fn go_back(&mut self, answer: Option<Scalar>) -> StepEnd
        ensures went { (names : List Symbol) (p : Program) (memory : MeantMemory) (numbers : List ℕ) (d : MeantFrame) (ds : List MeantFrame) → WentBack names p memory numbers d ds answer self.old self.new result }
        ensures over { self.old.below.items ≡ [] → (result ≡ StepEnd.Returned answer) × (self.new.ended ≡ Some (StepEnd.Returned answer)) }
        ensures code { self.new.code.now ≡ self.old.code.now }
    {
        match self.below.pop() {
            Some(waiting) => {
                self.top = waiting;
                self.top.resume(answer);
                StepEnd::Going
            }
            None => self.end(StepEnd::Returned(answer)),
        }
    }

    /// A step of a run that isn't over.
    fn go_on(
        &mut self,
        alloc: Global,
        choice: u64,
        given: Option<Option<u8>>,
    ) -> Result<StepEnd, AllocError>
        requires { IsRunnable self.old.code.now }
        ensures ok { IfOk result (λ end. (names : List Symbol) (p : Program) (s : State) → IsRunning names p self.old s → IsStep names p s choice given self.new end) }
        ensures err { OnErr result ((names : List Symbol) (p : Program) (s : State) → IsRunning names p self.old s → IsRunning names p self.new s) }
        ensures code { self.new.code.now ≡ self.old.code.now }
    {
        self.below.reserve(1)?;
        let did = act(
            alloc,
            &mut self.top,
            self.code,
            &mut self.memory,
            &mut self.values,
            choice,
            given,
        )?;
        match did {
            Did::Went => Ok(StepEnd::Going),
            Did::Wrote(byte) => Ok(StepEnd::Wrote(byte)),
            Did::Wants => Ok(StepEnd::Wants),
            Did::Enters(callee) => Ok(self.enter(callee)),
            Did::Gives(answer) => Ok(self.go_back(answer)),
            Did::Undefined(cause) => {
                let place = place_in(self.code, &self.top);
                Ok(self.end(StepEnd::Undefined(cause, place)))
            }
            Did::Uninit => {
                let place = place_in(self.code, &self.top);
                Ok(self.end(StepEnd::Uninit(place)))
            }
        }
    }

    /// The run of a function of the code, by the index of its symbol, over memory with the program's variables.
    pub fn new(
        alloc: Global,
        code: &'c Code<'a>,
        memory: Memory,
        root: u32,
        arguments: &[u64],
    ) -> Result<Machine<'c, 'a>, AllocError>
        requires { CanBegin code.now root (length arguments.now) }
        ensures begun { IfOk result (λ machine. (names : List Symbol) (p : Program) → AreDistinct names → IsCode names p code.now → Knows names code.now memory p.opening → IsMemory names memory p.opening → HasBegun names p root arguments.now machine) }
        ensures code { IfOk result (λ machine. machine.code.now ≡ code.now) }
    {
        let mut values = values_of(alloc, arguments)?;
        match open(alloc, code, root, &mut values, memory.blocks.len())? {
            Some(top) => Ok(Machine {
                code,
                top,
                below: Vec::new(alloc),
                memory,
                values,
                ended: None,
            }),
            None => Err(AllocError),
        }
    }

    /// One step: an instruction or a terminator, with this answer to a free choice.
    ///
    /// `given` is what the input has next, `Some(None)` its end; without it a `getchar` is `Wants`, and
    /// nothing is done. A run that is over is told again. Where memory is refused, the machine is in the state in
    /// which it was.
    pub fn step(
        &mut self,
        alloc: Global,
        choice: u64,
        given: Option<Option<u8>>,
    ) -> Result<StepEnd, AllocError>
        requires { IsRunnable self.old.code.now }
        ensures ok { IfOk result (λ end. (names : List Symbol) (p : Program) (next : Next) → IsAt names p self.old next → IsStepped names p next choice given self.new end) }
        ensures err { OnErr result ((names : List Symbol) (p : Program) (next : Next) → IsAt names p self.old next → IsAt names p self.new next) }
        ensures code { self.new.code.now ≡ self.old.code.now }
    {
        match self.ended {
            Some(end) => Ok(end),
            None => self.go_on(alloc, choice, given),
        }
    }
}
