//! Whether the lines of code can run: whether widths, alignments, shapes and casts are those of sound
//! functions.
ghost use Rattle.std.specs.Prelude.{◌≡◌, ◌↔◌, ◌≤◌, All, IsTrue, ℕ};
ghost use Rattle.ir_machine.specs.Marks.{HasWidth};
ghost use Rattle.ir_interp.specs.Tasks.{CanCompute, CanRun, IsSoundCast};
ghost use Rattle.ir_interp.specs.Code.{IsRunnable};
ghost use Rattle.ir_interp.specs.Sound.{AreBlocksSound, AreSound, IsBodySound};
ghost use Rattle.ir_interp.specs.Steps.{CanBegin};

use crate::code::{Block, Code, Function};
use crate::extent::is_laid_out;
use crate::{CodeLine, Compute, Task, Typed};
use ir_tree::{CastOp, Reg};

/// Whether an integer has 1 to 64 bits.
fn is_width(width: u8) -> bool
    ensures { IsTrue result ↔ (1 ≤ width) × (width ≤ 64) }
{
    1 <= width && width <= 64
}

/// Whether a register may have a type.
fn has_width(reg: Reg) -> bool
    ensures { IsTrue result ↔ HasWidth reg }
{
    match reg {
        Reg::Int(width) => is_width(width),
        Reg::Ptr => true,
    }
}

/// Whether indices are of such types.
fn have_widths(indices: &[Typed]) -> bool
    ensures { IsTrue result ↔ All (λ i. HasWidth i.reg) indices.now }
{
    indices.iter().all(|index| has_width(index.reg))
}

/// Whether a cast goes the right way, where it is of integers.
fn is_sound_cast(op: CastOp, from: Reg, to: Reg) -> bool
    ensures { IsTrue result ↔ IsSoundCast op from to }
{
    match (from, to) {
        (Reg::Int(from), Reg::Int(to)) => {
            is_width(from) && is_width(to) && (matches!(op, CastOp::Trunc) || from <= to)
        }
        _ => true,
    }
}

/// Whether an instruction that gives a value can run.
fn can_compute(task: &Compute) -> bool
    ensures { IsTrue result ↔ CanCompute task.now }
{
    match task {
        Compute::Binary { width, .. } => is_width(*width),
        Compute::Compare { reg, .. } => has_width(*reg),
        Compute::Cast { op, from, to, .. } => is_sound_cast(*op, *from, *to),
        Compute::Select { .. } => true,
        Compute::Freeze { reg, .. } => has_width(*reg),
        Compute::Load { reg, align, .. } => has_width(*reg) && 1 <= *align,
        Compute::Address { shape, indices, .. } => is_laid_out(shape) && have_widths(indices),
        Compute::Poison => true,
    }
}

/// Whether an instruction can run.
fn can_run(task: &Task) -> bool
    ensures { IsTrue result ↔ CanRun task.now }
{
    match task {
        Task::Compute(task) => can_compute(task),
        Task::Reserve { .. } => true,
        Task::Store { reg, align, .. } => has_width(*reg) && 1 <= *align,
        Task::Call { .. } => true,
    }
}

/// Whether the lines of a block can run.
fn are_sound(lines: &[CodeLine]) -> bool
    ensures { IsTrue result ↔ AreSound lines.now }
{
    lines.iter().all(|line| can_run(&line.task))
}

/// Whether the lines of blocks can run.
fn are_blocks_sound(blocks: &[Block]) -> bool
    ensures { IsTrue result ↔ AreBlocksSound blocks.now }
{
    blocks.iter().all(|block| are_sound(&block.lines))
}

/// Whether the lines of a function can run, where one is defined.
fn is_body_sound(function: &Option<Function>) -> bool
    ensures { IsTrue result ↔ IsBodySound function.now }
{
    match function {
        Some(function) => are_blocks_sound(&function.blocks),
        None => true,
    }
}

/// Whether the lines of functions can run.
fn are_bodies_sound(functions: &[Option<Function>]) -> bool
    ensures { IsTrue result ↔ All IsBodySound functions.now }
{
    functions.iter().all(|function| is_body_sound(function))
}

impl<'a> Code<'a> {
    /// Whether each line can run: its widths are 1 to 64, its alignment is at least 1, its shape is laid out in
    /// at most 2^31 bytes, and its cast goes the right way. Linear in the code.
    pub fn can_run(&self) -> bool
        ensures { IsTrue result ↔ IsRunnable self.now }
    {
        are_bodies_sound(&self.functions)
    }

    /// Whether the function of an index is defined, and takes so many arguments.
    pub fn can_begin(&self, root: u32, count: usize) -> bool
        ensures { IsTrue result ↔ CanBegin self.now root count }
    {
        match self.function(root) {
            Some(function) => function.params.len() == count,
            None => false,
        }
    }
}
