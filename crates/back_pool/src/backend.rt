//! The back end of a pool.
ghost use Rattle.std.specs.Prelude.{List, IfOk};
ghost use Rattle.lto_task.specs.Tasks.{TaskView, task_view};
ghost use Rattle.lto_task.specs.Units.{IsUnit};
ghost use Rattle.lto_task.specs.declared.piece.Piece.{Piece};

use ir_tree::Rows;
use lto_task::{Piece, Task};
use std::alloc::{AllocError, Global};

/// What compiles a task.
pub trait Backend {
    /// These pieces are made of this task.
    ghost makes: { TaskView → List Piece → Type 0 };

    /// The task may be compiled.
    ghost takes: { TaskView → Type 0 };

    /// The unit of the task. Refused for memory alone.
    fn compile(&self, alloc: Global, task: &Task) -> Result<Rows<Piece>, AllocError>
        requires { takes (task_view task.now) }
        ensures { IfOk result (λ ps. IsUnit ps × makes (task_view task.now) ps) };
}
