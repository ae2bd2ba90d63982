//! The back end of a link.
ghost use Rattle.link_one.specs.TaskUnits.{HasVerifiedModules, IsTaskUnit};

use crate::task_unit::compiled;
use crate::writable::are_written;
use back_end::made_has_interface;
use back_pool::Backend;
use ir_tree::Rows;
use lto_task::{Piece, Task};
use std::alloc::{AllocError, Global};

/// The passes of the back end, by which each task is compiled.
pub(crate) struct Passes;

impl Backend for Passes {
    ghost makes = { IsTaskUnit };

    ghost takes = { HasVerifiedModules };

    fn compile(&self, alloc: Global, task: &Task) -> Result<Rows<Piece>, AllocError> {
        made_has_interface();
        let unit = compiled(alloc, task)?;
        are_written(unit.as_slice());
        Ok(unit)
    }
}
