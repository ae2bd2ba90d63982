//! The lines of a block while they are read.

ghost use Rattle.std.specs.Prelude.{◌≡◌, IfErr, OnOk};
ghost use Rattle.ir_tree.specs.declared.failure.Failure.TheVariants.{NoMemory};
ghost use Rattle.ir_parse_operands.specs.Listing.{put};

use crate::adding::push;
use ir_parse_parts::{Instr, Name, ReaderError, WrittenLine};

/// The lines of a block so far, and what stands before the next instruction: the name of its result,
/// where it has one, and the line of its first token.
///
/// The readers of instructions put them here, so that none is handed from reader to reader.
#[derive(Drop)]
pub struct Listing {
    pub lines: Vec<WrittenLine>,
    pub name: Option<Name>,
    pub line: u32,
}

impl Listing {
    /// Adds the line of this instruction. The name before it is used up.
    pub fn put(&mut self, instr: Instr) -> Result<(), ReaderError>
        ensures put { OnOk result (self.new.lines.items ≡ put self.old instr) }
        ensures memory { IfErr result (λ e. e ≡ NoMemory) }
    {
        let name = self.name.take();
        let line = self.line;
        push(&mut self.lines, WrittenLine { name, instr, line })
    }
}
