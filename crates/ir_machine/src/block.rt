//! Live blocks of memory (LangRef, "load" and "store Instruction").
ghost use Rattle.std.specs.Prelude.{◌≡◌, ◌≤◌, ◌<◌, ◌^◌, List, Some, OnOk, IfOk, OnErr};
ghost use Rattle.ir_tree.specs.declared.operand.Symbol.{Symbol};
ghost use Rattle.ir_meaning.specs.Access.{load_from};
ghost use Rattle.ir_meaning.specs.Bytes as meaning;
ghost use Rattle.ir_machine.specs.Marks.{HasWidth};
ghost use Rattle.ir_machine.specs.Meant.{answered, meant};
ghost use Rattle.ir_machine.specs.Blocks.{block_meant, refused, IsStored};
ghost use Rattle.ir_machine.specs.Origins.{HoldsNoMore, IsHeld};

use crate::bytes::Bytes;
use crate::outcome::Outcome;
use crate::scalar::Scalar;
use ir_tree::{Cause, Reg};
use std::alloc::AllocError;

/// A block that lives: its number among all blocks that were ever made, its alignment in bytes, its
/// bytes, and whether it is no `constant`.
#[derive(Drop)]
pub struct Block {
    pub number: usize,
    pub align: u64,
    pub bytes: Bytes,
    pub writable: bool,
}

/// What a store did.
#[derive(Clone, Copy, Debug)]
pub enum Stored {
    Done,
    Undefined(Cause),
}

/// The bytes of a scalar.
pub(crate) fn reg_size(reg: Reg) -> usize
    ensures { result ≡ meaning.reg_size reg }
{
    match reg {
        Reg::Int(width) => usize::from(width / 8),
        Reg::Ptr => 8,
    }
}

impl Block {
    /// Why an access of `size` bytes of an alignment is undefined, if it is.
    fn refusal(&self, size: usize, offset: u64, align: u64) -> Option<Cause>
        requires { 1 ≤ align }
        ensures { (names : List Symbol) → result ≡ refused (block_meant names self.now) offset size align }
    {
        let len = self.bytes.len();
        if len < size || offset > (len - size) as u64 {
            return Some(Cause::OutOfBounds);
        }
        if self.align % align == 0 && offset % align == 0 {
            None
        } else {
            Some(Cause::Misaligned)
        }
    }

    /// Loads a value of a type from an offset in bytes.
    pub fn load(&self, reg: Reg, offset: u64, align: u64) -> Outcome
        requires width { HasWidth reg }
        requires aligned { 1 ≤ align }
        ensures value { (names : List Symbol) → answered names result ≡ load_from (Some (block_meant names self.now)) reg offset align }
        ensures held { IsHeld self.now.bytes result }
    {
        match self.refusal(reg_size(reg), offset, align) {
            Some(cause) => Outcome::Undefined(cause),
            None => self.bytes.load(reg, offset as usize),
        }
    }

    /// Stores a value of a type at an offset in bytes. Where the store is undefined, or memory is refused,
    /// the block is as before.
    pub fn store(
        &mut self,
        reg: Reg,
        value: Scalar,
        offset: u64,
        align: u64,
    ) -> Result<Stored, AllocError>
        requires width { HasWidth reg }
        requires aligned { 1 ≤ align }
        ensures ok { IfOk result (λ done. (names : List Symbol) → IsStored (block_meant names self.old) reg (meant names value) offset align (block_meant names self.new) done) }
        ensures err { OnErr result ((names : List Symbol) → block_meant names self.new ≡ block_meant names self.old) }
        ensures number { self.new.number ≡ self.old.number }
        ensures held { HoldsNoMore self.old.bytes value self.new.bytes }
    {
        if !self.writable {
            return Ok(Stored::Undefined(Cause::StoreToConstant));
        }
        match self.refusal(reg_size(reg), offset, align) {
            Some(cause) => Ok(Stored::Undefined(cause)),
            None => {
                self.bytes.store(reg, value, offset as usize)?;
                Ok(Stored::Done)
            }
        }
    }
}
