//! Memory: the live blocks (LangRef, "Memory Model", "Object Lifetime" and "alloca Instruction").
ghost use Rattle.std.specs.Prelude.{◌≡◌, ◌≢◌, true, false, ◌≤◌, ℕ, List, IfSome, Some, None, OnOk, IfOk, OnErr, length, ◌<◌, ◌-◌, [], ◌∷◌, ◌++◌, option_copied};
ghost use Rattle.ir_tree.specs.declared.operand.Symbol.{Symbol};
ghost use Rattle.ir_meaning.specs.Access as access;
ghost use Rattle.ir_meaning.specs.Memory.{Memory as MeantMemory};
ghost use Rattle.ir_machine.specs.Marks.{HasWidth};
ghost use Rattle.ir_machine.specs.Meant.{answered, meant};
ghost use Rattle.ir_machine.specs.declared.block.Block.{Block};
ghost use Rattle.ir_machine.specs.Blocks.{block_meant, IsStored};
ghost use Rattle.ir_machine.specs.Memories.{block_at, Stands, GainsNone, GainsOnly, IsEnded, IsLoaded, IsScalar, IsMemoryStored, IsReserved, KeepsHandles, Replaced, numbers_of};

use crate::block::{Block, Stored};
use crate::bytes::Bytes;
use crate::outcome::Outcome;
use crate::scalar::{Base, Handle, Scalar};
use ir_tree::{Cause, Reg};
use std::alloc::{AllocError, Global};

/// The blocks that live, in the order in which they were made, and how many were ever made: first the
/// program's variables, then stack blocks. A block that dies leaves nothing but the handles to it.
#[derive(Drop)]
pub struct Memory {
    pub blocks: Vec<Block>,
    pub made: usize,
}

impl Memory {
    /// The live block of a handle.
    fn find(&self, handle: Handle) -> Option<&Block>
        ensures some { IfSome (option_copied result) (λ b. (block_at self.now handle.position ≡ Some b) × (b.number ≡ handle.number)) }
        ensures none { option_copied result ≡ None → (b : Block) → block_at self.now handle.position ≡ Some b → b.number ≢ handle.number }
    {
        match self.blocks.get(handle.position) {
            Some(block) if block.number == handle.number => Some(block),
            _ => None,
        }
    }

    /// Loads a value of a type from an address (LangRef, "`load` Instruction").
    pub fn load(&self, reg: Reg, address: Scalar, align: u64) -> Outcome
        requires width { HasWidth reg }
        requires aligned { 1 ≤ align }
        ensures value { (names : List Symbol) (memory : MeantMemory) → Stands names self.now memory → IsScalar self.now memory address → answered names result ≡ access.load memory reg (meant names address) align }
        ensures held { IsLoaded self.now result }
    {
        let Scalar::Pointer(pointer) = address else {
            return Outcome::Undefined(Cause::BadPointer);
        };
        let Base::Block(handle) = pointer.base else {
            return Outcome::Undefined(Cause::BadPointer);
        };
        match self.find(handle) {
            Some(block) => block.load(reg, pointer.offset, align),
            None => Outcome::Undefined(Cause::BadPointer),
        }
    }

    /// Stores at an offset of the block at a position.
    fn store_at(
        &mut self,
        position: usize,
        reg: Reg,
        value: Scalar,
        offset: u64,
        align: u64,
    ) -> Result<Stored, AllocError>
        requires width { HasWidth reg }
        requires aligned { 1 ≤ align }
        requires there { position < length self.old.blocks.items }
        ensures ok { IfOk result (λ done. (b : Block) × ((c : Block) × (Replaced self.old position b c self.new × ((names : List Symbol) → IsStored (block_meant names b) reg (meant names value) offset align (block_meant names c) done)))) }
        ensures err { OnErr result ((b : Block) × ((c : Block) × (Replaced self.old position b c self.new × ((names : List Symbol) → block_meant names c ≡ block_meant names b)))) }
        ensures held { GainsOnly self.old value self.new }
        ensures numbers { numbers_of self.new.blocks.items ≡ numbers_of self.old.blocks.items }
    {
        let stored = self.blocks[position].store(reg, value, offset, align)?;
        Ok(stored)
    }

    /// Whether the block of a handle lives.
    pub(crate) fn lives(&self, handle: Handle) -> bool
        ensures yes { result ≡ true → (b : Block) × ((block_at self.now handle.position ≡ Some b) × (b.number ≡ handle.number)) }
        ensures no { result ≡ false → (b : Block) → block_at self.now handle.position ≡ Some b → b.number ≢ handle.number }
    {
        if handle.position < self.blocks.len() {
            self.blocks[handle.position].number == handle.number
        } else {
            false
        }
    }

    /// Stores a value of a type at an address (LangRef, "`store` Instruction"). Where the store is undefined,
    /// or memory is refused, memory stands for what it stood for.
    pub fn store(
        &mut self,
        reg: Reg,
        value: Scalar,
        address: Scalar,
        align: u64,
    ) -> Result<Stored, AllocError>
        requires width { HasWidth reg }
        requires aligned { 1 ≤ align }
        ensures ok { IfOk result (λ done. (names : List Symbol) (memory : MeantMemory) → Stands names self.old memory → IsScalar self.old memory address → IsMemoryStored names self.old memory reg (meant names value) (meant names address) align self.new done) }
        ensures err { OnErr result ((names : List Symbol) (memory : MeantMemory) → Stands names self.old memory → Stands names self.new memory × KeepsHandles self.old memory self.new memory) }
        ensures held { GainsOnly self.old value self.new }
        ensures numbers { numbers_of self.new.blocks.items ≡ numbers_of self.old.blocks.items }
    {
        let Scalar::Pointer(pointer) = address else {
            return Ok(Stored::Undefined(Cause::BadPointer));
        };
        let Base::Block(handle) = pointer.base else {
            return Ok(Stored::Undefined(Cause::BadPointer));
        };
        if self.lives(handle) {
            let stored = self.store_at(handle.position, reg, value, pointer.offset, align)?;
            Ok(stored)
        } else {
            Ok(Stored::Undefined(Cause::BadPointer))
        }
    }

    /// Makes a stack block, which is unwritten and writable (LangRef, "`alloca` Instruction"). Where memory is
    /// refused no block is made. Blocks past the 2^64 - 1st are refused as memory.
    pub fn reserve(&mut self, alloc: Global, size: usize, align: u64) -> Result<Handle, AllocError>
        ensures ok { IfOk result (λ h. (names : List Symbol) (memory : MeantMemory) → Stands names self.old memory → IsReserved names self.old memory size align self.new h) }
        ensures err { OnErr result ((self.new.blocks.items ≡ self.old.blocks.items) × (self.new.made ≡ self.old.made)) }
        ensures held { GainsNone self.old self.new }
        ensures grown { IfOk result (λ h. (b : Block) × ((self.new.blocks.items ≡ self.old.blocks.items ++ b ∷ []) × (b.number ≡ h.number))) }
    {
        if self.made == usize::MAX {
            return Err(AllocError);
        }
        let bytes = Bytes::unset(alloc, size)?;
        let handle = Handle {
            number: self.made,
            position: self.blocks.len(),
            size: size as u64,
        };
        self.blocks.push(Block {
            number: handle.number,
            align,
            bytes,
            writable: true,
        })?;
        self.made += 1;
        Ok(handle)
    }

    /// Ends the life of the block that was made last of those that live.
    pub fn pop(&mut self)
        requires { 0 < length self.old.blocks.items }
        ensures ended { (names : List Symbol) (memory : MeantMemory) → Stands names self.old memory → (b : Block) × ((block_at self.old (length self.old.blocks.items - 1) ≡ Some b) × IsEnded names self.old memory b self.new) }
        ensures held { GainsNone self.old self.new }
        ensures last { (b : Block) → block_at self.old (length self.old.blocks.items - 1) ≡ Some b → self.old.blocks.items ≡ self.new.blocks.items ++ b ∷ [] }
    {
        let _ = self.blocks.pop();
    }
}
