//! The end of a frame's stack blocks (LangRef, "`alloca` Instruction").
ghost use Rattle.std.specs.Prelude.{◌≡◌, ◌≤◌, ℕ, List, length};
ghost use Rattle.ir_tree.specs.declared.operand.Symbol.{Symbol};
ghost use Rattle.ir_meaning.specs.Memory.{Memory as MeantMemory, kill};
ghost use Rattle.ir_machine.specs.Memories.{KeepsHandles, numbers_of};
ghost use Rattle.ir_interp.specs.Locals.{IsMemory};
ghost use Rattle.ir_interp.specs.Slots.{AreLast};

use ir_machine::Memory;

/// Ends the lives of the `count` blocks that were made last of those that live: a frame's, where they
/// are its own.
pub fn end_slots(memory: &mut Memory, count: usize)
    requires { count ≤ length memory.old.blocks.items }
    ensures { (names : List Symbol) (meaning : MeantMemory) (slots front : List ℕ) → IsMemory names memory.old meaning → length slots ≡ count → AreLast (numbers_of memory.old.blocks.items) slots front → IsMemory names memory.new (kill slots meaning) × KeepsHandles memory.old meaning memory.new (kill slots meaning) × (numbers_of memory.new.blocks.items ≡ front) }
{
    let mut left = count;
    while left > 0 {
        memory.pop();
        left -= 1;
    }
}
