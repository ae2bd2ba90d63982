//! Comparison of pointers (LangRef, "`icmp` Instruction").
ghost use Rattle.std.specs.Prelude.{◌≡◌, ◌<◌, ℕ, Bool, ◌&&◌, if◌then◌else◌, List, length};
ghost use Rattle.ir_tree.specs.declared.operand.Symbol.{Symbol};
ghost use Rattle.ir_meaning.specs.Memory.{Memory as MeantMemory};
ghost use Rattle.ir_meaning.specs.Pointers as pointers;
ghost use Rattle.ir_meaning.specs.declared.value.Base.TheVariants.{Cell, Code, Nowhere};
ghost use Rattle.ir_machine.specs.Meant.{base_meant, meant, symbol_at};
ghost use Rattle.ir_machine.specs.Memories.{Stands, IsBase, IsHandle, IsScalar};
ghost use Rattle.ir_machine.specs.Names.{AreDistinct, IsNamed, IsNamedScalar};

use crate::memory::Memory;
use crate::scalar::{Base, Handle, Pointer, Scalar};
use ir_tree::Predicate;

impl Memory {
    /// Whether the block of a handle lives, and the offset is in it or at its end.
    pub fn is_at(&self, handle: Handle, offset: u64) -> bool
        ensures { (names : List Symbol) (memory : MeantMemory) → Stands names self.now memory → IsHandle self.now memory handle → result ≡ pointers.is_at memory handle.number offset }
    {
        if self.lives(handle) {
            offset <= handle.size
        } else {
            false
        }
    }

    /// Whether the block of a handle lives, and the offset is one of its bytes'.
    pub fn is_inside(&self, handle: Handle, offset: u64) -> bool
        ensures { (names : List Symbol) (memory : MeantMemory) → Stands names self.now memory → IsHandle self.now memory handle → result ≡ pointers.is_inside memory handle.number offset }
    {
        if self.lives(handle) {
            offset < handle.size
        } else {
            false
        }
    }

    /// Whether two pointers into blocks are equal, where that is settled.
    fn equal_blocks(&self, left: Handle, i: u64, right: Handle, j: u64) -> Option<bool>
        ensures { (names : List Symbol) (memory : MeantMemory) → Stands names self.now memory → IsHandle self.now memory left → IsHandle self.now memory right → result ≡ pointers.settled_equal memory (Cell left.number) i (Cell right.number) j }
    {
        if left.number == right.number {
            return Some(i == j);
        }
        let first = self.is_inside(left, i);
        let second = self.is_inside(right, j);
        unequal_if(first, second)
    }

    /// Whether null at an offset and a pointer into a block are equal, where that is settled.
    fn equal_null(&self, i: u64, block: Handle, j: u64) -> Option<bool>
        ensures { (names : List Symbol) (memory : MeantMemory) → Stands names self.now memory → IsHandle self.now memory block → result ≡ pointers.settled_equal memory Nowhere i (Cell block.number) j }
    {
        let at = self.is_at(block, j);
        unequal_if(i == 0, at)
    }

    /// Whether a pointer into a block and null at an offset are equal, where that is settled.
    fn null_equal(&self, block: Handle, i: u64, j: u64) -> Option<bool>
        ensures { (names : List Symbol) (memory : MeantMemory) → Stands names self.now memory → IsHandle self.now memory block → result ≡ pointers.settled_equal memory (Cell block.number) i Nowhere j }
    {
        let at = self.is_at(block, i);
        unequal_if(j == 0, at)
    }

    /// Whether two pointers are equal, where that is settled.
    fn equal(&self, left: Pointer, right: Pointer) -> Option<bool>
        ensures { (names : List Symbol) (memory : MeantMemory) → AreDistinct names → Stands names self.now memory → IsBase self.now memory left.base → IsBase self.now memory right.base → IsNamed names left.base → IsNamed names right.base → result ≡ pointers.settled_equal memory (base_meant names left.base) left.offset (base_meant names right.base) right.offset }
    {
        match (left.base, right.base) {
            (Base::Null, Base::Null) => Some(left.offset == right.offset),
            (Base::Null, Base::Function(_)) => unequal_if(left.offset == 0, right.offset == 0),
            (Base::Null, Base::Block(block)) => self.equal_null(left.offset, block, right.offset),
            (Base::Function(_), Base::Null) => unequal_if(left.offset == 0, right.offset == 0),
            (Base::Function(f), Base::Function(g)) => {
                equal_functions(f, left.offset, g, right.offset)
            }
            (Base::Function(_), Base::Block(_)) => None,
            (Base::Block(block), Base::Null) => self.null_equal(block, left.offset, right.offset),
            (Base::Block(_), Base::Function(_)) => None,
            (Base::Block(first), Base::Block(second)) => {
                self.equal_blocks(first, left.offset, second, right.offset)
            }
        }
    }

    /// Whether two pointers are based on one live block, and each is in it or at its end.
    fn are_ordered(&self, left: Pointer, right: Pointer) -> bool
        ensures { (names : List Symbol) (memory : MeantMemory) (order : ℕ → ℕ → Bool) → Stands names self.now memory → IsBase self.now memory left.base → IsBase self.now memory right.base → pointers.settled_order memory order (base_meant names left.base) left.offset (base_meant names right.base) right.offset ≡ (if result then Some (order left.offset right.offset) else None) }
    {
        match (left.base, right.base) {
            (Base::Block(first), Base::Block(second)) => {
                let one = self.is_at(first, left.offset);
                let other = self.is_at(first, right.offset);
                all(first.number == second.number, one, other)
            }
            _ => false,
        }
    }

    /// Whether a predicate holds of two pointers, where that is settled.
    fn settled(&self, predicate: Predicate, left: Pointer, right: Pointer) -> Option<bool>
        ensures { (names : List Symbol) (memory : MeantMemory) → AreDistinct names → Stands names self.now memory → IsBase self.now memory left.base → IsBase self.now memory right.base → IsNamed names left.base → IsNamed names right.base → result ≡ pointers.settled memory predicate (base_meant names left.base) left.offset (base_meant names right.base) right.offset }
    {
        match predicate {
            Predicate::Eq => self.equal(left, right),
            Predicate::Ne => negated(self.equal(left, right)),
            Predicate::Ult => when(self.are_ordered(left, right), left.offset < right.offset),
            Predicate::Ule => when(self.are_ordered(left, right), left.offset <= right.offset),
            Predicate::Ugt => when(self.are_ordered(left, right), right.offset < left.offset),
            Predicate::Uge => when(self.are_ordered(left, right), right.offset <= left.offset),
            _ => None,
        }
    }

    /// A comparison of pointers. What the meaning leaves open is the free choice, modulo 2; of poison or a
    /// number it is poison.
    pub fn compare_pointers(
        &self,
        predicate: Predicate,
        left: Scalar,
        right: Scalar,
        choice: u64,
    ) -> Scalar
        ensures { (names : List Symbol) (memory : MeantMemory) → AreDistinct names → Stands names self.now memory → IsScalar self.now memory left → IsScalar self.now memory right → IsNamedScalar names left → IsNamedScalar names right → meant names result ≡ pointers.compared_pointers memory predicate (meant names left) (meant names right) choice }
    {
        match (left, right) {
            (Scalar::Pointer(left), Scalar::Pointer(right)) => {
                chosen(self.settled(predicate, left, right), choice)
            }
            _ => Scalar::Poison,
        }
    }
}

/// The other truth value, where there is one.
fn negated(holds: Option<bool>) -> Option<bool>
    ensures { result ≡ pointers.negated holds }
{
    match holds {
        Some(holds) => Some(!holds),
        None => None,
    }
}

/// A truth value under a condition.
fn when(condition: bool, holds: bool) -> Option<bool>
    ensures { result ≡ (if condition then Some holds else None) }
{
    if condition { Some(holds) } else { None }
}

/// What is settled, or else the free choice.
fn chosen(settled: Option<bool>, choice: u64) -> Scalar
    ensures { (names : List Symbol) → meant names result ≡ pointers.chosen settled choice }
{
    match settled {
        Some(true) => Scalar::Number(1),
        Some(false) => Scalar::Number(0),
        None => Scalar::Number(choice % 2),
    }
}

/// Unequal under two conditions, and else not settled.
fn unequal_if(first: bool, second: bool) -> Option<bool>
    ensures { result ≡ pointers.unequal_if (first && second) }
{
    if first && second { Some(false) } else { None }
}

/// Whether three conditions hold.
fn all(first: bool, second: bool, third: bool) -> bool
    ensures { result ≡ (first && (second && third)) }
{
    first && second && third
}

/// Whether two pointers to functions are equal, where that is settled.
fn equal_functions(f: u32, i: u64, g: u32, j: u64) -> Option<bool>
    ensures { (names : List Symbol) (memory : MeantMemory) → AreDistinct names → f < length names → g < length names → result ≡ pointers.settled_equal memory (Code (symbol_at names f)) i (Code (symbol_at names g)) j }
{
    if f == g {
        return Some(i == j);
    }
    unequal_if(i == 0, j == 0)
}
