//! Address computation over registers (LangRef, "getelementptr Instruction").
ghost use Rattle.std.specs.Prelude.{◌≡◌, All, List};
ghost use Rattle.ir_tree.specs.declared.operand.Symbol.{Symbol};
ghost use Rattle.ir_tree.specs.Layout.{IsLaidOut};
ghost use Rattle.ir_meaning.specs.Address.{address_of, pointer_or_poison};
ghost use Rattle.ir_meaning.specs.Frame.{Locals, index_of};
ghost use Rattle.ir_meaning.specs.Memory.{Memory as MeantMemory, object_size};
ghost use Rattle.ir_machine.specs.Marks.{HasWidth};
ghost use Rattle.ir_machine.specs.Meant.{base_meant, meant};
ghost use Rattle.ir_machine.specs.Memories.{IsBase};
ghost use Rattle.ir_machine.specs.Names.{IsNamed};
ghost use Rattle.ir_machine.specs.declared.memory.Memory.{Memory};
ghost use Rattle.ir_interp.specs.Locals.{AreKnown, AreLocals, IsKnown, IsValid, source_meant};
ghost use Rattle.ir_interp.specs.Tasks.{indices_meant, offset_by};

use crate::registers::Registers;
use crate::source::{Source, Typed};
use ir_machine::{Base, Pointer, Scalar, Walk, bits};
use ir_tree::{Reg, Shape};
use lto_bits::widen;

/// The size in bytes of what a base is; a dead block keeps its size.
fn object_size(base: Base) -> u64
    ensures { (names : List Symbol) (m : Memory) (memory : MeantMemory) → IsBase m memory base → result ≡ object_size memory (base_meant names base) }
{
    match base {
        Base::Null | Base::Function(_) => 0,
        Base::Block(handle) => handle.size,
    }
}

/// An index as a signed number; None where it is poison.
fn index_of(reg: Reg, value: Scalar) -> Option<i64>
    requires width { HasWidth reg }
    ensures { (names : List Symbol) → result ≡ index_of reg (meant names value) }
{
    match reg {
        Reg::Int(width) => {
            let number = bits(width, value)?;
            let signed = widen(true, width, 64, number).cast_signed();
            Some(signed)
        }
        Reg::Ptr => None,
    }
}

/// A pointer of this base, or poison.
fn pointer_or_poison(base: Base, offset: Option<u64>) -> Scalar
    ensures value { (names : List Symbol) → meant names result ≡ pointer_or_poison (base_meant names base) offset }
    ensures valid { (names : List Symbol) (m : Memory) (memory : MeantMemory) → IsBase m memory base → IsNamed names base → IsValid names m memory result }
{
    match offset {
        Some(offset) => Scalar::Pointer(Pointer { base, offset }),
        None => Scalar::Poison,
    }
}

impl Registers {
    /// The offset to which indices lead from an offset of an object of `size` bytes; None where it is
    /// poison.
    fn offset_by(
        &self,
        inbounds: bool,
        shape: &Shape,
        size: u64,
        offset: u64,
        indices: &[Typed],
    ) -> Option<u64>
        requires laid { IsLaidOut shape.now }
        requires typed { All (λ i. HasWidth i.reg) indices.now }
        ensures { (names : List Symbol) (m : Memory) (memory : MeantMemory) (locals : Locals) → AreLocals names m memory self.now locals → AreKnown names m memory indices.now → result ≡ offset_by inbounds shape.now size offset (indices_meant names locals indices.now) }
    {
        let mut walk = Walk::new(size, offset, shape);
        for index in indices {
            let number = index_of(index.reg, self.value(index.source))?;
            walk = walk.index(number);
        }
        walk.end(inbounds)
    }

    /// The address to which indices lead from a base.
    pub(crate) fn address(
        &self,
        inbounds: bool,
        shape: &Shape,
        base: Source,
        indices: &[Typed],
    ) -> Scalar
        requires laid { IsLaidOut shape.now }
        requires typed { All (λ i. HasWidth i.reg) indices.now }
        ensures value { (names : List Symbol) (m : Memory) (memory : MeantMemory) (locals : Locals) → AreLocals names m memory self.now locals → IsKnown names m memory base → AreKnown names m memory indices.now → meant names result ≡ address_of memory inbounds shape.now (source_meant names locals base) (indices_meant names locals indices.now) }
        ensures valid { (names : List Symbol) (m : Memory) (memory : MeantMemory) (locals : Locals) → AreLocals names m memory self.now locals → IsKnown names m memory base → IsValid names m memory result }
    {
        let Scalar::Pointer(pointer) = self.value(base) else {
            return Scalar::Poison;
        };
        let size = object_size(pointer.base);
        let offset = self.offset_by(inbounds, shape, size, pointer.offset, indices);
        pointer_or_poison(pointer.base, offset)
    }
}
