//! The bytes of an initialiser (LangRef, "Global Variables", "Complex Constants", "Data Layout").
//!
//! They are written from the front into zeros, so padding is passed over.
ghost use Rattle.std.specs.Prelude.{◌≡◌, ◌≤◌, ◌+◌, ◌∷◌, ◌++◌, ℕ, [], List, length, map, reverse, IfOk, OnOk};
ghost use Rattle.ir_tree.specs.Fits.{Fits};
ghost use Rattle.ir_tree.specs.Layout as layout;
ghost use Rattle.ir_tree.specs.declared.operand.Symbol.{Symbol};
ghost use Rattle.ir_meaning.specs.Bytes as meaning;
ghost use Rattle.ir_meaning.specs.declared.value.Byte.TheVariants.{Plain};
ghost use Rattle.ir_machine.specs.Bytes.{bytes_len, bytes_meant};
ghost use Rattle.ir_machine.specs.Marks.{HasWidth};
ghost use Rattle.ir_machine.specs.Meant.{meant};
ghost use Rattle.ir_meaning.specs.Constants.{initial_bytes, scalar_bytes, zero_bytes};
ghost use Rattle.machine_code.specs.MemoryAddresses.{HoldsFrom, IsFrom, KeepsFrom, value_in};
ghost use Rattle.machine_code.specs.Images.{Takes, Wrote, head_bytes, open_behind, opened_by, part_bytes};
ghost use Rattle.machine_code.specs.declared.bases.Bases.{Bases as Table};

use crate::bases::Bases;
use crate::open::Open;
use ir_machine::{Bytes, Scalar};
use ir_tree::{Init, InitHead, InitPart, Reg, Shape, ShapeNode, size_of};
use std::alloc::{AllocError, Global};

/// Bytes of which `place` are written and the others are zero, and the aggregates that are open, the innermost last.
#[derive(Drop)]
pub struct Image {
    pub bytes: Bytes,
    pub place: usize,
    pub opens: Vec<Open>,
}

impl Image {
    /// Passes over zeros.
    fn skip(&mut self, count: usize)
        requires { self.old.place + count ≤ bytes_len self.old.bytes }
        ensures wrote { Wrote self.old (λ names. zero_bytes count) self.new }
        ensures place { self.new.place ≡ self.old.place + count }
        ensures bytes { self.new.bytes ≡ self.old.bytes }
        ensures opens { self.new.opens ≡ self.old.opens }
    {
        self.place += count;
    }

    /// Writes a value of a type of `size` bytes.
    fn put(&mut self, reg: Reg, size: usize, value: Scalar) -> Result<(), AllocError>
        requires width { HasWidth reg }
        requires size { size ≡ meaning.reg_size reg }
        requires room { self.old.place + size ≤ bytes_len self.old.bytes }
        ensures wrote { OnOk result (Wrote self.old (λ names. meaning.stored_bytes reg (meant names value)) self.new) }
        ensures holds { OnOk result ((t : Table) → IsFrom t value → KeepsFrom t self.old.bytes self.new.bytes) }
        ensures place { OnOk result (self.new.place ≡ self.old.place + size) }
        ensures opens { self.new.opens ≡ self.old.opens }
    {
        self.bytes.store(reg, value, self.place)?;
        self.place += size;
        Ok(())
    }

    /// Writes a byte.
    fn put_byte(&mut self, byte: u8) -> Result<(), AllocError>
        requires { self.old.place + 1 ≤ bytes_len self.old.bytes }
        ensures wrote { OnOk result (Wrote self.old (λ names. map Plain (byte ∷ [])) self.new) }
        ensures holds { OnOk result ((t : Table) → KeepsFrom t self.old.bytes self.new.bytes) }
        ensures place { OnOk result (self.new.place ≡ self.old.place + 1) }
        ensures opens { self.new.opens ≡ self.old.opens }
    {
        self.put(Reg::Int(8), 1, Scalar::Number(u64::from(byte)))
    }

    /// Writes a text.
    fn text(&mut self, text: &[u8]) -> Result<(), AllocError>
        requires { self.old.place + length text.now ≤ bytes_len self.old.bytes }
        ensures wrote { OnOk result (Wrote self.old (λ names. map Plain text.now) self.new) }
        ensures holds { OnOk result ((t : Table) → KeepsFrom t self.old.bytes self.new.bytes) }
        ensures opens { self.new.opens ≡ self.old.opens }
    {
        for byte in text {
            self.put_byte(*byte)?;
        }
        Ok(())
    }

    /// Writes a scalar, by its shape; no array or structure is one.
    fn scalar(&mut self, shape: &Shape, value: Scalar) -> Result<(), AllocError>
        requires laid { layout.IsLaidOut shape.now }
        requires room { self.old.place + length (scalar_bytes shape.now (meant [] value)) ≤ bytes_len self.old.bytes }
        ensures wrote { OnOk result (Wrote self.old (λ names. scalar_bytes shape.now (meant names value)) self.new) }
        ensures holds { OnOk result ((t : Table) → IsFrom t value → KeepsFrom t self.old.bytes self.new.bytes) }
        ensures opens { self.new.opens ≡ self.old.opens }
    {
        match shape.node() {
            ShapeNode::Int(width) => self.put(Reg::Int(*width), usize::from(*width / 8), value),
            ShapeNode::Ptr => self.put(Reg::Ptr, 8, value),
            ShapeNode::Array(..) | ShapeNode::Struct(..) => Ok(()),
        }
    }

    /// Opens an aggregate.
    fn enter(&mut self, aggregate: Open) -> Result<(), AllocError>
        ensures opens { OnOk result (self.new.opens.items ≡ self.old.opens.items ++ aggregate ∷ []) }
        ensures wrote { Wrote self.old (λ names. []) self.new }
        ensures bytes { self.new.bytes ≡ self.old.bytes }
        ensures place { self.new.place ≡ self.old.place }
    {
        self.opens.push(aggregate)?;
        Ok(())
    }

    /// The beginning of a value: writes the value where it has no parts, and opens the aggregate that it begins elsewhere.
    fn begin(&mut self, bases: &Bases<'_>, shape: &Shape, head: &InitHead) -> Result<(), AllocError>
        requires laid { layout.IsLaidOut shape.now }
        requires room { self.old.place + length (head_bytes (value_in bases.now []) shape.now head.now) ≤ bytes_len self.old.bytes }
        ensures wrote { OnOk result (Wrote self.old (λ names. head_bytes (value_in bases.now names) shape.now head.now) self.new) }
        ensures holds { OnOk result (KeepsFrom bases.now self.old.bytes self.new.bytes) }
        ensures opened { OnOk result (reverse self.new.opens.items ≡ opened_by shape.now head.now (reverse self.old.opens.items)) }
    {
        match head {
            InitHead::Plain(operand) => self.scalar(shape, bases.constant(operand)),
            InitHead::Zeros => {
                self.skip(size_of(shape) as usize);
                Ok(())
            }
            InitHead::Bytes(text) => self.text(text.as_slice()),
            InitHead::Array => self.enter(Open::Elements),
            InitHead::Struct { packed } => self.enter(Open::Members {
                packed: *packed,
                offset: 0,
                whole: size_of(shape),
            }),
        }
    }

    /// A part of the innermost aggregate with the padding before it, or the padding behind its last part.
    fn part(&mut self, bases: &Bases<'_>, part: &InitPart) -> Result<(), AllocError>
        requires takes { Takes (reverse self.old.opens.items) part.now }
        requires room { self.old.place + length (part_bytes (value_in bases.now []) (reverse self.old.opens.items) part.now) ≤ bytes_len self.old.bytes }
        ensures wrote { OnOk result (Wrote self.old (λ names. part_bytes (value_in bases.now names) (reverse self.old.opens.items) part.now) self.new) }
        ensures holds { OnOk result (KeepsFrom bases.now self.old.bytes self.new.bytes) }
        ensures opened { OnOk result (reverse self.new.opens.items ≡ open_behind (reverse self.old.opens.items) part.now) }
    {
        let Some(aggregate) = self.opens.pop() else {
            return Ok(());
        };
        match part {
            InitPart::Typed { shape, head } => {
                self.skip(aggregate.padding(shape) as usize);
                self.enter(aggregate.past(shape))?;
                self.begin(bases, shape, head)
            }
            InitPart::End => {
                self.skip(aggregate.left() as usize);
                Ok(())
            }
        }
    }
}

/// The bytes of an initialiser that fits a shape, where symbols have these addresses. Time is linear in the bytes, in the
/// initialiser and in the shapes that are written in it; what is open takes memory by the initialiser's depth.
pub(crate) fn bytes_of(
    alloc: Global,
    bases: &Bases<'_>,
    shape: &Shape,
    init: &Init,
) -> Result<Bytes, AllocError>
    requires laid { layout.IsLaidOut shape.now }
    requires fits { Fits shape.now init.now }
    ensures bytes { IfOk result (λ b. (names : List Symbol) → bytes_meant names b ≡ initial_bytes (value_in bases.now names) shape.now init.now) }
    ensures length { IfOk result (λ b. bytes_len b ≡ layout.size shape.now) }
    ensures holds { IfOk result (λ b. HoldsFrom bases.now b) }
{
    let (root, parts) = init.flat();
    let bytes = Bytes::zeros(alloc, size_of(shape) as usize)?;
    let mut image = Image {
        bytes,
        place: 0,
        opens: Vec::new(alloc),
    };
    image.begin(bases, shape, root)?;
    'each: for part in parts {
        image.part(bases, part)?;
    }
    Ok(image.bytes)
}
