//! The bytes of a block (LangRef, "Memory Model", "load" and "store Instruction").
ghost use Rattle.std.specs.Prelude.{◌≡◌, ◌≤◌, ◌+◌, ℕ, List, true, length, take, drop, replicate, IfOk, OnOk, OnErr};
ghost use Rattle.ir_tree.specs.declared.operand.Symbol.{Symbol};
ghost use Rattle.ir_tree.specs.declared.operand.Reg.TheVariants.{Int, Ptr};
ghost use Rattle.ir_meaning.specs.Access.{overwritten};
ghost use Rattle.ir_meaning.specs.Bytes.{fragments, number_bytes, pointer_bytes, read, reg_size, stored_bytes};
ghost use Rattle.ir_meaning.specs.declared.value.Byte.TheVariants.{Plain, Spoilt, Unset};
ghost use Rattle.ir_machine.specs.Meant.{answered, base_meant, meant};
ghost use Rattle.ir_machine.specs.Marks.{are_small, HasWidth};

use crate::mark::{
    ByteMark, any_spoilt, any_unset, number_in, parts_in_order, write_number, write_parts,
    write_poison,
};
use crate::operate::bits;
use crate::outcome::Outcome;
use crate::scalar::{Base, Pointer, Scalar};
use ir_tree::Reg;
use std::alloc::{AllocError, Global};
use std::collections::HashMap;

/// The bytes of a block: a mark each, and the pointers that are stored there, by the place of their first
/// part. A pointer that was overwritten in part stays until another is stored at its place.
#[derive(Drop)]
pub struct Bytes {
    marks: Vec<ByteMark>,
    pointers: HashMap<usize, Pointer>,
    ghost small: { are_small marks.items ≡ true },
}

impl Bytes {
    ghost use Rattle.ir_machine.specs.Bytes.{bytes_len, bytes_meant, pointer_at, pointer_in};
    ghost use Rattle.ir_machine.specs.Origins.{HoldsNoMore, HoldsNone, IsHeld};
    ghost use Rattle.ir_machine.specs.declared.scalar.Scalar.TheVariants as scalar;

    /// So many bytes that were never written.
    pub fn unset(alloc: Global, size: usize) -> Result<Bytes, AllocError>
        ensures bytes { IfOk result (λ b. (names : List Symbol) → bytes_meant names b ≡ replicate size Unset) }
        ensures length { IfOk result (λ b. bytes_len b ≡ size) }
        ensures empty { IfOk result (λ b. HoldsNone b) }
    {
        let mut marks = Vec::new(alloc);
        marks.resize(size, ByteMark::Unset)?;
        Ok(Bytes {
            marks,
            pointers: HashMap::new(alloc),
        })
    }

    /// So many bytes of zero.
    pub fn zeros(alloc: Global, size: usize) -> Result<Bytes, AllocError>
        ensures bytes { IfOk result (λ b. (names : List Symbol) → bytes_meant names b ≡ replicate size (Plain 0)) }
        ensures length { IfOk result (λ b. bytes_len b ≡ size) }
        ensures empty { IfOk result (λ b. HoldsNone b) }
    {
        let mut marks = Vec::new(alloc);
        marks.resize(size, ByteMark::Plain(0))?;
        Ok(Bytes {
            marks,
            pointers: HashMap::new(alloc),
        })
    }

    /// How many bytes there are.
    pub fn len(&self) -> usize
        ensures { result ≡ bytes_len self.now }
    {
        self.marks.len()
    }

    /// The pointer whose first part is at a place, or null.
    fn pointer_at(&self, place: usize) -> Pointer
        ensures { result ≡ pointer_at self.now place }
    {
        match self.pointers.get(&place) {
            Some(pointer) => *pointer,
            None => Pointer {
                base: Base::Null,
                offset: 0,
            },
        }
    }

    /// Eight bytes as a pointer, where none is unwritten or poison.
    fn pointer_in(&self, place: usize, window: &[ByteMark]) -> Scalar
        requires { length window.now ≤ 8 }
        ensures { result ≡ pointer_in (pointer_at self.now place) window.now }
    {
        if parts_in_order(window, 0) {
            return Scalar::Pointer(self.pointer_at(place));
        }
        match number_in(window) {
            Some(0) => Scalar::Pointer(Pointer {
                base: Base::Null,
                offset: 0,
            }),
            _ => Scalar::Poison,
        }
    }

    /// The integer that a part of the bytes is, which begins at a place.
    fn load_integer(&self, place: usize, size: usize) -> Outcome
        requires few { size ≤ 8 }
        requires within { place + size ≤ length self.now.marks.items }
        ensures value { (names : List Symbol) (w : ℕ) → answered names result ≡ read (Int w) (take size (drop place (bytes_meant names self.now))) }
        ensures held { IsHeld self.now result }
    {
        let window = &self.marks[place..place + size];
        match number_in(window) {
            Some(number) => Outcome::Value(Scalar::Number(number)),
            None => {
                if any_unset(window) {
                    Outcome::Uninit
                } else {
                    Outcome::Value(Scalar::Poison)
                }
            }
        }
    }

    /// The pointer that eight bytes are, of which the first is at a place.
    fn load_pointer(&self, place: usize) -> Outcome
        requires { place + 8 ≤ length self.now.marks.items }
        ensures value { (names : List Symbol) → answered names result ≡ read Ptr (take 8 (drop place (bytes_meant names self.now))) }
        ensures held { IsHeld self.now result }
    {
        let window = &self.marks[place..place + 8];
        if any_unset(window) {
            return Outcome::Uninit;
        }
        if any_spoilt(window) {
            return Outcome::Value(Scalar::Poison);
        }
        Outcome::Value(self.pointer_in(place, window))
    }

    /// Writes a number of `size` bytes at a place.
    fn store_number(&mut self, place: usize, size: usize, number: u64)
        requires { place + size ≤ length self.old.marks.items }
        ensures bytes { (names : List Symbol) → bytes_meant names self.new ≡ overwritten (bytes_meant names self.old) place (number_bytes size number) }
        ensures length { length self.new.marks.items ≡ length self.old.marks.items }
        ensures pointers { self.new.pointers ≡ self.old.pointers }
    {
        write_number(&mut self.marks, place, size, number);
    }

    /// Writes `size` bytes of poison at a place.
    fn store_poison(&mut self, place: usize, size: usize)
        requires { place + size ≤ length self.old.marks.items }
        ensures bytes { (names : List Symbol) → bytes_meant names self.new ≡ overwritten (bytes_meant names self.old) place (replicate size Spoilt) }
        ensures length { length self.new.marks.items ≡ length self.old.marks.items }
        ensures pointers { self.new.pointers ≡ self.old.pointers }
    {
        write_poison(&mut self.marks, place, size);
    }

    /// Writes a pointer that isn't null at a place. Where memory is refused the bytes are as before.
    fn store_parts(&mut self, place: usize, pointer: Pointer) -> Result<(), AllocError>
        requires { place + 8 ≤ length self.old.marks.items }
        ensures ok { OnOk result ((names : List Symbol) → bytes_meant names self.new ≡ overwritten (bytes_meant names self.old) place (fragments 8 0 (base_meant names pointer.base) pointer.offset)) }
        ensures err { OnErr result ((names : List Symbol) → bytes_meant names self.new ≡ bytes_meant names self.old) }
        ensures length { length self.new.marks.items ≡ length self.old.marks.items }
        ensures held { HoldsNoMore self.old (scalar.Pointer pointer) self.new }
    {
        self.pointers.insert(place, pointer)?;
        write_parts(&mut self.marks, place);
        Ok(())
    }

    /// The value of a type that a part of the bytes is, which begins at a place: poison or an uninitialised
    /// byte are found before anything else.
    pub fn load(&self, reg: Reg, place: usize) -> Outcome
        requires width { HasWidth reg }
        requires within { place + reg_size reg ≤ bytes_len self.now }
        ensures value { (names : List Symbol) → answered names result ≡ read reg (take (reg_size reg) (drop place (bytes_meant names self.now))) }
        ensures held { IsHeld self.now result }
    {
        match reg {
            Reg::Int(width) => self.load_integer(place, usize::from(width / 8)),
            Reg::Ptr => self.load_pointer(place),
        }
    }

    /// Stores a pointer at a place: null is eight zero bytes.
    fn store_pointer(&mut self, place: usize, pointer: Pointer) -> Result<(), AllocError>
        requires { place + 8 ≤ bytes_len self.old }
        ensures ok { OnOk result ((names : List Symbol) → bytes_meant names self.new ≡ overwritten (bytes_meant names self.old) place (pointer_bytes 8 (base_meant names pointer.base) pointer.offset)) }
        ensures err { OnErr result ((names : List Symbol) → bytes_meant names self.new ≡ bytes_meant names self.old) }
        ensures length { bytes_len self.new ≡ bytes_len self.old }
        ensures held { HoldsNoMore self.old (scalar.Pointer pointer) self.new }
    {
        match pointer.base {
            Base::Null if pointer.offset == 0 => {
                self.store_number(place, 8, 0);
                Ok(())
            }
            _ => self.store_parts(place, pointer),
        }
    }

    /// Stores a value of a type at a place. Where memory is refused the bytes are as before; it is taken
    /// for pointers alone.
    pub fn store(&mut self, reg: Reg, value: Scalar, place: usize) -> Result<(), AllocError>
        requires width { HasWidth reg }
        requires within { place + reg_size reg ≤ bytes_len self.old }
        ensures ok { OnOk result ((names : List Symbol) → bytes_meant names self.new ≡ overwritten (bytes_meant names self.old) place (stored_bytes reg (meant names value))) }
        ensures err { OnErr result ((names : List Symbol) → bytes_meant names self.new ≡ bytes_meant names self.old) }
        ensures length { bytes_len self.new ≡ bytes_len self.old }
        ensures held { HoldsNoMore self.old value self.new }
    {
        match (reg, value) {
            (Reg::Int(width), value) => {
                let size = usize::from(width / 8);
                match bits(width, value) {
                    Some(number) => self.store_number(place, size, number),
                    None => self.store_poison(place, size),
                }
                Ok(())
            }
            (Reg::Ptr, Scalar::Pointer(pointer)) => self.store_pointer(place, pointer),
            (Reg::Ptr, _) => {
                self.store_poison(place, 8);
                Ok(())
            }
        }
    }
}
