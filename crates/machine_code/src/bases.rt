//! What the addresses of symbols are based on (LangRef, "Module Structure", "Functions", "Global Variables").
ghost use Rattle.std.specs.Prelude.{◌≡◌, ℕ, ◌<◌, All, IfOk, OnOk};
ghost use Rattle.ir_tree.specs.Formed.{Distinct};
ghost use Rattle.ir_tree.specs.Wholes.{symbols};
ghost use Rattle.ir_tree.specs.declared.operand.Symbol.{Symbol};
ghost use Rattle.ir_meaning.specs.Programs.{behind, defined, undefined_kind};
ghost use Rattle.machine_code.specs.MemoryAddresses.{IsFrom, address_at, base_in, constant_in, key_symbol};
ghost use Rattle.machine_code.specs.Tables.{IsGlobalLaidOut, IsTable, base_at, base_of, is_outside, noted};

use crate::key::Key;
use ir_machine::{Base, Handle, Pointer, Scalar};
use ir_meaning::{defined_blocks, defined_init, symbol_of};
use ir_tree::{GlobalValue, Operand, Symbol, size_of};
use std::alloc::{AllocError, Global};
use std::collections::HashMap;

/// A symbol table: what the address of each symbol is based on. What has no address isn't there.
#[derive(Drop)]
pub struct Bases<'a> {
    pub by_symbol: HashMap<Key<'a>, Base>,
}

/// Whether a symbol that isn't defined names a function of the outside.
fn is_outside(symbol: &Symbol) -> bool
    ensures { result ≡ is_outside (undefined_kind symbol.now.home symbol.now.name) }
{
    match symbol.home {
        Some(_) => false,
        None => {
            if symbol.name.equals(b"putchar") {
                true
            } else {
                symbol.name.equals(b"getchar")
            }
        }
    }
}

/// What the address of a symbol that isn't defined is based on.
fn undefined_base(symbol: &Symbol, index: u32) -> Option<Base>
    ensures { (size : ℕ) → result ≡ base_of index (undefined_kind symbol.now.home symbol.now.name) size }
{
    if is_outside(symbol) {
        Some(Base::Function(index))
    } else {
        None
    }
}

/// What the address of a global value's symbol is based on, by its index in the table of symbols; a variable that is
/// defined has this number.
fn base(global: &GlobalValue, index: u32, number: usize) -> Option<Base>
    requires { IsGlobalLaidOut global.now }
    ensures { result ≡ base_at index number global.now }
{
    match global {
        GlobalValue::Function(function) => {
            let count = defined_blocks(function).len();
            if count == 0 {
                undefined_base(&function.symbol, index)
            } else {
                Some(Base::Function(index))
            }
        }
        GlobalValue::Variable(variable) => match defined_init(variable) {
            Some(_) => {
                let size = size_of(&variable.shape);
                Some(Base::Block(Handle {
                    number,
                    position: number,
                    size,
                }))
            }
            None => undefined_base(&variable.symbol, index),
        },
    }
}

/// The number of the next variable behind a global value, before which it is this.
fn next_number(number: usize, global: &GlobalValue) -> usize
    requires { number < usize.MAX }
    ensures { result ≡ behind number (defined number global.now) }
{
    match global {
        GlobalValue::Function(_) => number,
        GlobalValue::Variable(variable) => match defined_init(variable) {
            Some(_) => number + 1,
            None => number,
        },
    }
}

impl<'a> Bases<'a> {
    /// Notes what the address of a symbol is based on, where it has one.
    fn note(&mut self, key: Key<'a>, base: Option<Base>) -> Result<(), AllocError>
        ensures { OnOk result ((s : Symbol) → base_in self.new s ≡ noted (key_symbol key.entry) base s (base_in self.old s)) }
    {
        let Some(base) = base else {
            return Ok(());
        };
        self.by_symbol.insert(key, base)?;
        Ok(())
    }

    /// The symbol table of global values, none of whose symbols stands twice, by one pass. Time and memory are linear in their
    /// number.
    ///
    /// Beside want of memory, `2^32` global values or more are refused as too many for it.
    pub fn of(alloc: Global, globals: &'a [GlobalValue]) -> Result<Bases<'a>, AllocError>
        requires { All IsGlobalLaidOut globals.now }
        ensures { IfOk result (λ t. Distinct (symbols globals.entry.now) → IsTable globals.entry.now t) }
    {
        if globals.len() > 0xFFFF_FFFF {
            return Err(AllocError);
        }
        let mut bases = Bases {
            by_symbol: HashMap::new(alloc),
        };
        let mut number: usize = 0;
        for index in 0..globals.len() {
            let global = &globals[index];
            let made = base(global, index as u32, number);
            bases.note(Key::of(symbol_of(global)), made)?;
            number = next_number(number, global);
        }
        Ok(bases)
    }

    /// What the address of a symbol is based on, where it has one.
    pub fn get(&self, key: Key<'_>) -> Option<Base>
        ensures { result ≡ base_in self.now (key_symbol key.entry) }
    {
        match self.by_symbol.get(&key) {
            Some(base) => Some(*base),
            None => None,
        }
    }

    /// The address of a symbol at an offset in bytes, or poison where it has none.
    pub fn address(&self, symbol: &Symbol, offset: u64) -> Scalar
        ensures { result ≡ address_at (base_in self.now symbol.now) offset }
    {
        match self.get(Key::of(symbol)) {
            Some(base) => Scalar::Pointer(Pointer { base, offset }),
            None => Scalar::Poison,
        }
    }

    /// The value of a constant; a local is none, and counts as poison.
    pub(crate) fn constant(&self, operand: &Operand) -> Scalar
        ensures value { result ≡ constant_in self.now operand.now }
        ensures from { IsFrom self.now result }
    {
        match operand {
            Operand::Local(_) => Scalar::Poison,
            Operand::Number { bits, .. } => Scalar::Number(*bits),
            Operand::Null => Scalar::Pointer(Pointer {
                base: Base::Null,
                offset: 0,
            }),
            Operand::Poison(_) => Scalar::Poison,
            Operand::Symbol { symbol, offset } => self.address(symbol, *offset),
        }
    }
}
