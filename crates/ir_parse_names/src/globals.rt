//! The names of globals (LangRef, "Identifiers", "Global Variables" and "Functions").
ghost use Rattle.std.specs.Prelude.{◌≡◌, ◌+◌, ◌≤◌, ◌^◌, ◌++◌, ◌∷◌, [], false, Ok, IfOk};
ghost use Rattle.std.specs.Cow.{cow_slice_items};
ghost use Rattle.ir_parse_names.specs.Globals.{no_globals, has_name, is_low, counted_by, with_global};
ghost use Rattle.ir_parse_names.specs.Symbols.{symbol_name};
ghost use Rattle.ir_parse_names.specs.Resolving.{ResolvesTo};

use crate::fault::{Fault, NameFault, ResolveError};
use crate::key::number_of;
use crate::name_set::NameSet;
use crate::number::is_numeral;
use crate::symbol::trimmed;
use ir_parse_parts::Name;
use std::alloc::{AllocError, Global};
use std::borrow::CowSlice;
use std::marker::Model;

/// The globals that are defined or declared so far, in the order of the text, and the counter.
#[derive(Drop)]
pub struct Globals<'t> {
    names: NameSet<'t>,
    counter: u64,
}

impl<'t> Model for Globals<'t> {
    ghost use Rattle.std.specs.Prelude.{◌≤◌, ◌^◌};
    ghost use Rattle.ir_parse_names.specs.Globals as globals;

    ghost Value = { globals.Globals };

    ghost view = { λ g. record { names = g.names; counter = g.counter } };

    ghost invariant = { λ g. g.counter ≤ 2 ^ 32 };
}

/// The bytes of a global's name, borrowed where they are written without a backslash.
#[tactic(auto, unfolding(crate::specs::Symbols::symbol_name))]
pub fn name_of<'t>(alloc: Global, name: &'t Name) -> Result<CowSlice<'t, u8, Global>, AllocError>
    ensures { IfOk result (λ c. cow_slice_items c ≡ symbol_name name.now) }
{
    let digits = name.token().bare();
    if is_numeral(digits) {
        Ok(CowSlice::Borrowed(trimmed(digits)))
    } else {
        name.token().content(alloc)
    }
}

/// The counter behind a name, which a number raises.
fn counted_by(counter: u64, number: Option<u32>) -> u64
    requires { counter ≤ 2 ^ 32 }
    ensures next { result ≡ counted_by counter number }
    ensures within { result ≤ 2 ^ 32 }
{
    match number {
        None => counter,
        Some(n) => u64::from(n) + 1,
    }
}

impl<'t> Globals<'t> {
    /// No name; the counter is 0.
    pub fn new(alloc: Global) -> Globals<'t>
        ensures { result ≡ no_globals }
    {
        Globals {
            names: NameSet::new(alloc),
            counter: 0,
        }
    }

    /// Whether a name is a number below the counter.
    fn is_low(&self, number: Option<u32>) -> bool
        ensures { result ≡ is_low self.now.counter number }
    {
        match number {
            None => false,
            Some(n) => u64::from(n) < self.counter,
        }
    }

    /// One more name, which isn't there.
    fn push(
        &mut self,
        wanted: CowSlice<'t, u8, Global>,
        number: Option<u32>,
    ) -> Result<(), ResolveError>
        requires { has_name self.old.names (cow_slice_items wanted) ≡ false }
        ensures { ResolvesTo (λ _. self.new) result (Ok (record { names = self.old.names ++ cow_slice_items wanted.entry ∷ []; counter = counted_by self.old.counter number })) }
    {
        let counter = counted_by(self.counter, number);
        self.names.push(wanted)?;
        self.counter = counter;
        Ok(())
    }

    /// One more definition or declaration, in the order of the text.
    pub fn define(&mut self, alloc: Global, name: &'t Name) -> Result<(), ResolveError>
        ensures { ResolvesTo (λ _. self.new) result (with_global self.old name.now) }
    {
        let wanted = name_of(alloc, name)?;
        let number = number_of(name);
        if self.is_low(number) || self.names.contains(&wanted) {
            return Err(ResolveError::Fault(Fault {
                line: name.line(),
                kind: NameFault::Twice,
            }));
        }
        self.push(wanted, number)
    }
}
