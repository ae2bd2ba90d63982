//! The locals of a function and the numbers that they get (LangRef, "Identifiers": unnamed values
//! are numbered by one counter).
ghost use Rattle.std.specs.Prelude.{◌≡◌, false, ◌++◌, ◌∷◌, [], ◌+◌, ◌<◌, ◌≤◌, ◌^◌, ◌||◌, Ok, Some, None, option_map, option_copied, length};
ghost use Rattle.ir_parse_names.specs.Keys.{key_of, written, IsWritten};
ghost use Rattle.ir_parse_names.specs.KeyViews.{key};
ghost use Rattle.ir_parse_names.specs.Locals.{LocalTable, none_known, place_of, sort_of, stands, is_below, with_key, counted, with_definition, with_name, number_in, MayFollow};
ghost use Rattle.ir_parse_names.specs.Resolving.{ResolvesTo};

use crate::fault::{Fault, NameFault, ResolveError};
use crate::key::{Key, key_of};
use indexmap::IndexMap;
use ir_parse_parts::Name;
use std::alloc::Global;
use std::marker::Model;

/// What a local stands for: a value, or a block.
#[derive(Clone, Copy, Debug, PartialEq, Eq)]
pub enum Sort {
    Value,
    Block,
}

/// The counter behind a key.
fn counted(counter: u64, new_key: &Key) -> u64
    requires { counted counter (key new_key.now) < 2 ^ 64 }
    ensures { result ≡ counted counter (key new_key.now) }
{
    match new_key {
        Key::Spelled(_) => counter,
        Key::Written(n) => *n + 1,
    }
}

/// The definitions of a function so far, in the order of the text, and the counter. A number that is
/// written raises the counter to `2^32` at most, and a definition without a name by one.
#[derive(Drop)]
pub struct Locals<'t> {
    map: IndexMap<Key<'t>, Sort>,
    counter: u64,
}

impl<'t> Model for Locals<'t> {
    ghost use Rattle.ir_parse_names.specs.Locals.{LocalTable};
    ghost use Rattle.ir_parse_names.specs.LocalsViews.{definitions};

    ghost Value = { LocalTable };

    ghost view = { λ l. record { definitions = definitions l.map.entries; counter = l.counter } };

    ghost use Rattle.std.specs.Prelude.{◌+◌, ◌≤◌, ◌^◌, length};
    ghost use Rattle.ir_parse_names.specs.Locals.{AreBelow};

    ghost invariant = { λ l. AreBelow l.counter (definitions l.map.entries) × (l.counter ≤ 2 ^ 32 + length (definitions l.map.entries)) };
}

impl<'t> Locals<'t> {
    /// No definition; the counter is 0.
    pub fn new(alloc: Global) -> Locals<'t>
        ensures { result ≡ none_known }
    {
        Locals {
            map: IndexMap::new(alloc),
            counter: 0,
        }
    }

    /// The place of a key among the definitions, and its sort.
    fn place_of(&self, wanted: &Key<'t>) -> Option<(usize, Sort)>
        ensures place { option_map (λ p. p.0) result ≡ place_of self.now.definitions (key wanted.now) }
        ensures sort { option_map (λ p. p.1) result ≡ sort_of self.now.definitions (key wanted.now) }
    {
        match self.map.get_full(wanted) {
            None => None,
            Some((place, _, sort)) => Some((place, *sort)),
        }
    }

    /// One more definition, under a key that isn't there.
    fn push(&mut self, new_key: Key<'t>, sort: Sort) -> Result<(), ResolveError>
        requires free { stands self.old.definitions (key new_key) ≡ false }
        requires above { is_below self.old.counter (key new_key) ≡ false }
        requires next { MayFollow self.old.counter (key new_key) }
        ensures { ResolvesTo (λ _. self.new) result (Ok (with_key self.old (key new_key.entry) sort)) }
    {
        // there are fewer than 2^63 definitions, so the counter has room for one more
        let _known = self.map.len();
        let counter = counted(self.counter, &new_key);
        self.map.insert(new_key, sort)?;
        self.counter = counter;
        Ok(())
    }

    /// Whether a definition stands under a key.
    fn stands(&self, wanted: &Key<'t>) -> bool
        ensures { result ≡ stands self.now.definitions (key wanted.now) }
    {
        match self.place_of(wanted) {
            None => false,
            Some(_) => true,
        }
    }

    /// Whether a key is a number below the counter.
    fn is_below(&self, wanted: &Key<'t>) -> bool
        ensures { result ≡ is_below self.now.counter (key wanted.now) }
    {
        match wanted {
            Key::Spelled(_) => false,
            Key::Written(n) => *n < self.counter,
        }
    }

    /// A definition under a name on a line.
    fn define_as(&mut self, line: u32, wanted: Key<'t>, sort: Sort) -> Result<(), ResolveError>
        requires { IsWritten (key wanted) }
        ensures { ResolvesTo (λ _. self.new) result (with_definition self.old line (key wanted.entry) sort) }
    {
        if self.is_below(&wanted) || self.stands(&wanted) {
            return Err(ResolveError::Fault(Fault {
                line,
                kind: NameFault::Twice,
            }));
        }
        self.push(wanted, sort)
    }

    /// A definition without a name, which takes the counter.
    fn define_unnamed(&mut self, sort: Sort) -> Result<(), ResolveError>
        ensures { ResolvesTo (λ _. self.new) result (Ok (with_key self.old (written self.old.counter) sort)) }
    {
        let counter = self.counter;
        self.push(Key::Written(counter), sort)
    }

    /// One more definition, in the order of the text.
    pub fn define(
        &mut self,
        alloc: Global,
        name: Option<&'t Name>,
        sort: Sort,
    ) -> Result<(), ResolveError>
        ensures { ResolvesTo (λ _. self.new) result (with_name self.old (option_copied name.entry) sort) }
    {
        match name {
            None => self.define_unnamed(sort),
            Some(name) => {
                let wanted = key_of(alloc, name)?;
                self.define_as(name.line(), wanted, sort)
            }
        }
    }

    /// The number of what a name stands for, where that is of this sort.
    pub fn number_of(&self, alloc: Global, name: &Name, sort: Sort) -> Result<u32, ResolveError>
        ensures { ResolvesTo (λ n. n) result (number_in self.now sort name.now) }
    {
        let wanted = key_of(alloc, name)?;
        match self.place_of(&wanted) {
            Some((place, found)) if found == sort => match u32::try_from(place) {
                Ok(number) => Ok(number),
                Err(_) => Err(ResolveError::NoMemory),
            },
            _ => Err(ResolveError::Fault(Fault {
                line: name.line(),
                kind: NameFault::Unknown,
            })),
        }
    }
}
