//! What a link keeps of the merged program.
ghost use Rattle.std.specs.Prelude.{◌≡◌, length, IfOk};
ghost use Rattle.ir_tree.specs.declared.operand.Symbol.{Symbol};
ghost use Rattle.merge_meaning.specs.Lives.{is_live};
ghost use Rattle.merge_meaning.specs.Scopes.{keeps, key_symbol};

use combined_index::Live;
use ir_tree::{Symbol, Text};
use std::alloc::{AllocError, Global};
use std::collections::HashSet;

/// What a symbol is known by in a table; its name is borrowed.
#[derive(Clone, Copy, PartialEq, Eq, Hash)]
pub(crate) struct Key<'a> {
    pub home: Option<u32>,
    pub name: &'a [u8],
}

impl<'a> Key<'a> {
    /// Of a symbol.
    fn of(symbol: &'a Symbol) -> Key<'a>
        ensures { key_symbol result ≡ symbol.entry.now }
    {
        Key {
            home: symbol.home,
            name: symbol.name.as_slice(),
        }
    }
}

/// The symbols that a link keeps, found by home and name.
#[derive(Drop)]
pub struct LiveSymbols<'a> {
    set: HashSet<Key<'a>>,
}

impl<'a> LiveSymbols<'a> {
    /// Those of these symbols that are marked live, by their numbers in an index. Each is looked up once.
    pub fn of(
        alloc: Global,
        symbols: &'a [Symbol],
        live: &Live,
    ) -> Result<LiveSymbols<'a>, AllocError>
        requires { length live.now ≡ length symbols.now }
        ensures { IfOk result (λ set. (s : Symbol) → keeps set s ≡ is_live symbols.entry.now live.now s) }
    {
        let mut set = HashSet::new(alloc);
        for number in 0..live.size() {
            if live.has(number) {
                set.insert(Key::of(&symbols[number as usize]))?;
            }
        }
        Ok(LiveSymbols { set })
    }

    /// Whether the symbol is kept.
    pub(crate) fn has(&self, key: Key<'_>) -> bool
        ensures { result ≡ keeps self.now (key_symbol key.entry) }
    {
        self.set.contains(&key)
    }
}

/// What a link keeps, and the suffixes of the final names that it gives.
#[derive(Clone, Copy)]
pub(crate) struct Link<'a> {
    pub live: &'a LiveSymbols<'a>,
    pub suffixes: &'a [Text],
}
