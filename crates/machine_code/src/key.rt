//! What a symbol is known by in its table.
ghost use Rattle.std.specs.Prelude.{◌≡◌};
ghost use Rattle.machine_code.specs.MemoryAddresses.{key_symbol};

use ir_tree::Symbol;

/// A symbol whose name is borrowed.
#[derive(Clone, Copy, PartialEq, Eq, Hash)]
pub struct Key<'a> {
    pub home: Option<u32>,
    pub name: &'a [u8],
}

impl<'a> Key<'a> {
    /// Of a symbol.
    pub fn of(symbol: &'a Symbol) -> Key<'a>
        ensures { key_symbol result ≡ symbol.entry.now }
    {
        Key {
            home: symbol.home,
            name: symbol.name.as_slice(),
        }
    }
}
