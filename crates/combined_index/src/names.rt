//! The names that symbols have in the linked module.
ghost use Rattle.std.specs.Prelude.{◌≡◌, None, slice_index_or, option_copied};

use ir_tree::{Rows, Text};
use std::marker::Model;

/// The final names of the live symbols, by their numbers in the index; `None` of a symbol that isn't
/// live.
#[derive(Drop)]
pub struct Names {
    names: Rows<Option<Text>>,
}

impl Model for Names {
    ghost use Rattle.std.specs.Prelude.{List, ℕ, Option};

    ghost Value = { List (Option (List ℕ)) };

    ghost view = { λ n. n.names };
}

impl Names {
    /// These names, one for each symbol.
    pub fn of(names: Rows<Option<Text>>) -> Names
        ensures { result ≡ names }
    {
        Names { names }
    }

    /// The names, by the numbers of symbols.
    pub fn as_slice(&self) -> &[Option<Text>]
        ensures { result.now ≡ self.now }
    {
        self.names.as_slice()
    }

    /// The final name of the symbol of this number; `None` of one that isn't live or isn't there.
    pub fn name_of(&self, symbol: u32) -> Option<&[u8]>
        ensures { option_copied result ≡ slice_index_or self.now symbol None }
    {
        match self.names.as_slice().get(symbol as usize) {
            Some(Some(name)) => Some(name.as_slice()),
            Some(None) | None => None,
        }
    }
}
