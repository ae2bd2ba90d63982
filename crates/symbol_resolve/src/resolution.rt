//! The names of a link, each with the module whose definition prevails.
ghost use Rattle.std.specs.Prelude.{◌≡◌};
ghost use Rattle.symbol_resolve.specs.Listed.{settled};
ghost use Rattle.symbol_resolve.specs.Resolved.{module_of};

use crate::facts::{Facts, prevails};
use indexmap::IndexMap;
use std::marker::Model;

/// The names that modules declare or define for one another, in the order in which they are first
/// seen, each with the number of the module whose definition prevails; `None` where no module
/// defines it. Contracts see the list of pairs. Names are borrowed from the modules.
#[derive(Drop)]
pub struct Resolution<'a> {
    names: IndexMap<&'a [u8], Facts>,
}

impl<'a> Model for Resolution<'a> {
    ghost use Rattle.std.specs.Prelude.{List, ℕ, Option};
    ghost use Rattle.symbol_resolve.specs.Listed.{settled};

    ghost Value = { List (List ℕ × Option ℕ) };

    ghost view = { λ r. settled r.names.entries };
}

impl<'a> Resolution<'a> {
    /// By this table.
    pub(crate) fn of(names: IndexMap<&'a [u8], Facts>) -> Resolution<'a>
        ensures { result ≡ settled names.entry.entries }
    {
        Resolution { names }
    }

    /// The module whose definition of a name prevails; `None` where no module defines the name for
    /// others.
    pub fn module_of(&self, name: &[u8]) -> Option<u32>
        ensures { result ≡ module_of self.now name.now }
    {
        match self.names.get(&name) {
            Some(facts) => prevails(facts),
            None => None,
        }
    }
}
