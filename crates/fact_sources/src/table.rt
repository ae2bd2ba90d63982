//! Operands by the numbers of locals.
ghost use Rattle.std.specs.Prelude.{◌≡◌, ◌<◌, ℕ, true, None, Some, nat_eq, if◌then◌else◌, length, option_map, OnOk};
ghost use Rattle.fact_sources.specs.Tables.{row_in};

use ir_tree::Operand;
use std::alloc::{AllocError, Global};

/// What stands for locals: a row for each number up to the greatest that has something, so that a look-up is one step, and
/// locals of near numbers lie near.
#[derive(Drop)]
pub(crate) struct Table<'a> {
    rows: Vec<Option<&'a Operand>>,
}

impl<'a> Table<'a> {
    /// Nothing for any local.
    pub(crate) fn new(alloc: Global) -> Self
        ensures { (x : ℕ) → row_in result x ≡ None }
    {
        Table {
            rows: Vec::new(alloc),
        }
    }

    /// What stands for a local.
    pub(crate) fn get(&self, local: u32) -> Option<&'a Operand>
        ensures { option_map (λ o. o.now) result ≡ row_in self.now local }
    {
        match self.rows.get(local as usize) {
            Some(row) => *row,
            None => None,
        }
    }

    /// Whether it is seen that nothing stands for any local.
    pub(crate) fn is_empty(&self) -> bool
        ensures { result ≡ true → (x : ℕ) → row_in self.now x ≡ None }
    {
        let count = self.rows.len();
        if count == 0 {
            return true;
        }
        false
    }

    /// Makes rows up to this place.
    fn reach(&mut self, place: usize) -> Result<(), AllocError>
        requires { place < 4294967296 }
        ensures kept { OnOk result ((x : ℕ) → row_in self.new x ≡ row_in self.old x) }
        ensures there { OnOk result (place < length self.new.rows.items) }
    {
        let count = self.rows.len();
        if place < count {
            return Ok(());
        }
        self.rows.resize(place + 1, None)?;
        Ok(())
    }

    /// Puts an operand in the place of what stood for a local.
    pub(crate) fn put(&mut self, local: u32, operand: &'a Operand) -> Result<(), AllocError>
        ensures { OnOk result ((x : ℕ) → row_in self.new x ≡ (if nat_eq local x then Some operand.entry.now else row_in self.old x)) }
    {
        let place = local as usize;
        self.reach(place)?;
        self.rows[place] = Some(operand);
        Ok(())
    }
}
