//! Tables by number.
ghost use Rattle.std.specs.Prelude.{◌≡◌, ◌<◌, ℕ, ◌++◌, ◌∷◌, [], List, length, slice_index_or, IfOk, None};
ghost use Rattle.ir_verify.specs.Tables.{Holds};

use std::alloc::{AllocError, Global};

/// What is known under each number. Numbers are dense in a module that was read, so a table takes memory in their count.
#[derive(Drop)]
pub struct Table<T> {
    pub entries: Vec<Option<T>>,
}

impl<T: Copy + Drop> Table<T> {
    /// Nothing under any number; takes no memory.
    pub fn new(alloc: Global) -> Table<T>
        ensures { Holds result.entries.items [] }
    {
        Table {
            entries: Vec::new(alloc),
        }
    }

    /// Makes room for a number.
    fn grow(&mut self, number: usize) -> Result<(), AllocError>
        ensures long { IfOk result (λ _. number < length self.new.entries.items) }
        ensures same { (x : ℕ) → slice_index_or self.new.entries.items x None ≡ slice_index_or self.old.entries.items x None }
    {
        while self.entries.len() <= number {
            self.entries.push(None)?;
        }
        Ok(())
    }

    /// Keeps a value under a number that has none yet.
    pub fn put(&mut self, number: u32, value: T) -> Result<(), AllocError>
        ensures { IfOk result (λ _. (pairs : List (ℕ × T)) → Holds self.old.entries.items pairs → Holds self.new.entries.items (pairs ++ (number, value) ∷ [])) }
    {
        let number = number as usize;
        self.grow(number)?;
        if self.entries[number].is_none() {
            self.entries[number] = Some(value);
        }
        Ok(())
    }

    /// What is kept under a number.
    pub fn get(&self, number: u32) -> Option<T>
        ensures { result ≡ slice_index_or self.now.entries.items number None }
    {
        let number = number as usize;
        if number < self.entries.len() {
            self.entries[number]
        } else {
            None
        }
    }
}
