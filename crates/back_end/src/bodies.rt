//! The bodies that may be inlined, by the names of their functions.
ghost use Rattle.std.specs.Prelude.{◌≡◌, All, IfOk, List, map, ℕ, OnOk, option_copied};
ghost use Rattle.ir_tree.specs.Wholes.{GlobalSound};
ghost use Rattle.back_end.specs.Inlinable.{AreSound, bodies_of, offered, or_else};
ghost use Rattle.back_end.specs.Walking.{bodies_in, named};

use crate::inlinable::may_inline;
use ir_tree::{Function, GlobalValue};
use std::alloc::{AllocError, Global};
use std::collections::HashMap;

/// The bodies that may be inlined. Functions are borrowed, and found in a table.
#[derive(Drop)]
pub struct Bodies<'a> {
    table: HashMap<&'a [u8], &'a Function>,
}

/// Puts the body of a global value into the table, if it may be inlined.
fn note<'a>(
    table: &mut HashMap<&'a [u8], &'a Function>,
    global: &'a GlobalValue,
    limit: u32,
) -> Result<(), AllocError>
    ensures { OnOk result ((name : List ℕ) → named table.new name ≡ or_else (offered limit global.entry.now name) (named table.old name)) }
{
    if let GlobalValue::Function(f) = global {
        if may_inline(f, limit) {
            table.insert(f.symbol.name.as_slice(), f)?;
        }
    }
    Ok(())
}

/// Puts the bodies of these global values into the table that may be inlined, of each name the first.
fn note_all<'a>(
    table: &mut HashMap<&'a [u8], &'a Function>,
    globals: &[&'a GlobalValue],
    limit: u32,
) -> Result<(), AllocError>
    ensures { OnOk result ((name : List ℕ) → named table.new name ≡ or_else (bodies_of limit (map (λ g. g.now) globals.entry.now) name) (named table.old name)) }
{
    let mut place = globals.len();
    while place > 0 {
        place -= 1;
        note(table, globals[place], limit)?;
    }
    Ok(())
}

impl<'a> Bodies<'a> {
    /// Those of the functions of these global values that may be inlined, of each name the first: defined here for good, neither
    /// `noinline` nor `optnone`, without a direct call of themselves, and of no more phis, instructions and terminators than the
    /// limit.
    pub fn of(
        alloc: Global,
        globals: &[&'a GlobalValue],
        limit: u32,
    ) -> Result<Bodies<'a>, AllocError>
        ensures bodies { IfOk result (λ b. bodies_in b ≡ bodies_of limit (map (λ g. g.now) globals.entry.now)) }
        ensures sound { IfOk result (λ b. All GlobalSound (map (λ g. g.now) globals.entry.now) → AreSound (bodies_in b)) }
    {
        let mut table = HashMap::new(alloc);
        note_all(&mut table, globals, limit)?;
        Ok(Bodies { table })
    }

    /// The function of this name, if its body may be inlined.
    pub(crate) fn named(&self, name: &[u8]) -> Option<&'a Function>
        ensures { option_copied result ≡ bodies_in self.now name.now }
    {
        match self.table.get(&name) {
            Some(f) => Some(*f),
            None => None,
        }
    }
}
