//! Programs as the machine runs them.
ghost use Rattle.std.specs.Prelude.{◌≡◌, option_copied};

use crate::{CodeLine, Entity, Exit, Phi};

/// A basic block: its number in the function, how many phis, instructions and terminators of the
/// function stand before its first line, and then its parts over sources.
#[derive(Drop)]
pub struct Block<'a> {
    pub number: u32,
    pub before: u64,
    pub phis: Vec<Phi>,
    pub lines: Vec<CodeLine<'a>>,
    pub exit: Exit,
}

/// A function: the registers of its parameters, how many registers there is to be room for, and its blocks
/// in the order of the text, of which the first is entered.
#[derive(Drop)]
pub struct Function<'a> {
    pub params: Vec<u32>,
    pub registers: usize,
    pub blocks: Vec<Block<'a>>,
}

/// A program: for each symbol of a table, what it is for calls, and the function that it names, where one
/// is defined.
#[derive(Drop)]
pub struct Code<'a> {
    pub entities: Vec<Entity>,
    pub functions: Vec<Option<Function<'a>>>,
}

impl<'a> Code<'a> {
    ghost use Rattle.ir_interp.specs.Code.{block_of, function_of};

    /// The function of a symbol by its index in the table.
    pub fn function(&self, index: u32) -> Option<&Function<'a>>
        ensures { option_copied result ≡ function_of self.now index }
    {
        match self.functions.get(index as usize) {
            Some(function) => function.as_ref(),
            None => None,
        }
    }

    /// The block at a position of a function.
    pub fn block(&self, function: u32, position: usize) -> Option<&Block<'a>>
        ensures { option_copied result ≡ block_of self.now function position }
    {
        match self.function(function) {
            Some(function) => function.blocks.get(position),
            None => None,
        }
    }
}
