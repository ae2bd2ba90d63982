//! Modules as they are read.
ghost use Rattle.std.specs.Prelude.{◌≡◌};
ghost use Rattle.ir_tree.specs.Wholes.{IsParsed};

use crate::module::Module;
use crate::rows::Rows;
use std::marker::Model;

/// A module as it is read from a text, with lines beside it, counted from 1: for each global value in order those of its parts. Of a
/// variable that is the line on which it begins, of a function the lines on which its phis, instructions and terminators begin,
/// in the order of the text.
///
/// Its type keeps that functions and variables are formed, that each global name stands once, and that each one that is used is
/// there.
#[derive(Drop)]
pub struct Parsed {
    module: Module,
    lines: Rows<Rows<u32>>,
}

impl Model for Parsed {
    ghost use Rattle.std.specs.Prelude.{List, ℕ};
    ghost use Rattle.ir_tree.specs.declared.module.Module.{Module};
    ghost use Rattle.ir_tree.specs.contracts.shape.Shape as shape;
    ghost use Rattle.ir_tree.specs.contracts.init.Init as init;
    ghost use Rattle.std.specs.Coded.{codes};

    ghost Value = { Module × List (List ℕ) };

    ghost coded = { Prim.hlevel (codes, shape.the_row.coded, init.the_row.coded) };

    ghost use Rattle.ir_tree.specs.Wholes.{IsParsed};

    ghost view = { λ p. (p.module, p.lines) };

    ghost invariant = { λ p. IsParsed p.module p.lines };
}

impl Parsed {
    /// A module with its lines; takes no memory.
    pub fn of(tree: Module, lines: Rows<Rows<u32>>) -> Parsed
        requires { IsParsed tree lines }
        ensures { result ≡ (tree, lines) }
    {
        Parsed {
            module: tree,
            lines,
        }
    }

    /// The module.
    pub fn module(&self) -> &Module
        ensures module { result.now ≡ self.now.0 }
        ensures formed { IsParsed self.now.0 self.now.1 }
    {
        &self.module
    }

    /// The lines of each global value.
    pub fn lines(&self) -> &[Rows<u32>]
        ensures { result.now ≡ self.now.1 }
    {
        self.lines.as_slice()
    }

    /// The module and its lines, which are moved out.
    pub fn into_parts(self) -> (Module, Rows<Rows<u32>>)
        ensures parts { result ≡ self }
        ensures formed { IsParsed self.0 self.1 }
    {
        (self.module, self.lines)
    }
}
