//! What names types and globals in a module, and what has a shape.
ghost use Rattle.std.specs.Prelude.{◌≡◌, [], ◌++◌, OnOk};
ghost use Rattle.ir_parse_stages.specs.MarkViews.{standing, marks};

use ir_parse_parts::{Name, Steps, Typed};
use std::alloc::{AllocError, Global};
use std::marker::Model;

/// A place of a module that names a type or a global, or that has a shape.
#[derive(Clone, Copy)]
pub enum Mark<'t> {
    /// A type name that is defined, and its shape where it isn't opaque.
    TypeName(&'t Name, &'t Option<Typed>),
    /// A type name that is used.
    TypeUse(&'t Name),
    /// A shape. The names in it stand behind it.
    Shape(&'t Typed),
    /// The shape of an `alloca`, and how many of it. The names in it stand behind it.
    Alloca(&'t Typed, u64),
    /// A global that is defined or declared.
    Global(&'t Name),
    /// A global that is used.
    Symbol(&'t Name),
    /// A constant address. The names in its shapes stand behind it.
    Address(&'t Steps),
}

/// The marks of a module, in the order of its text.
#[derive(Drop)]
pub struct Marks<'t> {
    rows: Vec<Mark<'t>>,
}

impl<'t> Model for Marks<'t> {
    ghost use Rattle.std.specs.Prelude.{List};
    ghost use Rattle.ir_parse_names.specs.Marks.{Mark};
    ghost use Rattle.ir_parse_stages.specs.MarkCode.{mark_code};
    ghost use Rattle.std.specs.Coded.{coded_list};
    ghost use Rattle.ir_parse_parts.specs.ShapeCode.{code_from};
    ghost use Rattle.std.specs.Coded.{codes};

    ghost Value = { List Mark };

    ghost coded = { coded_list (mark_code (Prim.hlevel (codes, code_from (Prim.hlevel (codes))))) };

    ghost use Rattle.ir_parse_stages.specs.MarkViews.{marks};

    ghost view = { λ m. marks m.rows.items };
}

impl<'t> Marks<'t> {
    /// No mark.
    pub fn new(alloc: Global) -> Marks<'t>
        ensures { result ≡ [] }
    {
        Marks {
            rows: Vec::new(alloc),
        }
    }

    /// One more mark.
    pub fn push(&mut self, mark: Mark<'t>) -> Result<(), AllocError>
        ensures { OnOk result (self.new ≡ self.old ++ standing mark.entry) }
    {
        self.rows.push(mark)?;
        Ok(())
    }

    /// The marks.
    pub fn as_slice(&self) -> &[Mark<'t>]
        ensures { marks result.now ≡ self.now }
    {
        &self.rows
    }
}
