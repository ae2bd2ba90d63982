//! Type names and what they stand for (LangRef, "Structure Type" and "Opaque Structure Types").
ghost use Rattle.std.specs.Prelude.{◌≡◌, ◌≤◌, ◌^◌, [], Some, None, option_copied, option_map, is_some, false, ◌++◌, ◌∷◌, Ok, length, IfOk, nat_le, if◌then◌else◌};
ghost use Rattle.ir_tree.specs.Layout.{IsLaidOut, AreLaidOut, size};
ghost use Rattle.ir_tree.specs.Forms.{structure, forms_of};
ghost use Rattle.ir_parse_names.specs.Keys.{key_of};
ghost use Rattle.ir_parse_names.specs.KeyViews.{key};
ghost use Rattle.ir_parse_names.specs.Locals.{unknown};
ghost use Rattle.ir_tree.specs.declared.failure.Failure.TheVariants as errors;
ghost use Rattle.ir_parse_names.specs.Resolving.{ResolvesTo};
ghost use Rattle.ir_parse_names.specs.TypeNames.{place_of};
ghost use Rattle.ir_parse_names.specs.Types.{entry_of, entry_in, shape_at, shape_in, head_from, chased, with_type, shape_if};

use crate::fault::{Fault, NameFault, ResolveError};
use crate::key::{Key, key_of};
use indexmap::IndexMap;
use ir_parse_parts::{Name, Typed, WrittenShape, WrittenShapeNode};
use std::alloc::Global;
use std::marker::Model;

/// The type names of a module with their shapes, in the order of the text.
#[derive(Drop)]
pub struct TypeNames<'t> {
    map: IndexMap<Key<'t>, Option<&'t WrittenShape>>,
}

impl<'t> Model for TypeNames<'t> {
    ghost use Rattle.std.specs.Prelude.{List, Option};
    ghost use Rattle.ir_parse_parts.specs.Shapes.{Written};
    ghost use Rattle.ir_parse_parts.specs.ShapeCode.{code_from};
    ghost use Rattle.std.specs.Coded.{codes};
    ghost use Rattle.ir_parse_names.specs.Keys.{Key};
    ghost use Rattle.ir_parse_names.specs.TypesViews.{types};

    ghost Value = { List (Key × Option Written) };

    ghost coded = { Prim.hlevel (codes, code_from (Prim.hlevel (codes))) };

    ghost view = { λ t. types t.map.entries };
}

impl<'t> TypeNames<'t> {
    /// No name.
    pub fn new(alloc: Global) -> TypeNames<'t>
        ensures { result ≡ [] }
    {
        TypeNames {
            map: IndexMap::new(alloc),
        }
    }

    /// One more type name, with its shape where it isn't opaque.
    pub fn define(
        &mut self,
        alloc: Global,
        name: &'t Name,
        shape: Option<&'t WrittenShape>,
    ) -> Result<(), ResolveError>
        ensures { ResolvesTo (λ _. self.new) result (with_type self.old name.now (option_copied shape.entry)) }
    {
        let wanted = key_of(alloc, name)?;
        if self.place_of(&wanted).is_some() {
            return Err(ResolveError::Fault(Fault {
                line: name.line(),
                kind: NameFault::Twice,
            }));
        }
        self.push(wanted, shape)
    }

    /// One more type name, where it isn't there.
    pub fn add(
        &mut self,
        alloc: Global,
        name: &'t Name,
        shape: Option<&'t WrittenShape>,
    ) -> Result<(), ResolveError>
        ensures { ResolvesTo (λ _. self.new) result (Ok (if is_some (entry_of self.old (key_of name.now)) then self.old else self.old ++ (key_of name.now, option_copied shape.entry) ∷ [])) }
    {
        let wanted = key_of(alloc, name)?;
        if self.place_of(&wanted).is_some() {
            return Ok(());
        }
        self.push(wanted, shape)
    }

    /// One more definition, under a key that isn't there.
    fn push(&mut self, wanted: Key<'t>, shape: Option<&'t WrittenShape>) -> Result<(), ResolveError>
        requires { is_some (entry_of self.old (key wanted)) ≡ false }
        ensures { ResolvesTo (λ _. self.new) result (Ok (self.old ++ (key wanted.entry, option_copied shape.entry) ∷ [])) }
    {
        self.map.insert(wanted, shape)?;
        Ok(())
    }

    /// How many names there are.
    pub fn len(&self) -> usize
        ensures { result ≡ length self.now }
    {
        self.map.len()
    }

    /// The place of a type name among the definitions.
    pub fn place_in(&self, alloc: Global, name: &Name) -> Result<usize, ResolveError>
        ensures { ResolvesTo (λ p. shape_at self.now p) result (entry_in self.now name.now) }
    {
        let wanted = key_of(alloc, name)?;
        match self.place_of(&wanted) {
            Some(place) => Ok(place),
            None => Err(unknown(name.line())),
        }
    }

    /// The place of a type name among the definitions, where it is there.
    pub fn place_of_name(&self, alloc: Global, name: &Name) -> Result<Option<usize>, ResolveError>
        ensures { ResolvesTo (λ p. p) result (Ok (place_of self.now (key_of name.now))) }
    {
        let wanted = key_of(alloc, name)?;
        Ok(self.place_of(&wanted))
    }

    /// What a type name that is used is defined as.
    pub fn shape_in(&self, alloc: Global, name: &Name) -> Result<&'t WrittenShape, ResolveError>
        ensures { ResolvesTo (λ s. s.now) result (shape_in self.now name.now) }
    {
        let place = self.place_in(alloc, name)?;
        match self.shape_at(place) {
            None => Err(unknown(name.line())),
            Some(shape) => Ok(shape),
        }
    }

    /// The place of a key among the definitions.
    fn place_of(&self, wanted: &Key<'t>) -> Option<usize>
        ensures place { result ≡ place_of self.now (key wanted.now) }
        ensures shape { option_map (λ p. shape_at self.now p) result ≡ entry_of self.now (key wanted.now) }
    {
        self.map.get_index_of(wanted)
    }

    /// What the definition at a place says.
    pub fn shape_at(&self, place: usize) -> Option<&'t WrittenShape>
        ensures { option_copied result ≡ shape_at self.now place }
    {
        match self.map.get_index(place) {
            None => None,
            Some((_, shape)) => *shape,
        }
    }

    /// The shape that a chain of names leads to, which comes to the definition at a place by a name
    /// on a line, and goes on by at most so many names.
    pub fn chase(
        &self,
        alloc: Global,
        first: usize,
        first_line: u32,
        most: usize,
    ) -> Result<&'t WrittenShape, ResolveError>
        ensures { ResolvesTo (λ s. s.now) result (chased most self.now first_line (shape_at self.now first)) }
    {
        let mut place = first;
        let mut line = first_line;
        let mut left = most;
        'each: loop {
            match self.shape_at(place) {
                None => return Err(unknown(line)),
                Some(shape) => match shape.node() {
                    WrittenShapeNode::Named(name) => {
                        if left == 0 {
                            return Err(unknown(name.line()));
                        }
                        place = self.place_in(alloc, name)?;
                        line = name.line();
                        left -= 1;
                    }
                    _ => return Ok(shape),
                },
            }
        }
    }
}

/// The shape of a type name that isn't opaque.
pub fn shape_if<'t>(typed: &'t Option<Typed>) -> Option<&'t WrittenShape>
    ensures { option_copied result ≡ shape_if typed.now }
{
    match typed {
        None => None,
        Some(typed) => Some(&typed.shape),
    }
}

/// The fault of an unknown name on a line.
pub fn unknown(line: u32) -> ResolveError
    ensures { result ≡ errors.Fault (unknown line) }
{
    ResolveError::Fault(Fault {
        line,
        kind: NameFault::Unknown,
    })
}
