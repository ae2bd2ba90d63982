//! What type names stand for, measured once each.
ghost use Rattle.std.specs.Prelude.{◌≡◌, ℕ, IfOk, IfSome, Some, nat_eq, false};
ghost use Rattle.ir_parse_names.specs.Bodies.{allocated};
ghost use Rattle.ir_parse_names.specs.Resolving.{ResolvesTo};
ghost use Rattle.ir_parse_names.specs.Stages.{passes};
ghost use Rattle.ir_parse_names.specs.Types.{expanded, shape_at};
ghost use Rattle.ir_parse_parts.specs.Shapes.{named};
ghost use Rattle.ir_parse_sizes.specs.Measures.{IsMeasured, IsKnownIf, IsSmall, IsSmallIf, IsKnownSmall, AreKnown, AreKnownSmall, many_fit, chained, MatchesName};

use crate::measure::{Measure, array_of};
use crate::weigh::{Known, known_at, weigh};
use ir_parse_names::{NameFault, ResolveError, TypeNames, Types, allocated, expanded, limit};
use ir_parse_parts::{Name, Typed, WrittenShape, WrittenShapeNode};
use std::alloc::{AllocError, Global};
use std::marker::Model;

/// The type names of a module, and what is known of the shape that each stands for. Contracts see the
/// type names.
#[derive(Drop)]
pub struct Sizes<'s, 't> {
    types: &'s Types<'t>,
    known: Vec<Option<Known>>,
}

impl<'s, 't> Model for Sizes<'s, 't> {
    ghost use Rattle.std.specs.Prelude.{List, Option};
    ghost use Rattle.ir_parse_parts.specs.Shapes.{Written};
    ghost use Rattle.ir_parse_parts.specs.ShapeCode.{code_from};
    ghost use Rattle.std.specs.Coded.{codes};
    ghost use Rattle.ir_parse_names.specs.Keys.{Key};

    ghost Value = { List (Key × Option Written) };

    ghost coded = { Prim.hlevel (codes, code_from (Prim.hlevel (codes))) };

    ghost view = { λ s. s.types.now };

    ghost use Rattle.ir_parse_sizes.specs.Measures.{AreKnown, AreKnownSmall};

    ghost invariant = { λ s. AreKnown s.types.now s.known.items × AreKnownSmall s.known.items };
}

/// The measure of a shape, where it is known: `None` within for one that is past a limit.
#[tactic(auto, using(crate::proofs::Measured::measured_by, crate::proofs::Measured::limited_by))]
fn measured<'t>(
    alloc: Global,
    names: &TypeNames<'t>,
    known: &[Option<Known>],
    shape: &WrittenShape,
) -> Result<Option<Option<Measure>>, AllocError>
    requires known { AreKnown names.now known.now }
    requires small { AreKnownSmall known.now }
    ensures given { IfOk result (λ o. IfSome o (λ m. IsMeasured names.now shape.now m)) }
    ensures small { IfOk result (λ o. IfSome o (λ m. IsSmallIf m)) }
{
    match weigh(alloc, names, known, 0, shape) {
        Ok(measure) => Ok(Some(Some(measure))),
        Err(ResolveError::NoMemory) => Err(AllocError),
        Err(ResolveError::Fault(fault)) => match fault.kind {
            NameFault::Limit => Ok(Some(None)),
            _ => Ok(None),
        },
    }
}

/// The name that a shape is, where it is one.
fn name_of<'t>(shape: &'t WrittenShape) -> Option<&'t Name>
    ensures { MatchesName result shape.now }
{
    match shape.node() {
        WrittenShapeNode::Named(name) => Some(name),
        _ => None,
    }
}

/// What is known of a definition that is a shape of its own.
fn own_shape<'t>(
    alloc: Global,
    names: &TypeNames<'t>,
    known: &[Option<Known>],
    shape: &WrittenShape,
) -> Result<Option<Known>, AllocError>
    requires known { AreKnown names.now known.now }
    requires small { AreKnownSmall known.now }
    ensures given { IfOk result (λ o. IfSome o (λ k. (k.names ≡ 0) × IsMeasured names.now shape.now k.measure)) }
    ensures small { IfOk result (λ o. IsKnownSmall o) }
{
    match measured(alloc, names, known, shape)? {
        None => Ok(None),
        Some(measure) => Ok(Some(Known { names: 0, measure })),
    }
}

/// What is known of a definition, by what the definition of its name leads to.
fn chained(most: usize, known: Option<Known>) -> Option<Known>
    ensures given { result ≡ chained most known }
    ensures small { IsKnownSmall known → IsKnownSmall result }
{
    match known {
        Some(known) if known.names < most => Some(Known {
            names: known.names + 1,
            measure: known.measure,
        }),
        _ => None,
    }
}

/// What is known of a definition that is a name.
#[tactic(auto, using(crate::proofs::Measured::name_behind))]
fn behind<'t>(
    alloc: Global,
    names: &TypeNames<'t>,
    known: &[Option<Known>],
    name: &Name,
) -> Result<Option<Known>, AllocError>
    requires known { AreKnown names.now known.now }
    requires small { AreKnownSmall known.now }
    ensures given { IfOk result (λ o. (p : ℕ) → shape_at names.now p ≡ Some (named name.now) → IsKnownIf names.now p o) }
    ensures small { IfOk result (λ o. IsKnownSmall o) }
{
    match names.place_in(alloc, name) {
        Ok(place) => Ok(chained(names.len(), known_at(known, Some(place)))),
        Err(ResolveError::NoMemory) => Err(AllocError),
        Err(ResolveError::Fault(_)) => Ok(None),
    }
}

/// What is known of the definition at a place.
#[tactic(auto, using(crate::proofs::Measured::own_known))]
fn known_here<'t>(
    alloc: Global,
    names: &TypeNames<'t>,
    known: &[Option<Known>],
    place: usize,
) -> Result<Option<Known>, AllocError>
    requires known { AreKnown names.now known.now }
    requires small { AreKnownSmall known.now }
    ensures given { IfOk result (λ o. IsKnownIf names.now place o) }
    ensures small { IfOk result (λ o. IsKnownSmall o) }
{
    match names.shape_at(place) {
        None => Ok(None),
        Some(shape) => match name_of(shape) {
            None => own_shape(alloc, names, known, shape),
            Some(name) => behind(alloc, names, known, name),
        },
    }
}

/// Finds what is known of the definition at a place.
fn find<'t>(
    alloc: Global,
    names: &TypeNames<'t>,
    known: &mut [Option<Known>],
    place: usize,
) -> Result<(), AllocError>
    requires known { AreKnown names.now known.old }
    requires small { AreKnownSmall known.old }
    ensures known { AreKnown names.now known.new }
    ensures small { AreKnownSmall known.new }
{
    if place < known.len() {
        let found = known_here(alloc, names, known, place)?;
        known[place] = found;
    }
    Ok(())
}

/// What is known of all definitions, which are taken in this order.
#[tactic(auto, using(crate::proofs::Measured::none_known, crate::proofs::Measured::none_small))]
fn known_of<'t>(
    alloc: Global,
    names: &TypeNames<'t>,
    order: &[usize],
) -> Result<Vec<Option<Known>>, AllocError>
    ensures known { IfOk result (λ v. AreKnown names.now v.items) }
    ensures small { IfOk result (λ v. AreKnownSmall v.items) }
{
    let mut known = vec![in alloc; None; names.len()]?;
    'each: for place in order {
        find(alloc, names, &mut known, *place)?;
    }
    Ok(known)
}

/// Whether so many of a shape of this measure are within the limits.
fn array_fits(line: u32, count: u64, of: Measure) -> Result<(), ResolveError>
    requires { IsSmall of }
    ensures { ResolvesTo (λ u. u) result (many_fit line count of) }
{
    array_of(line, count, of)?;
    Ok(())
}

impl<'s, 't> Sizes<'s, 't> {
    /// These type names, each measured. The order, in which each is to stand behind those in its
    /// definition, decides only how fast shapes are measured.
    pub fn of(
        alloc: Global,
        types: &'s Types<'t>,
        order: &[usize],
    ) -> Result<Sizes<'s, 't>, AllocError>
        ensures { IfOk result (λ s. s ≡ types.now) }
    {
        let known = known_of(alloc, types.names(), order)?;
        Ok(Sizes { types, known })
    }

    /// The type names.
    pub fn types(&self) -> &'s Types<'t>
        ensures { result.now ≡ self.now }
    {
        self.types
    }

    /// The measure of a shape, where it is known: `None` within for one that is past a limit.
    fn measured(
        &self,
        alloc: Global,
        shape: &WrittenShape,
    ) -> Result<Option<Option<Measure>>, AllocError>
        ensures given { IfOk result (λ o. IfSome o (λ m. IsMeasured self.now shape.now m)) }
        ensures small { IfOk result (λ o. IfSome o (λ m. IsSmallIf m)) }
    {
        measured(alloc, self.types.names(), &self.known, shape)
    }

    /// Whether a shape is within the limits as its names expand: as [`ir_parse_names::expanded`] has it, but
    /// for the tree.
    #[tactic(auto, using(crate::proofs::Measured::fits, crate::proofs::Measured::fits_not))]
    pub fn shape_within(&self, alloc: Global, typed: &'t Typed) -> Result<(), ResolveError>
        ensures { ResolvesTo (λ u. u) result (passes (expanded self.now typed.now)) }
    {
        match self.measured(alloc, &typed.shape)? {
            None => {
                expanded(alloc, self.types, typed)?;
                Ok(())
            }
            Some(None) => Err(limit(typed.line)),
            Some(Some(_)) => Ok(()),
        }
    }

    /// Whether so many of a shape other than one are within the limits.
    #[tactic(auto, using(crate::proofs::Measured::many_fit, crate::proofs::Measured::many_fit_not))]
    fn array_within(&self, alloc: Global, typed: &'t Typed, count: u64) -> Result<(), ResolveError>
        requires { nat_eq count 1 ≡ false }
        ensures { ResolvesTo (λ u. u) result (passes (allocated self.now typed.now count)) }
    {
        match self.measured(alloc, &typed.shape)? {
            None => {
                allocated(alloc, self.types, typed, count)?;
                Ok(())
            }
            Some(None) => Err(limit(typed.line)),
            Some(Some(measure)) => array_fits(typed.line, count, measure),
        }
    }

    /// Whether what an `alloca` of so many of a shape takes is within the limits: as
    /// [`ir_parse_names::allocated`] has it, but for the tree.
    pub fn many_within(
        &self,
        alloc: Global,
        typed: &'t Typed,
        count: u64,
    ) -> Result<(), ResolveError>
        ensures { ResolvesTo (λ u. u) result (passes (allocated self.now typed.now count)) }
    {
        if count == 1 {
            self.shape_within(alloc, typed)
        } else {
            self.array_within(alloc, typed, count)
        }
    }
}
