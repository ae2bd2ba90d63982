//! What each type name stands for in the end, found once (LangRef, "Structure Type").
ghost use Rattle.std.specs.Prelude.{◌≡◌, Ok, IfOk, IfSome};
ghost use Rattle.ir_lex.specs.Tok.{Tok};
ghost use Rattle.ir_parse_parts.specs.Shapes.{named};
ghost use Rattle.ir_parse_names.specs.Heads.{IsHead, AreHeads, IsChain, IsChainFrom};
ghost use Rattle.ir_parse_names.specs.Resolving.{ResolvesTo};
ghost use Rattle.ir_parse_names.specs.Types.{entry_in, head_of, shape_at};

use crate::fault::ResolveError;
use crate::types::TypeNames;
use ir_parse_parts::{Name, WrittenShape, WrittenShapeNode};
use std::alloc::{AllocError, Global};
use std::marker::Model;

/// The shape that a chain of type names leads to, and how many names it goes on by.
#[derive(Clone, Copy)]
pub struct Chain<'t> {
    pub head: &'t WrittenShape,
    pub names: usize,
}

/// The type names of a module with their shapes, in the order of the text, each with the shape that
/// its chain of names leads to, where it leads to one.
#[derive(Drop)]
pub struct Types<'t> {
    names: TypeNames<'t>,
    heads: Vec<Option<Chain<'t>>>,
}

impl<'t> Model for Types<'t> {
    ghost use Rattle.std.specs.Prelude.{List, Option};
    ghost use Rattle.ir_parse_parts.specs.Shapes.{Written};
    ghost use Rattle.ir_parse_parts.specs.ShapeCode.{code_from};
    ghost use Rattle.std.specs.Coded.{codes};
    ghost use Rattle.ir_parse_names.specs.Keys.{Key};

    ghost Value = { List (Key × Option Written) };

    ghost coded = { Prim.hlevel (codes, code_from (Prim.hlevel (codes))) };

    ghost view = { λ t. t.names };

    ghost use Rattle.ir_parse_names.specs.Heads.{AreHeads};

    ghost invariant = { λ t. AreHeads t.names 0 t.heads.items };
}

/// The chain from the definition at a place, where it is found.
#[tactic(auto, using(crate::proofs::Chains::chain_found))]
fn chain_at<'t>(
    names: &TypeNames<'t>,
    heads: &[Option<Chain<'t>>],
    place: usize,
) -> Option<Chain<'t>>
    requires { AreHeads names.now 0 heads.now }
    ensures { IfSome result (λ c. IsChain names.now place c) }
{
    if place < heads.len() {
        heads[place]
    } else {
        None
    }
}

/// The chain from a name whose definition is at a place, where it is found and no longer than the
/// list of names.
#[tactic(auto, using(crate::proofs::Chains::goes_one))]
fn chain_through<'t>(
    names: &TypeNames<'t>,
    heads: &[Option<Chain<'t>>],
    place: usize,
) -> Option<Chain<'t>>
    requires { AreHeads names.now 0 heads.now }
    ensures { IfSome result (λ c. (name : Tok) → entry_in names.now name ≡ Ok (shape_at names.now place) → IsChainFrom names.now name c) }
{
    match chain_at(names, heads, place) {
        Some(chain) if chain.names < names.len() => Some(Chain {
            head: chain.head,
            names: chain.names + 1,
        }),
        _ => None,
    }
}

/// The chain from a name, where it is found.
fn chain_from<'t>(
    alloc: Global,
    names: &TypeNames<'t>,
    heads: &[Option<Chain<'t>>],
    name: &Name,
) -> Result<Option<Chain<'t>>, AllocError>
    requires { AreHeads names.now 0 heads.now }
    ensures { IfOk result (λ o. IfSome o (λ c. IsChainFrom names.now name.now c)) }
{
    match names.place_in(alloc, name) {
        Ok(place) => Ok(chain_through(names, heads, place)),
        Err(ResolveError::NoMemory) => Err(AllocError),
        Err(ResolveError::Fault(_)) => Ok(None),
    }
}

/// The chain from the definition at a place, by those that are found.
#[tactic(auto, using(crate::proofs::Chains::named_chain))]
fn next_chain<'t>(
    alloc: Global,
    names: &TypeNames<'t>,
    heads: &[Option<Chain<'t>>],
    place: usize,
) -> Result<Option<Chain<'t>>, AllocError>
    requires { AreHeads names.now 0 heads.now }
    ensures { IfOk result (λ o. IsHead names.now place o) }
{
    match names.shape_at(place) {
        None => Ok(None),
        Some(shape) => match shape.node() {
            WrittenShapeNode::Named(name) => chain_from(alloc, names, heads, name),
            _ => Ok(Some(Chain {
                head: shape,
                names: 0,
            })),
        },
    }
}

/// Finds the chain from the definition at a place.
#[tactic(auto, using(crate::proofs::Chains::set_found))]
fn find<'t>(
    alloc: Global,
    names: &TypeNames<'t>,
    heads: &mut [Option<Chain<'t>>],
    place: usize,
) -> Result<(), AllocError>
    requires { AreHeads names.now 0 heads.old }
    ensures { AreHeads names.now 0 heads.new }
{
    if place < heads.len() {
        let chain = next_chain(alloc, names, heads, place)?;
        heads[place] = chain;
    }
    Ok(())
}

/// The place of the name that the definition at a place stands for, where it is one.
fn next_place<'t>(
    alloc: Global,
    names: &TypeNames<'t>,
    place: usize,
) -> Result<Option<usize>, AllocError> {
    match names.shape_at(place) {
        None => Ok(None),
        Some(shape) => match shape.node() {
            WrittenShapeNode::Named(name) => match names.place_of_name(alloc, name) {
                Ok(next) => Ok(next),
                Err(_) => Err(AllocError),
            },
            _ => Ok(None),
        },
    }
}

/// The places of a chain from a place on that weren't seen before.
fn path_from<'t>(
    alloc: Global,
    names: &TypeNames<'t>,
    seen: &mut [bool],
    start: usize,
) -> Result<Vec<usize>, AllocError> {
    let mut path = Vec::new(alloc);
    let mut place = start;
    'each: for _name in 0..names.len() {
        if place >= seen.len() || seen[place] {
            return Ok(path);
        }
        seen[place] = true;
        path.push(place)?;
        match next_place(alloc, names, place)? {
            None => return Ok(path),
            Some(next) => place = next,
        }
    }
    Ok(path)
}

/// All places, each behind that of the name that it stands for. Only the time that is taken rests on
/// the order.
fn order_of<'t>(alloc: Global, names: &TypeNames<'t>) -> Result<Vec<usize>, AllocError> {
    let mut seen = vec![in alloc; false; names.len()]?;
    let mut order = Vec::new(alloc);
    'each: for place in 0..names.len() {
        let mut path = path_from(alloc, names, &mut seen, place)?;
        path.reverse();
        order.append(&mut path)?;
    }
    Ok(order)
}

/// The chain from each definition, each found once.
#[tactic(auto, using(crate::proofs::Chains::none_found))]
fn heads_of<'t>(alloc: Global, names: &TypeNames<'t>) -> Result<Vec<Option<Chain<'t>>>, AllocError>
    ensures { IfOk result (λ v. AreHeads names.now 0 v.items) }
{
    let order = order_of(alloc, names)?;
    let mut heads = vec![in alloc; None; names.len()]?;
    'each: for place in &order {
        find(alloc, names, &mut heads, *place)?;
    }
    Ok(heads)
}

impl<'t> Types<'t> {
    /// These type names, with what each stands for in the end.
    pub fn of(alloc: Global, names: TypeNames<'t>) -> Result<Types<'t>, AllocError>
        ensures { IfOk result (λ t. t ≡ names.entry) }
    {
        let heads = heads_of(alloc, &names)?;
        Ok(Types { names, heads })
    }

    /// The type names.
    pub fn names(&self) -> &TypeNames<'t>
        ensures { result.now ≡ self.now }
    {
        &self.names
    }

    /// The shape that the chain of names from a name on leads to.
    #[tactic(auto, unfolding(crate::specs::Types::head_of), using(crate::proofs::Chains::found))]
    fn head_behind(&self, alloc: Global, name: &Name) -> Result<&'t WrittenShape, ResolveError>
        ensures { ResolvesTo (λ s. s.now) result (head_of self.now (named name.now)) }
    {
        let place = self.names.place_in(alloc, name)?;
        match chain_at(&self.names, &self.heads, place) {
            Some(chain) => Ok(chain.head),
            None => self
                .names
                .chase(alloc, place, name.line(), self.names.len()),
        }
    }

    /// The shape that a shape is, or that the chain of names from it on leads to.
    #[tactic(auto, unfolding(crate::specs::Types::head_of))]
    pub fn head_of(
        &self,
        alloc: Global,
        shape: &'t WrittenShape,
    ) -> Result<&'t WrittenShape, ResolveError>
        ensures { ResolvesTo (λ s. s.now) result (head_of self.now shape.now) }
    {
        match shape.node() {
            WrittenShapeNode::Named(name) => self.head_behind(alloc, name),
            _ => Ok(shape),
        }
    }
}
