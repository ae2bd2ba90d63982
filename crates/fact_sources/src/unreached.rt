//! Facts that rest on locals to which unreached blocks give values.
ghost use Rattle.std.specs.Prelude.{◌≡◌, ◌++◌, ℕ, if◌then◌else◌, length, nat_eq, IfOk, OnOk};
ghost use Rattle.std.specs.HashSet as hash;
ghost use Rattle.lto_sets.specs.Sets.{contains};
ghost use Rattle.ir_edit.specs.Numbered.{line_numbers, phi_numbers};
ghost use Rattle.ir_flow.specs.OfFunction.{IsReach};
ghost use Rattle.fact_sources.specs.Apart.{IsApart, defined, firm, given_apart, given_where, is_listed, resting};

use crate::naming::is_among;
use ir_tree::{Block, Duplicate, Function, Line, Operand, Phi};
use lto_sets::Bits;
use std::alloc::{AllocError, Global};
use std::collections::HashSet;

fn push_phis(locals: &mut Vec<u32>, phis: &[Phi]) -> Result<(), AllocError>
    ensures { OnOk result (locals.new.items ≡ locals.old.items ++ phi_numbers phis.now) }
{
    for phi in phis {
        locals.push(phi.local)?;
    }
    Ok(())
}

fn push_lines(locals: &mut Vec<u32>, lines: &[Line]) -> Result<(), AllocError>
    ensures { OnOk result (locals.new.items ≡ locals.old.items ++ line_numbers lines.now) }
{
    for line in lines {
        if let Some(local) = line.local {
            locals.push(local)?;
        }
    }
    Ok(())
}

#[tactic(auto, unfolding(crate::specs::Apart::given_where))]
fn push_block(locals: &mut Vec<u32>, reached: bool, block: &Block) -> Result<(), AllocError>
    ensures { OnOk result (locals.new.items ≡ locals.old.items ++ given_where reached block.now) }
{
    if reached {
        return Ok(());
    }
    push_phis(locals, block.phis.as_slice())?;
    push_lines(locals, block.lines.as_slice())
}

/// What the blocks outside the set of places give values.
fn push_apart(locals: &mut Vec<u32>, inside: &Bits, blocks: &[Block]) -> Result<(), AllocError>
    requires { length inside.now ≡ length blocks.now }
    ensures { OnOk result (locals.new.items ≡ locals.old.items ++ given_apart (contains inside.now) 0 blocks.now) }
{
    for place in 0..inside.size() {
        push_block(locals, inside.has(place), &blocks[place as usize])?;
    }
    Ok(())
}

/// The locals of a list.
pub fn set_of(alloc: Global, locals: &[u32]) -> Result<HashSet<u32>, AllocError>
    ensures { IfOk result (λ set. (x : ℕ) → hash.contains nat_eq set x ≡ is_listed x locals.now) }
{
    let mut set = HashSet::new(alloc);
    for local in locals {
        set.insert(*local)?;
    }
    Ok(set)
}

/// What a block defines.
pub fn defined(alloc: Global, block: &Block) -> Result<HashSet<u32>, AllocError>
    ensures { IfOk result (λ set. (x : ℕ) → hash.contains nat_eq set x ≡ defined block.now x) }
{
    let mut locals = Vec::new(alloc);
    push_block(&mut locals, false, block)?;
    let set = set_of(alloc, &locals)?;
    Ok(set)
}

/// The locals to which blocks that aren't reached give values, where these are the blocks that are.
pub fn apart(alloc: Global, f: &Function, reached: &Bits) -> Result<HashSet<u32>, AllocError>
    requires { IsReach f.now reached.now }
    ensures { IfOk result (λ set. IsApart f.now (hash.contains nat_eq set)) }
{
    let mut locals = Vec::new(alloc);
    push_apart(&mut locals, reached, f.blocks.as_slice())?;
    let set = set_of(alloc, &locals)?;
    Ok(set)
}

/// The facts whose operand is a local of the set, or the others.
fn parted(
    alloc: Global,
    found: &[(u32, Operand)],
    set: &HashSet<u32>,
    inside: bool,
) -> Result<Vec<(u32, Operand)>, AllocError>
    ensures { IfOk result (λ some. some.items ≡ (if inside then resting (hash.contains nat_eq set.now) found.now else firm (hash.contains nat_eq set.now) found.now)) }
{
    let mut some = Vec::new(alloc);
    for pair in found {
        if is_among(set, &pair.1) == inside {
            let value = pair.1.duplicate(alloc)?;
            some.push((pair.0, value))?;
        }
    }
    Ok(some)
}

/// The facts whose operand is a local of the set. With none in the set, none is looked at.
pub fn resting(
    alloc: Global,
    found: &[(u32, Operand)],
    set: &HashSet<u32>,
) -> Result<Vec<(u32, Operand)>, AllocError>
    ensures { IfOk result (λ some. some.items ≡ resting (hash.contains nat_eq set.now) found.now) }
{
    let none = set.is_empty();
    if none {
        return Ok(Vec::new(alloc));
    }
    parted(alloc, found, set, true)
}

/// The others.
pub fn firm(
    alloc: Global,
    found: &[(u32, Operand)],
    set: &HashSet<u32>,
) -> Result<Vec<(u32, Operand)>, AllocError>
    ensures { IfOk result (λ some. some.items ≡ firm (hash.contains nat_eq set.now) found.now) }
{
    parted(alloc, found, set, false)
}
