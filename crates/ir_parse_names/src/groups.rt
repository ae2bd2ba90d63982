//! Attribute groups, and what they say of a definition (LangRef, "Attribute Groups").
ghost use Rattle.std.specs.Prelude.{◌≡◌, Ok, drop};
ghost use Rattle.std.specs.Cow.{cow_slice_items};
ghost use Rattle.ir_parse_names.specs.Groups.{group_key, no_groups, said, with_group, with_groups, any_of, is_noinline, is_optnone};
ghost use Rattle.ir_parse_names.specs.Groups as groups;
ghost use Rattle.ir_parse_names.specs.Resolving.{ResolvesTo};

use crate::fault::ResolveError;
use crate::name_set::NameSet;
use crate::symbol::trimmed;
use ir_parse_parts::{FunctionHeader, Item, Name};
use std::alloc::Global;
use std::borrow::CowSlice;

/// The groups of a module that say `noinline`, and those that say `optnone`.
#[derive(Drop)]
pub struct Groups<'t> {
    pub noinline: NameSet<'t>,
    pub optnone: NameSet<'t>,
}

/// The digits behind the sign of a group.
fn digits_of<'t>(text: &'t [u8]) -> &'t [u8]
    ensures { result.now ≡ drop 1 text.now }
{
    match text {
        [] => text,
        [_sign, digits @ ..] => digits,
    }
}

/// What a group is known by.
fn group_key<'t>(name: &'t Name) -> CowSlice<'t, u8, Global>
    ensures { cow_slice_items result ≡ group_key name.now }
{
    let text = name.token().text;
    CowSlice::Borrowed(trimmed(digits_of(text)))
}

/// One more name, where it is said.
fn said<'t>(says: bool, names: &mut NameSet<'t>, name: &'t Name) -> Result<(), ResolveError>
    ensures { ResolvesTo (λ _. names.new) result (Ok (said says names.old (group_key name.now))) }
{
    if says {
        names.add(group_key(name))
    } else {
        Ok(())
    }
}

fn with_group<'t>(found: &mut Groups<'t>, item: &'t Item) -> Result<(), ResolveError>
    ensures { ResolvesTo (λ _. found.new) result (Ok (with_group found.old item.now)) }
{
    match item {
        Item::Attributes {
            group,
            noinline,
            optnone,
        } => {
            said(*noinline, &mut found.noinline, group)?;
            said(*optnone, &mut found.optnone, group)
        }
        _ => Ok(()),
    }
}

/// The groups that stand among these items, beside those that were found before.
fn add_groups<'t>(found: &mut Groups<'t>, items: &'t [Item]) -> Result<(), ResolveError>
    ensures { ResolvesTo (λ _. found.new) result (Ok (with_groups found.old items.now)) }
{
    'each: for item in items {
        with_group(found, item)?;
    }
    Ok(())
}

/// The groups of a module. A group that stands twice says what both say.
pub fn groups_of<'t>(alloc: Global, items: &'t [Item]) -> Result<Groups<'t>, ResolveError>
    ensures { ResolvesTo (λ g. g) result (Ok (groups.groups_of items.now)) }
{
    let mut found = Groups {
        noinline: NameSet::new(alloc),
        optnone: NameSet::new(alloc),
    };
    add_groups(&mut found, items)?;
    Ok(found)
}

fn any_of<'t>(names: &NameSet<'t>, named: &'t [Name]) -> bool
    ensures { result ≡ any_of names.now named.now }
{
    'each: for name in named {
        if names.contains(&group_key(name)) {
            return true;
        }
    }
    false
}

/// Whether a function's own words or a group that it names say `noinline`.
pub fn is_noinline<'t>(found: &Groups<'t>, head: &'t FunctionHeader) -> bool
    ensures { result ≡ is_noinline found.now head.now }
{
    head.noinline || any_of(&found.noinline, head.groups.as_slice())
}

/// Whether a function's own words or a group that it names say `optnone`.
pub fn is_optnone<'t>(found: &Groups<'t>, head: &'t FunctionHeader) -> bool
    ensures { result ≡ is_optnone found.now head.now }
{
    head.optnone || any_of(&found.optnone, head.groups.as_slice())
}
