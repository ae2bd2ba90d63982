//! The names of globals (LangRef, "Global Variables" and "Functions").
ghost use Rattle.std.specs.Prelude.{◌≡◌, Ok, []};
ghost use Rattle.ir_parse_names.specs.Globals.{no_globals};
ghost use Rattle.ir_parse_names.specs.Globals as globals;
ghost use Rattle.ir_parse_names.specs.Resolving.{ResolvesTo};
ghost use Rattle.ir_parse_names.specs.Stages as stages;
ghost use Rattle.ir_parse_stages.specs.MarkViews.{standing, marks};

use crate::mark::{Mark, Marks};
use ir_parse_names::{Globals, NameSet, ResolveError, name_of, unknown};
use ir_parse_parts::Name;
use std::alloc::Global;

fn with_name<'t>(
    alloc: Global,
    names: &mut NameSet<'t>,
    mark: &Mark<'t>,
) -> Result<(), ResolveError>
    ensures { ResolvesTo (λ _. names.new) result (Ok (stages.global_names names.old (standing mark.now))) }
{
    match mark {
        Mark::Global(name) => names.add(name_of(alloc, name)?),
        _ => Ok(()),
    }
}

/// The names of all globals of a module.
fn global_names<'t>(rows: &[Mark<'t>], alloc: Global) -> Result<NameSet<'t>, ResolveError>
    ensures { ResolvesTo (λ s. s) result (Ok (stages.global_names [] (marks rows.now))) }
{
    let mut names = NameSet::new(alloc);
    'each: for mark in rows {
        with_name(alloc, &mut names, mark)?;
    }
    Ok(names)
}

/// A global that is used: it is defined or declared.
fn if_there<'t>(alloc: Global, names: &NameSet<'t>, name: &'t Name) -> Result<(), ResolveError>
    ensures { (g : globals.Globals) → ResolvesTo (λ _. g) result (stages.if_there names.now g name.now) }
{
    if names.contains(&name_of(alloc, name)?) {
        Ok(())
    } else {
        Err(unknown(name.line()))
    }
}

fn named<'t>(
    alloc: Global,
    names: &NameSet<'t>,
    globals: &mut Globals<'t>,
    mark: &Mark<'t>,
) -> Result<(), ResolveError>
    ensures { ResolvesTo (λ _. globals.new) result (stages.all_named names.now globals.old (standing mark.now)) }
{
    match mark {
        Mark::Global(name) => globals.define(alloc, name),
        Mark::Symbol(name) => if_there(alloc, names, name),
        Mark::Address(steps) => if_there(alloc, names, &steps.name),
        _ => Ok(()),
    }
}

fn all_named<'t>(
    rows: &[Mark<'t>],
    alloc: Global,
    names: &NameSet<'t>,
) -> Result<Globals<'t>, ResolveError>
    ensures { ResolvesTo (λ g. g) result (stages.all_named names.now no_globals (marks rows.now)) }
{
    let mut globals = Globals::new(alloc);
    'each: for mark in rows {
        named(alloc, names, &mut globals, mark)?;
    }
    Ok(globals)
}

/// The names of globals of a module. A fault is at the first token that defines or declares a global a second
/// time, or as a number below the counter, or that uses one which is neither.
#[tactic(auto, unfolding(ir_parse_names::specs::Stages::globals_named))]
pub fn globals_in<'t>(alloc: Global, marks: &Marks<'t>) -> Result<Globals<'t>, ResolveError>
    ensures { ResolvesTo (λ g. g) result (stages.globals_named marks.now) }
{
    let rows = marks.as_slice();
    let names = global_names(rows, alloc)?;
    all_named(rows, alloc, &names)
}
