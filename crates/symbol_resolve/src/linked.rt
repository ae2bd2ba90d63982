//! Symbol resolution over the modules of a link.
ghost use Rattle.symbol_resolve.specs.Listed.{ChecksNames, ChecksTargets};
ghost use Rattle.symbol_resolve.specs.Resolved.{Resolves};

use crate::clash::{Clash, ClashError};
use crate::facts::Facts;
use crate::least::{LinkRule, least};
use crate::resolution::Resolution;
use crate::table::tabled;
use crate::target::differing;
use indexmap::IndexMap;
use ir_tree::{TargetLine, Text, Verified};
use std::alloc::{AllocError, Global};

/// The modules' data layouts agree, and then their triples.
fn check_targets(modules: &[Verified]) -> Result<(), ClashError>
    ensures { ChecksTargets modules.now result }
{
    if let Some((first, second)) = differing(TargetLine::Datalayout, modules)? {
        return Err(ClashError::Fault(Clash::TargetClash {
            line: TargetLine::Datalayout,
            first,
            second,
        }));
    }
    if let Some((first, second)) = differing(TargetLine::Triple, modules)? {
        return Err(ClashError::Fault(Clash::TargetClash {
            line: TargetLine::Triple,
            first,
            second,
        }));
    }
    Ok(())
}

/// No name breaks the rule.
fn check_names(
    alloc: Global,
    table: &IndexMap<&[u8], Facts>,
    rule: LinkRule,
) -> Result<(), ClashError>
    ensures { ChecksNames rule table.now.entries result }
{
    let Some(found) = least(table, rule) else {
        return Ok(());
    };
    let name = Text::copied(alloc, found.name)?;
    let clash = match rule {
        LinkRule::OneDefinition => Clash::DuplicateSymbol {
            name,
            first: found.first,
            second: found.second,
        },
        LinkRule::OneKind => Clash::KindClash {
            name,
            function: found.first,
            variable: found.second,
        },
    };
    Err(ClashError::Fault(clash))
}

/// The names of the modules of a link, which are numbered from 0 in command order, each with the
/// module whose definition prevails.
///
/// Refused, in this order: modules whose data layouts differ, whose triples differ, a name that two
/// modules define externally, a name that is a function in one module and a variable in another;
/// of several names the one with the least bytes. Beside want of memory, `2^32` modules or more are
/// refused as too many. Time and memory are linear in the modules.
pub fn resolve<'a>(alloc: Global, modules: &'a [Verified]) -> Result<Resolution<'a>, ClashError>
    ensures { Resolves modules.entry.now result }
{
    check_targets(modules)?;
    let table = tabled(alloc, modules)?;
    check_names(alloc, &table, LinkRule::OneDefinition)?;
    check_names(alloc, &table, LinkRule::OneKind)?;
    Ok(Resolution::of(table))
}
