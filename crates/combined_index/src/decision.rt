//! The live symbols of a link, or what it lacks.
ghost use Rattle.std.specs.Prelude.{◌≡◌, length};
ghost use Rattle.combined_index.specs.Liveness.{Decides};
ghost use Rattle.combined_index.specs.LiveMarks.{AreReferred, ChecksDefined, ChecksExported};

use crate::index::Index;
use crate::least::{least_undefined, least_unexported};
use crate::live_symbols::Live;
use crate::reach::reached;
use crate::referring::first_referring;
use crate::refused::{LiveError, Refused};
use ir_tree::Text;
use lto_sets::Bits;
use std::alloc::Global;

/// No live definition refers to a name that the link lacks.
fn check_defined(alloc: Global, index: &Index, live: &Bits) -> Result<(), LiveError>
    requires long { length live.now ≡ length index.now.symbols }
    requires referred { AreReferred index.now live.now }
    ensures { ChecksDefined index.now live.now result }
{
    let Some(found) = least_undefined(index, live) else {
        return Ok(());
    };
    let name = Text::copied(alloc, found.name)?;
    let Some(place) = first_referring(index, live, found.place as u32) else {
        unreachable!()
    };
    let Ok(module) = u32::try_from(place) else {
        return Err(LiveError::NoMemory);
    };
    Err(LiveError::Fault(Refused::Undefined { name, module }))
}

/// Each name to be exported has a definition.
fn check_exported(alloc: Global, index: &Index, roots: &[Text]) -> Result<(), LiveError>
    ensures { ChecksExported index.now roots.now result }
{
    let Some(found) = least_unexported(index, roots) else {
        return Ok(());
    };
    let name = Text::copied(alloc, found.name)?;
    Err(LiveError::Fault(Refused::NoExport { name }))
}

/// The symbols that are live in a link which exports these names.
///
/// Refused, in this order: a name without a definition that prevails and is no function of the system,
/// to which a live definition refers, with the first module that has one; and a name to be exported
/// that has no such definition; of several names the one with the least bytes. Beside want of memory,
/// an undefined name that `2^32` modules come before is refused as too far.
pub fn live(alloc: Global, index: &Index, roots: &[Text]) -> Result<Live, LiveError>
    ensures { Decides index.now roots.now result }
{
    let live = reached(alloc, index, roots)?;
    check_defined(alloc, index, &live)?;
    check_exported(alloc, index, roots)?;
    Ok(Live::of(live))
}
