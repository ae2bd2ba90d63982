//! The decisions of the thin link, or why there are none.
ghost use Rattle.std.specs.Prelude.{◌≡◌, ◌≢◌, length, IfOk, IfErr};
ghost use Rattle.symbol_resolve.specs.Clashes.{NoClash};
ghost use Rattle.symbol_resolve.specs.Resolved.{symbols};
ghost use Rattle.thin_link.specs.Views.{rows};
ghost use Rattle.combined_index.specs.Liveness.{AllExported, AreLive, NoneUndefined};
ghost use Rattle.lto_fault.specs.declared.refusal.Refusal.TheVariants.{NoMemory};
ghost use Rattle.thin_link.specs.Linking.{IsIndex, IsThinLink};
ghost use Rattle.thin_link.specs.Refusing.{IsClash, IsLack, IsRefused};

use crate::plan;
use crate::refusing::{clash_refusal, lack_refusal};
use crate::summing::indexed;
use combined_index::{Index, Live, LiveError, live};
use ir_tree::{Text, Verified};
use lto_fault::Refusal;
use std::alloc::Global;
use symbol_resolve::{ClashError, Resolution, resolve};

/// What the thin link of modules decides.
#[derive(Drop)]
pub struct ThinLink<'a> {
    /// Which definition of each name prevails.
    pub resolution: Resolution<'a>,
    /// The combined index, in which symbols have numbers.
    pub index: Index,
    /// The symbols that are kept.
    pub live: Live,
    /// For each module, by number, the symbols of the functions that it imports, rising.
    pub imports: Vec<Vec<u32>>,
}

/// The symbols of modules that can be linked with one another.
fn resolved<'a>(
    alloc: Global,
    files: &[Text],
    modules: &'a [Verified],
) -> Result<Resolution<'a>, Refusal>
    ensures done { IfOk result (λ r. NoClash modules.entry.now × (r ≡ symbols modules.entry.now)) }
    ensures refused { IfErr result (λ why. why ≢ NoMemory → IsClash files.now modules.entry.now why) }
{
    match resolve(alloc, modules) {
        Ok(resolution) => Ok(resolution),
        Err(ClashError::NoMemory) => Err(Refusal::NoMemory),
        Err(ClashError::Fault(clash)) => match clash_refusal(alloc, files, clash) {
            Ok(why) => Err(why),
            Err(_) => Err(Refusal::NoMemory),
        },
    }
}

/// The live symbols of modules of this index, whose link lacks no definition.
fn kept(
    alloc: Global,
    files: &[Text],
    modules: &[Verified],
    index: &Index,
    exports: &[Text],
) -> Result<Live, Refusal>
    requires resolved { NoClash modules.now }
    requires indexed { IsIndex modules.now index.now }
    ensures done { IfOk result (λ marks. AreLive index.now exports.now marks × NoneUndefined index.now exports.now × AllExported index.now exports.now) }
    ensures refused { IfErr result (λ why. why ≢ NoMemory → IsLack files.now modules.now exports.now why) }
{
    match live(alloc, index, exports) {
        Ok(live) => Ok(live),
        Err(LiveError::NoMemory) => Err(Refusal::NoMemory),
        Err(LiveError::Fault(lack)) => match lack_refusal(alloc, files, lack) {
            Ok(why) => Err(why),
            Err(_) => Err(Refusal::NoMemory),
        },
    }
}

/// The live symbols of modules of this index, and what each module imports.
fn decided(
    alloc: Global,
    files: &[Text],
    modules: &[Verified],
    index: &Index,
    exports: &[Text],
    import_limit: u32,
) -> Result<(Live, Vec<Vec<u32>>), Refusal>
    requires resolved { NoClash modules.now }
    requires indexed { IsIndex modules.now index.now }
    ensures done { IfOk result (λ d. IsThinLink modules.now exports.now import_limit index.now d.0 (rows d.1.items)) }
    ensures refused { IfErr result (λ why. why ≢ NoMemory → IsLack files.now modules.now exports.now why) }
{
    let live = kept(alloc, files, modules, index, exports)?;
    let Ok(imports) = plan(alloc, index, &live, import_limit) else {
        return Err(Refusal::NoMemory);
    };
    Ok((live, imports))
}

/// The index of modules whose symbols are resolved so, and what is decided by it.
fn decided_by_index(
    alloc: Global,
    files: &[Text],
    modules: &[Verified],
    resolution: &Resolution,
    exports: &[Text],
    import_limit: u32,
) -> Result<(Index, Live, Vec<Vec<u32>>), Refusal>
    requires clash { NoClash modules.now }
    requires resolved { resolution.now ≡ symbols modules.now }
    ensures done { IfOk result (λ d. IsThinLink modules.now exports.now import_limit d.0 d.1 (rows d.2.items)) }
    ensures refused { IfErr result (λ why. why ≢ NoMemory → IsLack files.now modules.now exports.now why) }
{
    let Ok(index) = indexed(alloc, modules, resolution) else {
        return Err(Refusal::NoMemory);
    };
    let (live, imports) = decided(alloc, files, modules, &index, exports, import_limit)?;
    Ok((index, live, imports))
}

/// What the thin link of these modules decides, where these names are exported and a module imports
/// functions of at most `import_limit` instructions that it calls, and smaller ones that those call.
/// There is a file for each module, in command order.
///
/// Refused, in this order: two files whose data layouts differ, or whose triples; a name that two
/// files define externally; a name that is a function in one file and a variable in another; a name
/// that a live definition refers to, where no file defines it and the system doesn't give it, as it
/// gives `putchar` and `getchar`; an exported name that no file defines. Of several names the one with
/// the least bytes is told. Beside want of memory, more than 32 bits can count is refused as too much
/// for it.
pub fn thin_link<'a>(
    alloc: Global,
    files: &[Text],
    modules: &'a [Verified],
    exports: &[Text],
    import_limit: u32,
) -> Result<ThinLink<'a>, Refusal>
    requires { length files.now ≡ length modules.now }
    ensures done { IfOk result (λ link. IsThinLink modules.entry.now exports.now import_limit link.index link.live (rows link.imports.items)) }
    ensures resolved { IfOk result (λ link. link.resolution ≡ symbols modules.entry.now) }
    ensures refused { IfErr result (λ why. why ≢ NoMemory → IsRefused files.now modules.entry.now exports.now why) }
{
    let resolution = resolved(alloc, files, modules)?;
    let (index, live, imports) = decided_by_index(
        alloc,
        files,
        modules,
        &resolution,
        exports,
        import_limit,
    )?;
    Ok(ThinLink {
        resolution,
        index,
        live,
        imports,
    })
}
