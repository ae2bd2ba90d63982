//! What stays of the modules of a link once all is decided of them.
ghost use Rattle.std.specs.Prelude.{◌≡◌, ◌≢◌, Err, IfErr, IfOk, Ok, length};
ghost use Rattle.lto_fault.specs.declared.refusal.Refusal.TheVariants.{NoMemory};
ghost use Rattle.ir_flow.specs.OfFunction.{AreModuleFlows};
ghost use Rattle.symbol_resolve.specs.Resolved.{symbols};
ghost use Rattle.combined_index.specs.Promotions.{ArePromoted};
ghost use Rattle.thin_link.specs.Views.{rows};
ghost use Rattle.merge_meaning.specs.Lives.{parts};
ghost use Rattle.link_one.specs.Preparing.{IsPrepared, header_of};
ghost use Rattle.combined_index.specs.Finals.{NoneTaken, final_names};
ghost use Rattle.link_one.specs.Refusing.{IsLeastTaken, IsUnlinked};

use crate::naming::named;
use crate::target::given_text;
use combined_index::{Index, Live, promoted};
use ir_flow::{AnalysedModule, AnalysedValue, Flow};
use ir_print::print;
use ir_tree::{Module, Rows, TargetLine, Text, Verified};
use lto_fault::Refusal;
use merge_meaning::{LiveSymbols, parts};
use std::alloc::{AllocError, Global};
use thin_link::{ThinLink, thin_link};

/// What is compiled and joined. The modules needn't stand any longer.
#[derive(Drop)]
pub(crate) struct Prepared {
    /// The combined index, in which symbols have numbers.
    pub(crate) index: Index,
    /// The symbols that are kept.
    pub(crate) live: Live,
    /// For each module the symbols that it imports.
    pub(crate) imports: Vec<Vec<u32>>,
    /// For each module its locals to which other modules refer.
    pub(crate) promoted: Vec<Vec<u32>>,
    /// For each module its live definitions, under final names.
    pub(crate) parts: Vec<Rows<AnalysedValue>>,
    /// The target lines of the linked module.
    pub(crate) header: Text,
}

/// What is made of modules by what is decided of them, as in [`Prepared`].
#[derive(Drop)]
struct Contents {
    promoted: Vec<Vec<u32>>,
    parts: Vec<Rows<AnalysedValue>>,
    header: Text,
}

/// The target lines of the linked module: the text of a module without global values.
fn header(alloc: Global, modules: &[Verified]) -> Result<Text, AllocError>
    ensures { IfOk result (λ text. text ≡ header_of modules.now) }
{
    let datalayout = given_text(alloc, TargetLine::Datalayout, modules)?;
    let triple = given_text(alloc, TargetLine::Triple, modules)?;
    let globals = Rows::new(alloc);
    print(
        alloc,
        &Module {
            datalayout,
            triple,
            globals,
        },
    )
}

/// The parts of the modules: of each the live definitions, under final names.
fn live_parts(
    alloc: Global,
    modules: &[Verified],
    flows: Vec<Rows<Option<Flow>>>,
    decided: &ThinLink<'_>,
    suffixes: &[Text],
) -> Result<Vec<Rows<AnalysedValue>>, AllocError>
    requires marks { length decided.now.live ≡ length decided.now.index.symbols }
    requires resolved { decided.now.resolution ≡ symbols modules.now }
    requires flows { AreModuleFlows modules.now flows.items }
    ensures { IfOk result (λ all. all.items ≡ parts modules.now decided.now.index.symbols decided.now.live suffixes.now) }
{
    let marked = LiveSymbols::of(alloc, decided.index.symbols(), &decided.live)?;
    parts(
        alloc,
        modules,
        flows,
        &decided.resolution,
        &marked,
        suffixes,
    )
}

/// What is made of these modules by what was decided of them.
fn contents_of(
    alloc: Global,
    modules: &[Verified],
    flows: Vec<Rows<Option<Flow>>>,
    decided: &ThinLink<'_>,
    suffixes: &[Text],
) -> Result<Contents, AllocError>
    requires marks { length decided.now.live ≡ length decided.now.index.symbols }
    requires resolved { decided.now.resolution ≡ symbols modules.now }
    requires flows { AreModuleFlows modules.now flows.items }
    ensures promoted { IfOk result (λ m. ArePromoted decided.now.index (rows decided.now.imports.items) (rows m.promoted.items)) }
    ensures parts { IfOk result (λ m. m.parts.items ≡ parts modules.now decided.now.index.symbols decided.now.live suffixes.now) }
    ensures header { IfOk result (λ m. m.header ≡ header_of modules.now) }
{
    let header = header(alloc, modules)?;
    let parts = live_parts(alloc, modules, flows, decided, suffixes)?;
    let promoted = promoted(alloc, &decided.index, &decided.imports)?;
    Ok(Contents {
        promoted,
        parts,
        header,
    })
}

/// The same, where no two live symbols come to have one name.
fn named_contents(
    alloc: Global,
    modules: &[Verified],
    flows: Vec<Rows<Option<Flow>>>,
    decided: &ThinLink<'_>,
    suffixes: &[Text],
) -> Result<Contents, Refusal>
    requires marks { length decided.now.live ≡ length decided.now.index.symbols }
    requires suffixes { length suffixes.now ≡ length decided.now.index.modules }
    requires resolved { decided.now.resolution ≡ symbols modules.now }
    requires flows { AreModuleFlows modules.now flows.items }
    ensures named { IfOk result (λ _. NoneTaken (final_names suffixes.now decided.now.index.symbols decided.now.live)) }
    ensures promoted { IfOk result (λ m. ArePromoted decided.now.index (rows decided.now.imports.items) (rows m.promoted.items)) }
    ensures parts { IfOk result (λ m. m.parts.items ≡ parts modules.now decided.now.index.symbols decided.now.live suffixes.now) }
    ensures header { IfOk result (λ m. m.header ≡ header_of modules.now) }
    ensures taken { IfErr result (λ why. why ≢ NoMemory → IsLeastTaken (final_names suffixes.now decided.now.index.symbols decided.now.live) why) }
{
    named(alloc, decided, suffixes)?;
    match contents_of(alloc, modules, flows, decided, suffixes) {
        Ok(contents) => Ok(contents),
        Err(_) => Err(Refusal::NoMemory),
    }
}

/// A value, and what was made beside it. Its type is a parameter, so that how it is dropped isn't told part by part.
fn beside<T: Drop, U: Drop>(value: T, made: Result<U, Refusal>) -> Result<(T, U), Refusal>
    ensures made { IfOk result (λ both. made ≡ Ok both.1) }
    ensures kept { IfOk result (λ both. both.0 ≡ value) }
    ensures failed { IfErr result (λ why. made ≡ Err why) }
{
    match made {
        Ok(made) => Ok((value, made)),
        Err(why) => Err(why),
    }
}

/// What stays of what was decided, with what was made by it.
fn kept(decided: ThinLink<'_>, contents: Contents) -> Prepared
    ensures { result ≡ record { index = decided.entry.index; live = decided.entry.live; imports = decided.entry.imports; promoted = contents.promoted; parts = contents.parts; header = contents.header } }
{
    let ThinLink {
        resolution: _,
        index,
        live,
        imports,
    } = decided;
    Prepared {
        index,
        live,
        imports,
        promoted: contents.promoted,
        parts: contents.parts,
        header: contents.header,
    }
}

/// What stays of these modules, where they can be linked, and else why they can't.
fn decided_and_prepared(
    alloc: Global,
    files: &[Text],
    suffixes: &[Text],
    modules: &[Verified],
    flows: Vec<Rows<Option<Flow>>>,
    exports: &[Text],
    import_limit: u32,
) -> Result<Prepared, Refusal>
    requires files { length files.now ≡ length modules.now }
    requires suffixes { length suffixes.now ≡ length modules.now }
    requires flows { AreModuleFlows modules.now flows.items }
    ensures done { IfOk result (IsPrepared exports.now import_limit suffixes.now modules.now) }
    ensures refused { IfErr result (λ why. why ≢ NoMemory → IsUnlinked files.now exports.now import_limit suffixes.now modules.now why) }
{
    let decided = thin_link(alloc, files, modules, exports, import_limit)?;
    let contents = named_contents(alloc, modules, flows, &decided, suffixes);
    let (decided, contents) = beside(decided, contents)?;
    Ok(kept(decided, contents))
}

/// Modules apart from what is known of their control flow.
#[derive(Drop)]
struct Parted {
    modules: Vec<Verified>,
    flows: Vec<Rows<Option<Flow>>>,
}

/// These modules, apart from what is known of their control flow.
fn apart(alloc: Global, modules: Vec<AnalysedModule>) -> Result<Parted, AllocError>
    ensures modules { IfOk result (λ apart. apart.modules.items ≡ modules.items) }
    ensures flows { IfOk result (λ apart. AreModuleFlows modules.items apart.flows.items) }
{
    let mut all = Vec::with_capacity(alloc, modules.len())?;
    let mut flows = Vec::with_capacity(alloc, modules.len())?;
    for module in modules {
        let (verified, known) = module.into_parts();
        all.push(verified)?;
        flows.push(known)?;
    }
    Ok(Parted {
        modules: all,
        flows,
    })
}

/// What stays of these modules, where they can be linked, and else why they can't.
pub(crate) fn prepare(
    alloc: Global,
    files: &[Text],
    suffixes: &[Text],
    modules: Vec<AnalysedModule>,
    exports: &[Text],
    import_limit: u32,
) -> Result<Prepared, Refusal>
    requires files { length files.now ≡ length modules.items }
    requires suffixes { length suffixes.now ≡ length modules.items }
    ensures done { IfOk result (IsPrepared exports.now import_limit suffixes.now modules.items) }
    ensures refused { IfErr result (λ why. why ≢ NoMemory → IsUnlinked files.now exports.now import_limit suffixes.now modules.items why) }
{
    let Ok(Parted { modules, flows }) = apart(alloc, modules) else {
        return Err(Refusal::NoMemory);
    };
    decided_and_prepared(
        alloc,
        files,
        suffixes,
        &modules,
        flows,
        exports,
        import_limit,
    )
}
