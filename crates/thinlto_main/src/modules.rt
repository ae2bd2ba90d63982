//! The modules of a command: all its files are fetched, and then each is read.
ghost use Rattle.std.specs.Prelude.{◌≡◌, ◌≤◌, ◌<◌, All, IfOk, IfErr, OnErr, length};
ghost use Rattle.std.specs.List.{AllZip};
ghost use Rattle.lto_fault.specs.declared.refusal.Refusal.{Refusal};
ghost use Rattle.lto_words.specs.Fetching.{IsShort};
ghost use Rattle.lto_outside.specs.Seen.{files_seen};
ghost use Rattle.run_program.specs.Causes.{Because, never};
ghost use Rattle.thinlto_main.specs.Linking.{suffixes_of};
ghost use Rattle.thinlto_main.specs.Modules.{AreRead, FirstBad, IsBad, IsRead, bytes_of, reading, unfetched};

use combined_index::suffix;
use ir_flow::AnalysedModule;
use ir_tree::{FaultKind, Rows, Text, Verified};
use link_one::{LinkError, accepted};
use lto_fault::{Refusal, RefusalKind};
use lto_outside::Files;
use lto_words::{FetchError, FileName, fetch_all};
use std::alloc::{AllocError, Global};

/// The names as they are told in refusals.
pub(crate) fn texts(alloc: Global, names: &[FileName]) -> Result<Rows<Text>, AllocError>
    ensures { IfOk result (λ texts. texts ≡ names.now) }
{
    let mut texts = Rows::new(alloc);
    for name in names {
        texts.push(Text::copied(alloc, name.as_str().as_bytes())?)?;
    }
    Ok(texts)
}

/// That this file is refused.
pub(crate) fn refused(alloc: Global, name: &FileName, line: u64, kind: RefusalKind) -> Refusal
    ensures { Because (record never { refused = λ file at why. (file ≡ name.now) × (at ≡ line) × (why ≡ kind); memory = Unit {0} }) result }
{
    match Text::copied(alloc, name.as_str().as_bytes()) {
        Ok(file) => Refusal::Refused { file, line, kind },
        Err(_) => Refusal::NoMemory,
    }
}

/// The module of a file.
fn read_one(alloc: Global, name: &FileName, bytes: &Option<Text>) -> Result<AnalysedModule, Refusal>
    requires short { IsShort bytes.now }
    ensures read { IfOk result (λ m. IsRead bytes.now m) }
    ensures because { IfErr result (Because (record never { refused = λ file line kind. (file ≡ name.now) × IsBad bytes.now line kind; memory = Unit {0} })) }
{
    match bytes {
        None => Err(refused(alloc, name, 0, RefusalKind::Unread(FaultKind::Limit))),
        Some(bytes) => match accepted(alloc, bytes.as_slice()) {
            Ok(module) => Ok(module),
            Err(LinkError::NoMemory) => Err(Refusal::NoMemory),
            Err(LinkError::Fault(why)) => {
                Err(refused(alloc, name, u64::from(why.line), why.kind))
            }
        },
    }
}

/// The module of each file, up to the first that isn't read, with what verification found of its control flow.
pub(crate) fn read_all(
    alloc: Global,
    names: &[FileName],
    given: &[Option<Text>],
) -> Result<Rows<AnalysedModule>, Refusal>
    requires each { length given.now ≡ length names.now }
    requires short { All IsShort given.now }
    ensures read { IfOk result (λ ms. AllZip IsRead given.now ms) }
    ensures because { IfErr result (Because (record never { refused = FirstBad names.now given.now; memory = Unit {0} })) }
{
    let mut modules = Rows::new(alloc);
    for (at, name) in names.iter().enumerate() {
        let module = match read_one(alloc, name, &given[at]) {
            Ok(module) => module,
            Err(why) => return Err(why),
        };
        let Ok(()) = modules.push(module) else {
            return Err(Refusal::NoMemory);
        };
    }
    Ok(modules)
}

/// How it is told that a file can't be fetched.
pub(crate) fn unfetched(error: FetchError) -> Refusal
    ensures { result ≡ unfetched error }
{
    match error {
        FetchError::Fault(name) => Refusal::ReadFault { name },
        FetchError::NoMemory => Refusal::NoMemory,
    }
}

/// These modules alone.
fn alone(alloc: Global, modules: Rows<AnalysedModule>) -> Result<Rows<Verified>, AllocError>
    ensures { IfOk result (λ ms. ms ≡ modules) }
{
    let mut all = Rows::new(alloc);
    for module in modules.into_vec() {
        let (verified, _flows) = module.into_parts();
        all.push(verified)?;
    }
    Ok(all)
}

/// The module of each file, up to the first that isn't read.
fn read_alone(
    alloc: Global,
    names: &[FileName],
    given: &[Option<Text>],
) -> Result<Rows<Verified>, Refusal>
    requires each { length given.now ≡ length names.now }
    requires short { All IsShort given.now }
    ensures read { IfOk result (λ ms. AllZip IsRead given.now ms) }
    ensures because { IfErr result (Because (record never { refused = FirstBad names.now given.now; memory = Unit {0} })) }
{
    let read = match read_all(alloc, names, given) {
        Ok(read) => read,
        Err(why) => return Err(why),
    };
    match alone(alloc, read) {
        Ok(modules) => Ok(modules),
        Err(_) => Err(Refusal::NoMemory),
    }
}

/// The modules of these files: all are fetched, and then each is read.
pub(crate) fn modules<F: Files>(
    alloc: Global,
    files: &mut F,
    names: &[FileName],
) -> Result<Rows<Verified>, Refusal>
    ensures read { IfOk result (AreRead names.now (λ calls. F.did files.old calls files.new)) }
    ensures because { IfErr result (Because (reading names.now (files_seen F.did F.held F.faults files.old files.new))) }
    ensures later { F.faults files.old ≤ F.faults files.new }
{
    let given = match fetch_all(alloc, files, names) {
        Ok(given) => given,
        Err(error) => return Err(unfetched(error)),
    };
    read_alone(alloc, names, given.as_slice())
}

/// The suffix of each file, which stands behind the names of its module's locals.
pub(crate) fn suffixes(alloc: Global, given: &[Option<Text>]) -> Result<Rows<Text>, AllocError>
    ensures { IfOk result (λ suffixes. suffixes ≡ suffixes_of given.now) }
{
    let mut suffixes = Rows::new(alloc);
    for bytes in given {
        suffixes.push(suffix(alloc, slice_of(bytes))?)?;
    }
    Ok(suffixes)
}

/// The bytes that a file gave, if it did.
pub(crate) fn slice_of(bytes: &Option<Text>) -> &[u8]
    ensures { result.now ≡ bytes_of bytes.now }
{
    match bytes {
        Some(bytes) => bytes.as_slice(),
        None => &[],
    }
}
