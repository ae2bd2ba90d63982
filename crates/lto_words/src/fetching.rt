//! The fetches of all files of a command.
ghost use Rattle.std.specs.Prelude.{◌≡◌, ◌≤◌, ◌<◌, ◌∷◌, [], Err, IfOk, IfErr, OnErr, IsErrOf, All, length};
ghost use Rattle.lto_outside.specs.Calls.{DidNoPut, Fetched};
ghost use Rattle.lto_outside.specs.Cause.{Rose};
ghost use Rattle.lto_outside.specs.declared.fault.FetchFault.TheVariants.{Fault};
ghost use Rattle.ir_tree.specs.Failures.{IfFault};
ghost use Rattle.lto_words.specs.Fetching.{FetchFailed, FetchStopped, IsShort, IsTried, fetch_call, fetch_calls};

use crate::FileName;
use ir_tree::{Failure, Rows, Text};
use lto_outside::{FetchFault, Files};
use std::alloc::Global;

/// Why not all files were fetched: the file of this name couldn't be, and the files' count of faults rose, or memory ran out.
pub type FetchError = Failure<Text>;

/// The error that tells this name.
fn fault(alloc: Global, name: &FileName) -> FetchError
    ensures { IfFault result (λ told. told ≡ name.now) }
{
    match Text::copied(alloc, name.as_str().as_bytes()) {
        Ok(name) => FetchError::Fault(name),
        Err(_) => FetchError::NoMemory,
    }
}

/// What a file holds, or none where that is more than 16 MiB. No file changes.
pub fn fetch_one<F: Files>(
    alloc: Global,
    files: &mut F,
    name: &FileName,
) -> Result<Option<Text>, FetchError>
    ensures fetched { IfOk result (λ bytes. F.did files.old (fetch_call name.now bytes ∷ []) files.new) }
    ensures short { IfOk result (λ bytes. IsShort bytes) }
    ensures failed { IfErr result (λ e. IfFault e (λ told. (told ≡ name.now) × F.did files.old (Fetched name.now (Err Fault) ∷ []) files.new × Rose (F.faults files.old) (F.faults files.new))) }
    ensures tried { IsTried (λ calls. F.did files.old calls files.new) name.now }
    ensures no_put { DidNoPut (λ calls. F.did files.old calls files.new) }
    ensures later { F.faults files.old ≤ F.faults files.new }
{
    match files.fetch(alloc, name.as_str()) {
        Ok(bytes) => Ok(Some(bytes)),
        Err(FetchFault::TooLong) => Ok(None),
        Err(FetchFault::Fault) => Err(fault(alloc, name)),
        Err(FetchFault::NoMemory) => Err(FetchError::NoMemory),
    }
}

/// What each of these files holds, or none where that is more than 16 MiB: all are fetched, in this order, up to one that
/// can't be. No file changes. Beside a fault of the files, memory can be what is lacking, in or behind any fetch: then too
/// the calls are the fetches up to one of the files.
pub fn fetch_all<F: Files>(
    alloc: Global,
    files: &mut F,
    names: &[FileName],
) -> Result<Rows<Option<Text>>, FetchError>
    ensures fetched { IfOk result (λ given. F.did files.old (fetch_calls names.now given) files.new) }
    ensures each { IfOk result (λ given. length given ≡ length names.now) }
    ensures short { IfOk result (λ given. All IsShort given) }
    ensures failed { IfErr result (λ e. IfFault e (λ name. FetchFailed (λ calls. F.did files.old calls files.new) names.now name × Rose (F.faults files.old) (F.faults files.new))) }
    ensures stopped { OnErr result (FetchStopped (λ calls. F.did files.old calls files.new) names.now) }
    ensures no_put { DidNoPut (λ calls. F.did files.old calls files.new) }
    ensures later { F.faults files.old ≤ F.faults files.new }
{
    let mut given: Rows<Option<Text>> = Rows::new(alloc);
    for name in names {
        let bytes = match fetch_one(alloc, files, name) {
            Ok(bytes) => bytes,
            Err(error) => return Err(error),
        };
        let Ok(()) = given.push(bytes) else {
            return Err(FetchError::NoMemory);
        };
    }
    Ok(given)
}
