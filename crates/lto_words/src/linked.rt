//! The fetches of what the links of a batch read.
ghost use Rattle.std.specs.List.{AllZip};
ghost use Rattle.std.specs.Prelude.{◌≡◌, ◌≤◌, IfOk, IfErr};
ghost use Rattle.lto_outside.specs.Calls.{DidNoPut};
ghost use Rattle.lto_outside.specs.Cause.{Rose};
ghost use Rattle.ir_tree.specs.Failures.{IfFault};
ghost use Rattle.lto_words.specs.Fetching.{FetchFailed, fetch_calls};
ghost use Rattle.lto_words.specs.Links.{GivenFor, all_files, all_given};

use crate::fetching::{FetchError, fetch_all};
use crate::listing::ListedLink;
use ir_tree::{Rows, Text};
use lto_outside::Files;
use std::alloc::Global;

/// What the files of each link hold, or none of each that holds more than 16 MiB: all are fetched, once per occurrence, link
/// by link and in this order, up to one that can't be. No file changes.
pub fn fetch_links<F: Files>(
    alloc: Global,
    files: &mut F,
    links: &[ListedLink],
) -> Result<Rows<Rows<Option<Text>>>, FetchError>
    ensures fetched { IfOk result (λ given. F.did files.old (fetch_calls (all_files links.now) (all_given given)) files.new) }
    ensures each { IfOk result (λ given. AllZip GivenFor links.now given) }
    ensures failed { IfErr result (λ e. IfFault e (λ name. FetchFailed (λ calls. F.did files.old calls files.new) (all_files links.now) name × Rose (F.faults files.old) (F.faults files.new))) }
    ensures no_put { DidNoPut (λ calls. F.did files.old calls files.new) }
    ensures later { F.faults files.old ≤ F.faults files.new }
{
    let mut given: Rows<Rows<Option<Text>>> = Rows::new(alloc);
    for link in links {
        let bytes = match fetch_all(alloc, files, link.files.as_slice()) {
            Ok(bytes) => bytes,
            Err(error) => return Err(error),
        };
        let Ok(()) = given.push(bytes) else {
            return Err(FetchError::NoMemory);
        };
    }
    Ok(given)
}
