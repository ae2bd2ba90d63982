//! The cache of a command's links.
ghost use Rattle.std.specs.Prelude.{◌≡◌, IfOk};
ghost use Rattle.cache_slot.specs.Directory.{dir_of};

use lto_fault::Refusal;
use lto_outside::Meaning;
use lto_words::LinkOptions;
use std::alloc::{AllocError, Global};

/// The meaning of a cache's entries: the text of the unit that a link makes of a task.
pub struct LinkMakes;

impl Meaning for LinkMakes {
    ghost use Rattle.thinlto_main.specs.Honest.{HonestEntry};

    ghost fits = { HonestEntry };
}

/// What came of links over a cache, and the disk of the cache.
#[derive(Drop)]
pub(crate) struct Cached<T, D> {
    pub(crate) answer: Result<T, Refusal>,
    pub(crate) disk: D,
}

/// The name of the cache's directory, where there is one.
pub(crate) fn directory(alloc: Global, options: &LinkOptions) -> Result<Option<String>, AllocError>
    ensures { IfOk result (λ dir. dir_of dir ≡ options.now.cache) }
{
    match &options.cache {
        Some(name) => Ok(Some(String::from_str(alloc, name.as_str())?)),
        None => Ok(None),
    }
}
