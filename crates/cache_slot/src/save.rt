//! Saving an entry in the directory.
ghost use Rattle.std.specs.Prelude.{◌≡◌, ◌≢◌, ◌≤◌, ◌<◌, ◌^◌, None, length, IfOk, OnErr};
ghost use Rattle.std.specs.Option.{option_copied};
ghost use Rattle.cache_slot.specs.Files.{bytes_of};
ghost use Rattle.cache_slot.specs.Found.{SavedOn, kept_of};

use crate::find::name_str;
use crate::kept::{Kept, SkipCause};
use crate::{encode, file_name};
use lto_outside::CacheDisk;
use std::alloc::{AllocError, Global};

/// Saves the entry of the pair, where there is a directory; without one it does nothing. Whether the save failed. Memory
/// is taken first: where it is refused the disk wasn't called.
pub fn save<D: CacheDisk>(
    alloc: Global,
    disk: &mut D,
    dir: Option<&str>,
    key: &[u8],
    text: &[u8],
) -> Result<bool, AllocError>
    ensures saved { IfOk result (SavedOn (D.held disk.old) (D.held disk.new) (D.faults disk.old) (D.faults disk.new) (option_copied dir.entry) key.now text.now) }
    ensures later { D.faults disk.old ≤ D.faults disk.new }
    ensures uncalled { option_copied dir.entry ≡ None → disk.new ≡ disk.old }
    ensures small { IfOk result (λ _. option_copied dir.entry ≢ None → length (bytes_of key.now text.now) < 2 ^ 64) }
    ensures err { OnErr result (disk.new ≡ disk.old) }
{
    let Some(dir) = dir else { return Ok(false) };
    let name = file_name(alloc, key)?;
    let entry = encode(alloc, key, text)?;
    match disk.save(dir, name_str(&name, key), entry.as_slice()) {
        Ok(()) => Ok(false),
        Err(_) => Ok(true),
    }
}

/// The answer of a store that found no entry of the key.
pub fn kept_of(failed: bool) -> Kept
    ensures { result ≡ kept_of failed }
{
    if failed {
        Kept::Skipped(SkipCause::Disk)
    } else {
        Kept::New
    }
}
