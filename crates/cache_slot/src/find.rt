//! Looking a key up: among the entries of the history, and then in the directory.
ghost use Rattle.std.specs.Prelude.{◌≡◌, ◌≢◌, ◌≤◌, ◌<◌, ◌^◌, ℕ, List, length, IfOk, MatchOption};
ghost use Rattle.std.specs.Option.{option_copied};
ghost use Rattle.lto_outside.specs.DiskStore.{DiskStays};
ghost use Rattle.cache_slot.specs.Files.{file_of, bytes_of};
ghost use Rattle.cache_slot.specs.Found.{LoadedAs, FoundOn, NeedsNoDisk};

use crate::key::Key;
use crate::record::Why;
use crate::records::Records;
use crate::{decode, file_name};
use ir_tree::Text;
use lto_outside::{CacheDisk, LoadFault};
use std::alloc::{AllocError, Global};
use std::str;

/// The name as a text.
pub fn name_str<'a>(name: &'a Text, key: &[u8]) -> &'a str
    requires { name.now ≡ file_of key.now }
    ensures { result.now ≡ name.now }
{
    match str::from_utf8(name.as_slice()) {
        Ok(text) => text,
        Err(_) => unreachable!(),
    }
}

/// The text that the bytes are the entry of, where it has this key.
fn text_in(alloc: Global, bytes: &[u8], key: &[u8]) -> Result<Option<Text>, AllocError>
    ensures { IfOk result (λ found. MatchOption found
        ((text : List ℕ) → bytes.now ≢ bytes_of key.now text)
        (λ text. (bytes.now ≡ bytes_of key.now text) × (length text < 2 ^ 64))) }
{
    match decode(bytes) {
        Some((own, text)) if own == key => Ok(Some(Text::copied(alloc, text)?)),
        _ => Ok(None),
    }
}

/// Reads the file of the key. No file changes.
fn load<D: CacheDisk>(
    alloc: Global,
    disk: &mut D,
    dir: &str,
    key: &[u8],
) -> Result<Result<Text, Why>, AllocError>
    ensures found { IfOk result (λ found. LoadedAs (D.held disk.old) (D.faults disk.old) (D.faults disk.new) dir.now key.now found) }
    ensures small { IfOk result (λ found. IfOk found (λ text. length text < 2 ^ 64)) }
    ensures stay { DiskStays (D.held disk.old) (D.held disk.new) }
    ensures later { D.faults disk.old ≤ D.faults disk.new }
{
    let name = file_name(alloc, key)?;
    match disk.load(alloc, dir, name_str(&name, key)) {
        Ok(Some(bytes)) => match text_in(alloc, bytes.as_slice(), key)? {
            Some(text) => Ok(Ok(text)),
            None => Ok(Err(Why::Lacking)),
        },
        Ok(None) => Ok(Err(Why::Lacking)),
        Err(LoadFault::Fault) => Ok(Err(Why::Fault)),
        Err(LoadFault::NoMemory) => Err(AllocError),
    }
}

/// The text of the key, or why there is none. No file changes, and the disk is called only where no entry has the key and
/// there is a directory.
pub fn find<D: CacheDisk>(
    alloc: Global,
    records: &Records,
    disk: &mut D,
    dir: Option<&str>,
    key: &Key,
) -> Result<Result<Text, Why>, AllocError>
    ensures found { IfOk result (FoundOn (D.held disk.old) (D.faults disk.old) (D.faults disk.new) (option_copied dir.entry) records.now.history.items key.now) }
    ensures small { IfOk result (λ found. IfOk found (λ text. length text < 2 ^ 64)) }
    ensures stay { DiskStays (D.held disk.old) (D.held disk.new) }
    ensures later { D.faults disk.old ≤ D.faults disk.new }
    ensures uncalled { NeedsNoDisk (option_copied dir.entry) records.now.history.items key.now → disk.new ≡ disk.old }
{
    if let Some(text) = records.text(key) {
        return Ok(Ok(Text::copied(alloc, text.as_slice())?));
    }
    match dir {
        Some(dir) => load(alloc, disk, dir, key.as_slice()),
        None => Ok(Err(Why::NoDirectory)),
    }
}
