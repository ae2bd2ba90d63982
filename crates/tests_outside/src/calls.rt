//! What calls of files and of disks give.
use lto_outside::{CacheDisk, FetchFault, Files};
use std::alloc::Global;

/// Whether the file of a name holds these bytes.
pub fn holds<F: Files>(alloc: Global, files: &mut F, name: &str, wanted: &[u8]) -> bool {
    match files.fetch(alloc, name) {
        Ok(text) => text.equals(wanted),
        Err(_) => false,
    }
}

/// How many bytes the file of a name holds.
pub fn length<F: Files>(alloc: Global, files: &mut F, name: &str) -> Result<usize, FetchFault> {
    match files.fetch(alloc, name) {
        Ok(text) => Ok(text.len()),
        Err(fault) => Err(fault),
    }
}

/// Whether a file of a directory holds these bytes, or isn't there.
pub fn loads<D: CacheDisk>(
    alloc: Global,
    disk: &mut D,
    dir: &str,
    name: &str,
    wanted: Option<&[u8]>,
) -> bool {
    match disk.load(alloc, dir, name) {
        Ok(Some(text)) => match wanted {
            Some(bytes) => text.equals(bytes),
            None => false,
        },
        Ok(None) => wanted.is_none(),
        Err(_) => false,
    }
}
