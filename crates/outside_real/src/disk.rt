//! The cache's real disk.
ghost use Rattle.std.specs.Prelude.{◌≡◌};
ghost use Rattle.outside_real.specs.Faults.{disk_faults};

use crate::faults::Faults;
use crate::reading::{ReadEnd, read_all};
use ir_tree::Text;
use lto_outside::{CacheDisk, Fault, LoadFault, Meaning};
use std::alloc::Global;
use std::fs::{self, File};
use std::io::{self, ErrorKind, Write};
use std::marker::PhantomData;
use std::rt::Files as HostFiles;

/// The most bytes that an entry of the cache has. A longer file is a fault.
const MOST: u32 = 1 << 30;

/// Real cache directories. `M` says which text is made of which key.
///
/// A save writes a file whose name ends in `.part` and then gives it the entry's name, so a program that is stopped
/// leaves the old entry or the new one.
#[derive(Drop)]
pub struct RealDisk<'a, R: HostFiles + AllocGlobal, M: Meaning> {
    rt: &'a R,
    faults: Faults,
    meaning: PhantomData<M>,
}

impl<'a, R: HostFiles + AllocGlobal, M: Meaning> RealDisk<'a, R, M> {
    /// The directories of this runtime.
    pub fn new(rt: &'a R) -> Self
        ensures { (disk_faults result).count ≡ 0 }
    {
        RealDisk {
            rt,
            faults: Faults::none(),
            meaning: PhantomData,
        }
    }
}

/// The entry, or none where there is no such file.
fn read_entry<R: HostFiles>(
    rt: &R,
    alloc: Global,
    dir: &str,
    name: &str,
) -> Result<Option<Text>, ReadEnd> {
    let Ok(path) = format!(in alloc; "{dir}/{name}") else {
        return Err(ReadEnd::NoMemory);
    };
    match File::open(rt, path.as_str()) {
        Ok(file) => Ok(Some(read_all(alloc, file, MOST)?)),
        Err(error) if error.kind() == ErrorKind::NotFound => Ok(None),
        Err(_) => Err(ReadEnd::Fault),
    }
}

/// Writes the entry, in a directory that is made where it isn't there.
fn write_entry<R: HostFiles>(
    rt: &R,
    alloc: Global,
    dir: &str,
    name: &str,
    bytes: &[u8],
) -> io::Result<()> {
    let path = format!(in alloc; "{dir}/{name}")?;
    let part = format!(in alloc; "{dir}/{name}.part")?;
    fs::create_dir_all(rt, dir)?;
    File::create(rt, part.as_str())?.write_all(bytes)?;
    fs::rename(rt, part.as_str(), path.as_str())
}

impl<'a, R: HostFiles + AllocGlobal, M: Meaning> CacheDisk for RealDisk<'a, R, M> {
    ghost use Rattle.std.specs.Prelude.{None, ℕ};
    ghost use Rattle.outside_real.specs.Faults.{disk_faults};

    ghost held = { λ m. None };

    ghost faults = { λ m. (disk_faults m).count };

    ghost fits = { M.fits };

    fn load(&mut self, alloc: Global, dir: &str, name: &str) -> Result<Option<Text>, LoadFault> {
        match read_entry(self.rt, alloc, dir, name) {
            Ok(found) => Ok(found),
            Err(ReadEnd::NoMemory) => Err(LoadFault::NoMemory),
            Err(ReadEnd::Fault | ReadEnd::TooLong) => {
                self.faults.rise();
                Err(LoadFault::Fault)
            }
        }
    }

    fn save(&mut self, dir: &str, name: &str, bytes: &[u8]) -> Result<(), Fault> {
        match write_entry(self.rt, self.rt.alloc(), dir, name, bytes) {
            Ok(()) => Ok(()),
            Err(_) => {
                self.faults.rise();
                Err(Fault)
            }
        }
    }

    fn faults(&self) -> u64 {
        self.faults.count
    }
}
