//! Real files.
ghost use Rattle.std.specs.Prelude.{◌≡◌, ◌≤◌, ◌^◌, length, IfOk};
ghost use Rattle.outside_real.specs.Faults.{files_faults};

use crate::faults::Faults;
use crate::reading::{ReadEnd, read_all};
use ir_tree::Text;
use lto_outside::{Fault, FetchFault, Files};
use std::alloc::Global;
use std::fs::File;
use std::io::{self, Write};
use std::rt::Files as HostFiles;

/// The most bytes that a fetch gives: 16 MiB.
const MOST: u32 = 1 << 24;

/// Real files by path. The name `-` is standard input for a fetch and standard output for a put.
#[derive(Drop)]
pub struct RealFiles<'a, R: HostFiles + Input + Print> {
    rt: &'a R,
    faults: Faults,
}

impl<'a, R: HostFiles + Input + Print> RealFiles<'a, R> {
    /// The files of this runtime.
    pub fn new(rt: &'a R) -> Self
        ensures { (files_faults result).count ≡ 0 }
    {
        RealFiles {
            rt,
            faults: Faults::none(),
        }
    }
}

fn read_named<R: HostFiles + Input>(rt: &R, alloc: Global, name: &str) -> Result<Text, ReadEnd>
    ensures { IfOk result (λ text. length text ≤ 2 ^ 24) }
{
    if name == "-" {
        return read_all(alloc, rt.reader(), MOST);
    }
    match File::open(rt, name) {
        Ok(file) => read_all(alloc, file, MOST),
        Err(_) => Err(ReadEnd::Fault),
    }
}

fn write_named<R: HostFiles + Print>(rt: &R, name: &str, bytes: &[u8]) -> io::Result<()> {
    if name == "-" {
        return Print::write_all(rt, bytes);
    }
    File::create(rt, name)?.write_all(bytes)
}

impl<'a, R: HostFiles + Input + Print> Files for RealFiles<'a, R> {
    ghost use Rattle.std.specs.Prelude.{None, ℕ};
    ghost use Rattle.outside_real.specs.Faults.{files_faults};

    ghost held = { λ m. None };

    ghost faults = { λ m. (files_faults m).count };

    ghost did = { λ a calls b. Unit {0} };

    ghost did_none = { λ a. tt };

    ghost did_more = { λ a b c first rest p q. tt };

    ghost did_tells = { λ a b calls p. tt };

    fn fetch(&mut self, alloc: Global, name: &str) -> Result<Text, FetchFault> {
        match read_named(self.rt, alloc, name) {
            Ok(text) => Ok(text),
            Err(ReadEnd::Fault) => {
                self.faults.rise();
                Err(FetchFault::Fault)
            }
            Err(ReadEnd::TooLong) => Err(FetchFault::TooLong),
            Err(ReadEnd::NoMemory) => Err(FetchFault::NoMemory),
        }
    }

    fn put(&mut self, name: &str, bytes: &[u8]) -> Result<(), Fault> {
        match write_named(self.rt, name, bytes) {
            Ok(()) => Ok(()),
            Err(_) => {
                self.faults.rise();
                Err(Fault)
            }
        }
    }

    fn faults(&self) -> u64 {
        self.faults.count
    }
}
