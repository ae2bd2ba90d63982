//! Real streams.
ghost use Rattle.std.specs.Prelude.{◌≡◌};
ghost use Rattle.outside_real.specs.Faults.{in_faults, out_faults};

use crate::faults::Faults;
use lto_outside::{ByteIn, ByteOut, Fault};
use std::io::{Read, Write};

/// The bytes of a reader. A read that gives nothing is the end.
#[derive(Drop)]
pub struct RealIn<T: Read + Drop> {
    reader: T,
    faults: Faults,
}

impl<T: Read + Drop> RealIn<T> {
    /// The bytes of this reader.
    pub fn new(reader: T) -> Self
        ensures { (in_faults result).count ≡ 0 }
    {
        RealIn {
            reader,
            faults: Faults::none(),
        }
    }
}

impl<T: Read + Drop> ByteIn for RealIn<T> {
    ghost use Rattle.std.specs.Prelude.{None, ℕ};
    ghost use Rattle.outside_real.specs.Faults.{in_faults};

    ghost left = { λ m. None };

    ghost faults = { λ m. (in_faults m).count };

    fn next(&mut self) -> Result<Option<u8>, Fault> {
        let mut one = [0u8; 1];
        match self.reader.read(&mut one) {
            Ok(0) => Ok(None),
            Ok(_) => Ok(Some(one[0])),
            Err(_) => {
                self.faults.rise();
                Err(Fault)
            }
        }
    }

    fn faults(&self) -> u64 {
        self.faults.count
    }
}

/// The bytes sent to a writer. A write that takes nothing is a fault.
#[derive(Drop)]
pub struct RealOut<T: Write + Drop> {
    writer: T,
    faults: Faults,
}

impl<T: Write + Drop> RealOut<T> {
    /// Sends to this writer.
    pub fn new(writer: T) -> Self
        ensures { (out_faults result).count ≡ 0 }
    {
        RealOut {
            writer,
            faults: Faults::none(),
        }
    }
}

impl<T: Write + Drop> ByteOut for RealOut<T> {
    ghost use Rattle.std.specs.Prelude.{None, ℕ};
    ghost use Rattle.outside_real.specs.Faults.{out_faults};

    ghost sent = { λ m. None };

    ghost faults = { λ m. (out_faults m).count };

    fn push(&mut self, b: u8) -> Result<(), Fault> {
        match self.writer.write_all(&[b]) {
            Ok(()) => Ok(()),
            Err(_) => {
                self.faults.rise();
                Err(Fault)
            }
        }
    }

    fn faults(&self) -> u64 {
        self.faults.count
    }
}
