//! The program's gate.
use lto_outside::{Gate, Stage};

/// A gate that every worker passes at once.
#[derive(Clone, Copy, Debug, PartialEq, Eq)]
pub struct RealGate;

impl Gate for RealGate {
    fn pass(&self, _worker: u32, _number: Option<u32>, _stage: Stage) {}
}
