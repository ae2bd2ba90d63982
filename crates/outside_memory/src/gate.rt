//! A gate that counts.
use lto_outside::{Gate, Stage};
use std::sync::atomic::{AtomicU64, Ordering};

/// A gate that lets every worker pass at once, and counts how often each stage was passed.
#[derive(Drop)]
pub struct MemoryGate {
    claims: AtomicU64,
    looks: AtomicU64,
    keeps: AtomicU64,
    done: AtomicU64,
}

impl MemoryGate {
    /// A gate that nobody has passed.
    pub fn new() -> Self {
        MemoryGate {
            claims: AtomicU64::new(0),
            looks: AtomicU64::new(0),
            keeps: AtomicU64::new(0),
            done: AtomicU64::new(0),
        }
    }

    fn counter(&self, stage: Stage) -> &AtomicU64 {
        match stage {
            Stage::Claim => &self.claims,
            Stage::Look => &self.looks,
            Stage::Keep => &self.keeps,
            Stage::Done => &self.done,
        }
    }

    /// How often the stage was passed, modulo 2^64.
    pub fn count(&self, stage: Stage) -> u64 {
        self.counter(stage).load(Ordering::SeqCst)
    }
}

impl Gate for MemoryGate {
    fn pass(&self, _worker: u32, _number: Option<u32>, stage: Stage) {
        self.counter(stage).fetch_add(1, Ordering::SeqCst);
    }
}
