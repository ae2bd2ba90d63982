//! Links, disk pairs, events and phases, and why an event is refused.
ghost use Rattle.link_core.specs.declared.event.StepError.TheVariants.{NoMemory};
ghost use Rattle.std.specs.Prelude.{◌≡◌};

use ir_tree::Text;
use std::alloc::AllocError;

/// A link as the core starts: the key of each number's task, and how many workers it has.
#[derive(Drop)]
pub struct CoreLink {
    pub keys: Vec<Text>,
    pub workers: u32,
}

/// A key and the text that is kept under it.
#[derive(Drop)]
pub struct DiskPair {
    pub key: Text,
    pub text: Text,
}

/// What a worker is doing. Numbers count the keys of its link from 0.
#[derive(Drop)]
pub enum Phase {
    /// It may claim the next number.
    Idle,
    /// It has drawn this number, and looks up its key.
    Claimed(usize),
    /// The key of this number was neither an entry nor given by the disk.
    Missed(usize),
    /// It has compiled this text for the number's key.
    Made(usize, Text),
    /// It met the end of the numbers.
    Ended,
}

/// One atomic step of a worker.
#[derive(Drop)]
pub enum Act {
    /// An idle worker draws the next number, or ends where no number is left.
    Claim,
    /// A claimed number's key is looked up among the entries and then on the disk, which may give
    /// its pair or fail to.
    Look { given: bool },
    /// A missed number's key is compiled to this text.
    Compile(Text),
    /// A compiled text becomes the number's result, and an entry where its key has none; the disk
    /// may take the pair.
    Keep { taken: bool },
}

/// An act of one worker of one link, both counted from 0.
#[derive(Drop)]
pub struct Event {
    pub link: u32,
    pub worker: u32,
    pub act: Act,
}

/// Why an event was refused.
#[derive(Drop)]
pub enum StepError {
    /// The worker's phase, from which the act is not enabled.
    NotEnabled { phase: Phase },
    /// There was no memory for a copy.
    NoMemory,
}

impl From<AllocError> for StepError {
    ghost from_gives = { λ _ r. r ≡ NoMemory };

    fn from(_e: AllocError) -> StepError {
        StepError::NoMemory
    }
}
