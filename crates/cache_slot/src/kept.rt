//! What a store answers.

/// What a store did with the pair.
#[derive(Clone, Copy, PartialEq, Eq)]
pub enum Kept {
    /// It is an entry now, and saved where there is a directory.
    New,
    /// An entry has the key.
    Already,
    /// It is an entry now, and wasn't saved.
    Skipped(SkipCause),
}

/// Why an entry wasn't saved.
#[derive(Clone, Copy, PartialEq, Eq)]
pub enum SkipCause {
    /// The disk failed.
    Disk,
}
