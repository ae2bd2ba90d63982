//! What the outside sees of a run.

/// A byte read by `getchar`, the end of the input met by it, or a byte written by `putchar`.
#[derive(Clone, Copy, Debug, PartialEq, Eq)]
pub enum Event {
    ReadByte(u8),
    ReadEnd,
    Wrote(u8),
}
