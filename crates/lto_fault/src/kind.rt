//! Why a file was refused.
use ir_tree::{FaultKind, Rule};

/// Why a file is read as no sound module, or as no list of links.
#[derive(Drop)]
pub enum RefusalKind {
    /// The text is read as no module; a file of more than 16 MiB passes a limit.
    Unread(FaultKind),
    /// The module that it is read as breaks this rule of soundness.
    Unsound(Rule),
    /// A line of the list file of a batch is no link.
    BadLine,
}
