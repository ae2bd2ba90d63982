//! What is handed on of a definition that is done.
use ir_tree::{Rows, Text};

/// A definition under its name in the linked module.
#[derive(Drop)]
pub struct Piece {
    pub name: Text,
    /// The names that the definition refers to, each once, in the order of bytes.
    pub refs: Rows<Text>,
    /// Its lines as they stand in the text of a module, each with its line feed.
    pub text: Text,
}
