//! Why symbols get no final names.
use ir_tree::{Failure, Text};

/// Two live symbols have this final name.
#[derive(Drop)]
pub struct NameTaken {
    pub name: Text,
}

/// Why symbols get no final names.
pub type NamesError = Failure<NameTaken>;
