//! What has become of a task.
use ir_tree::Rows;
use lto_task::Piece;

/// The pieces of the task of this number, or nothing where memory was lacking.
#[derive(Drop)]
pub(crate) struct Done {
    pub(crate) number: u32,
    pub(crate) pieces: Option<Rows<Piece>>,
}
