//! Where in a module an item may begin.

/// What stands before an item.
#[derive(Clone, Copy)]
pub enum Before {
    /// Nothing, or a whole item.
    Item,
    /// The head of a declaration, or an attribute behind it: more of them may follow.
    Declaration,
    /// Behind such a head, a name of metadata that ends its line: a node makes both an attribute.
    Name,
}

/// Where the next item may stand: what stands before it, and how many global names there may still
/// be.
#[derive(Clone, Copy)]
pub struct Position {
    pub before: Before,
    pub names: usize,
}
