//! Trees, tokens, printed forms, edits and data flow.
mod cutting;
mod edits;
mod flow;
mod printed;
mod shapes;
