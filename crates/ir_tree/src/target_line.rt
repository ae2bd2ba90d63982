//! What a module is made for.

/// A line that says what a module is made for (LangRef, "Data Layout" and "Target Triple").
#[derive(Clone, Copy, Debug, PartialEq, Eq)]
pub enum TargetLine {
    Datalayout,
    Triple,
}
