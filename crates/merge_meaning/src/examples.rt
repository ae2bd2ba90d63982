//! Two small modules, merged and linked, computed by the definitions.
ghost use Rattle.merge_meaning.specs.Examples.{MergedExample};

/// Merged and linked, two modules run as they should: locals stay apart, the first weak definition prevails, and a pointer
/// to a local leads to it.
pub fn merged_example()
    ensures { MergedExample }
{}
