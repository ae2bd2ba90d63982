//! What stays the same while a cache lives.
use std::marker::Brand;

/// What stays the same while a cache lives. The caller of [`crate::SharedCache::new`] chooses it; a type without data
/// names it, so it stands in contracts alone.
pub trait Setting {
    ghost use Rattle.std.specs.Prelude.{ℕ, List, Option};
    ghost use Rattle.lto_outside.specs.DiskStore.{DiskStore};

    /// A key that may be stored.
    ghost keys: { List ℕ → Type 0 };

    /// The directory, where there is one.
    ghost dir: { Option (List ℕ) };

    /// How often the disk had failed as the cache was made.
    ghost faults: { ℕ };

    /// What the disk held then, where that is told.
    ghost files: { Option DiskStore };
}

impl Setting for Brand {
    ghost use Rattle.std.specs.Prelude.{None};

    ghost keys = { λ key. Unit {0} };

    ghost dir = { None };

    ghost faults = { 0 };

    ghost files = { None };
}
