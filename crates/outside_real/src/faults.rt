//! How many calls on an object have failed.
ghost use Rattle.std.specs.Prelude.{◌≡◌, ◌≤◌, ◌+◌, ◌-◌, ◌^◌, min};
ghost use Rattle.lto_outside.specs.Cause.{Rose};

/// The calls that have failed. The count stands still at `u64::MAX`.
#[derive(Clone, Copy, Debug, PartialEq, Eq)]
pub struct Faults {
    pub count: u64,
}

impl Faults {
    pub(crate) fn none() -> Self
        ensures { result.count ≡ 0 }
    {
        Faults { count: 0 }
    }

    /// Counts a fault.
    pub(crate) fn rise(&mut self)
        ensures counted { self.new.count ≡ min (self.old.count + 1) (2 ^ 64 - 1) }
        ensures later { self.old.count ≤ self.new.count }
        ensures rose { Rose self.old.count self.new.count }
    {
        self.count = self.count.saturating_add(1);
    }
}
