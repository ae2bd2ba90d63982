//! How many calls were made on an object, and how many of them failed.
ghost use Rattle.std.specs.Prelude.{◌≡◌, ◌≤◌};
ghost use Rattle.lto_outside.specs.Cause.{Rose};
ghost use Rattle.outside_memory.specs.Calls.{no_calls, called, faulted};

/// The calls made, and those of them that failed. Both counts stand still at `u64::MAX`.
#[derive(Clone, Copy, Debug, PartialEq, Eq)]
pub struct Calls {
    pub made: u64,
    pub failed: u64,
}

impl Calls {
    pub(crate) fn none() -> Self
        ensures { result ≡ no_calls }
    {
        Calls { made: 0, failed: 0 }
    }

    /// Counts one more call, and gives its number. The first call is number 0.
    pub(crate) fn call(&mut self) -> u64
        ensures number { result ≡ self.old.made }
        ensures counted { self.new ≡ called self.old }
    {
        let number = self.made;
        self.made = self.made.saturating_add(1);
        number
    }

    /// Counts a fault.
    pub(crate) fn fail(&mut self)
        ensures counted { self.new ≡ faulted self.old }
        ensures later { self.old.failed ≤ self.new.failed }
        ensures rose { Rose self.old.failed self.new.failed }
    {
        self.failed = self.failed.saturating_add(1);
    }
}
