//! Which calls are to fail, and what a failed write leaves.
ghost use Rattle.std.specs.Prelude.{◌≡◌};
ghost use Rattle.outside_memory.specs.Failures.{leaves_at};

/// What a write that fails leaves of its file. A call that writes nothing changes nothing, whatever stands here.
#[derive(Clone, Copy, Debug, PartialEq, Eq)]
pub enum Leaves {
    /// What it held before, or no file where there was none.
    Before,
    /// No file. Of a save alone: a put leaves what the file held before.
    Absent,
    /// This many of the bytes that were to be written, and all of them where there are no more.
    Front(usize),
}

/// A call that is to fail.
#[derive(Clone, Copy, Debug, PartialEq, Eq)]
pub struct Failure {
    /// The call's number among all calls of its object. The first is number 0.
    pub call: u64,
    /// What it leaves, if it writes.
    pub leaves: Leaves,
}

/// What the call of this number is to leave where it is to fail.
pub(crate) fn failure_at(failures: &[Failure], call: u64) -> Option<Leaves>
    ensures { result ≡ leaves_at failures.now call }
{
    for failure in failures {
        if failure.call == call {
            return Some(failure.leaves);
        }
    }
    None
}
