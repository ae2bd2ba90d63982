//! How a command ended, and the number that the process ends with.
ghost use Rattle.std.specs.Prelude.{◌≡◌};
ghost use Rattle.thinlto_main.specs.Exit.{exit_of};

use lto_fault::{Refusal, status};

/// How a command ended.
pub type Status = Result<(), Refusal>;

/// The exit status of an answer: 0 where the command was done.
pub fn status_of(ended: &Status) -> u8
    ensures { result ≡ exit_of ended.now }
{
    match ended {
        Ok(()) => 0,
        Err(why) => status(why),
    }
}
