//! What the code above may conclude from these traits' clauses.
ghost use Rattle.lto_outside.specs.Laws.{CallsCompose, NoPutChangesNothing, StayingKeepsHonest, SaveKeepsHonest, FailedSaveKeepsHonest};

use crate::disk::Meaning;

/// Calls in a row do to files what the calls one after another do, and calls of which none is a put change none.
pub fn calls_in_a_row()
    ensures compose { CallsCompose }
    ensures no_put { NoPutChangesNothing }
{}

/// An honest disk stays honest: under every load, under a save of an honest entry, and under one that failed, where
/// each front of the bytes is honest.
pub fn disk_stays_honest<M: Meaning>()
    ensures stay { StayingKeepsHonest M.fits }
    ensures saved { SaveKeepsHonest M.fits }
    ensures part { FailedSaveKeepsHonest M.fits }
{}
