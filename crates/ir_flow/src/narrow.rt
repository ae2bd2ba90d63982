//! The meet of rows with what holds at a block's end.
ghost use Rattle.std.specs.Prelude.{◌≡◌, ◌≢◌, ℕ, ◌+◌, ◌<◌, ◌≤◌, List, Bool, true, false, length, slice_index_or, IfOk, OnOk, IsTrue, IsFalse};
ghost use Rattle.lto_sets.specs.Sets.{meet_of, contains};
ghost use Rattle.ir_flow.specs.Narrowing.{marks, IsNarrowed, AreSized};

use crate::work_list::WorkList;
use lto_sets::Bits;
use std::alloc::AllocError;

/// Keeps the members of a row that another has too, and says whether any is gone.
fn narrow(row: &mut Bits, other: &Bits, spare: &mut Bits) -> bool
    requires other { length other.now ≡ length row.old }
    requires spare { length spare.old ≡ length row.old }
    ensures value { row.new ≡ meet_of row.old other.now }
    ensures same { IsFalse result → row.new ≡ row.old }
    ensures changed { IsTrue result → row.new ≢ row.old }
    ensures spare { length spare.new ≡ length spare.old }
{
    spare.copy_from(row);
    spare.meet(other);
    if spare.equal(row) {
        return false;
    }
    row.copy_from(spare);
    true
}

/// Narrows the rows of these blocks that aren't fixed to what holds at a block's end, and lists each
/// that lost a member.
pub fn narrow_all(
    targets: &[u32],
    fixed: &Bits,
    end: &Bits,
    spare: &mut Bits,
    rows: &mut [Bits],
    waiting: &mut WorkList,
) -> Result<(), AllocError>
    requires targets { (k : ℕ) → k < length targets.now → slice_index_or targets.now k 0 < length rows.old }
    requires fixed { length fixed.now ≡ length rows.old }
    requires sized { AreSized (length end.now) rows.old }
    requires spare { length spare.old ≡ length end.now }
    requires waiting { length waiting.old.waiting ≡ length rows.old }
    ensures spare { length spare.new ≡ length spare.old }
    ensures count { length waiting.new.waiting ≡ length waiting.old.waiting }
    ensures done { OnOk result (IsNarrowed targets.now fixed.now end.now rows.old waiting.old.queue.items rows.new waiting.new.queue.items) }
{
    for target in targets {
        let place = *target as usize;
        if !fixed.has(*target) && narrow(&mut rows[place], end, spare) {
            waiting.put(*target)?;
        }
    }
    Ok(())
}
