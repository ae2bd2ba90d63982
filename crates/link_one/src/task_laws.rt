//! Laws of the tasks of a link.
ghost use Rattle.link_one.specs.TaskLaws.{TasksAreVerified};

use crate::live_is_known;
use lto_task::declarations_are_sound;
use merge_meaning::live_by_module;

/// Both modules of a task of verified modules are verified: sound functions, each name once, and no name that isn't there.
pub fn tasks_are_verified()
    ensures { TasksAreVerified }
{
    declarations_are_sound();
    live_by_module();
    live_is_known();
}
