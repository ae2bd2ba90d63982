//! Laws of the tasks of links of files.
ghost use Rattle.thinlto_main.specs.Tasks.{TasksAreSpelled, TasksAreTold};

use importer::tasks_are_of_parts;
use ir_round_trip::{
    declarations_are_spelled, parts_are_spelled, spelled_modules_are_told,
    tasks_with_one_text_are_one,
};
use link_one::tasks_are_verified;

/// The text of a task of files of bytes tells the whole of it.
pub fn tasks_are_spelled()
    ensures { TasksAreSpelled }
{
    declarations_are_spelled();
    parts_are_spelled();
    spelled_modules_are_told();
    tasks_are_of_parts();
    tasks_are_verified();
}

/// So two of them with one text are one, whichever links they are of.
pub fn tasks_are_told()
    ensures { TasksAreTold }
{
    tasks_are_spelled();
    tasks_with_one_text_are_one();
}
