//! Laws of the tasks of a link.
ghost use Rattle.importer.specs.TaskLaws.{TaskIsOne, TasksAreOfParts};

/// What a task has is of the parts of the link, the declaration of one, or declares a function of the outside.
pub fn tasks_are_of_parts()
    ensures { TasksAreOfParts }
{}

/// A module has one task: its names rise, its bodies stand in order, and so do the declarations of what they refer to and lack.
pub fn task_is_one()
    ensures { TaskIsOne }
{}
