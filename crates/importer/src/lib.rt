//! The tasks of a link: of each module all that its back end reads.
//!
//! What a module imports was decided by the index (`thin_link`): symbols, whose values stand in the parts of the modules under
//! final names (`merge_meaning`, `combined_index`). [`tasks_of`] finds these by name and puts them into the module's task as they
//! stand there, beside the module's own part. Behind both stand declarations of what they refer to and lack, as the link has it or
//! the system does. With them go the exported names that the part defines, and the final names of the locals that other modules
//! import from it (`specs/Tasks.antt`).
//!
//! **Promise.** Each module has its task (`specs/ModuleTasks.antt`), and no other task is the module's ([`task_is_one`]): its names
//! rise, its bodies stand in order, and so do its declarations. What a task has is of the parts, or the declaration of one, or
//! declares a function of the system ([`tasks_are_of_parts`]).
//!
//! **Cost.** What a task lacks is found by name in one table of all parts, and each reference is sorted once in its task. Values
//! are borrowed, and only declarations and names are copied. All tasks are made before the first is handed over.
//!
//! **Not shown.** That what is imported is inlined, or makes a linked program faster. That both modules of a task are verified is a
//! law of `link_one`, since it rests on what a link decides of the merged program.
#![tactic(auto)]

mod closing;
mod finals;
mod names;
mod outside;
mod setting;
mod table;
mod task_laws;
mod tasks;

pub use names::copies;
pub use table::push_all;
pub use task_laws::{task_is_one, tasks_are_of_parts};
pub use tasks::tasks_of;
