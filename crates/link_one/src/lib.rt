//! The link: from the bytes of files to the text of the linked module.
//!
//! The bytes of each file are read (`ir_parse`) and verified (`ir_verify`): [`accepted`] refuses bytes exactly where
//! they are read as no sound module within the limits, with the line and the kind of the first fault
//! (`specs/Accepted.antt`). [`link`] does the rest. By the index alone it is decided what is live, what it will be
//! called and what each module imports (`thin_link`, `combined_index`). Each module's part, its live definitions under
//! final names (`merge_meaning`), goes into its task with what it imports (`importer`). From the task alone the module
//! is compiled to pieces, which are printed at once (`specs/TaskUnits.antt`, `back_end`, `lto_task`). Several workers
//! do the tasks over a shared cache, in which each looks the text of its task up first (`back_pool`). The linked text
//! is joined of the pieces that are reached from the exported names (`emit`).
//!
//! **Promise.** Where the cache has no directory or its disk was honest, [`link`] keeps both promises of the linker:
//! the text is that of the linked module (`specs/Linked.antt`) of the modules that the files are read as, and no other
//! text is one; and each run of the linked program from an exported function is a run of the merged modules
//! (`specs/Linking.antt`). No clause names threads: with however many, the text is the same. Whatever the cache holds,
//! only modules that can be linked are linked, and why others aren't stands in `specs/Refusing.antt`. That decisions by
//! summaries are right of the program that the modules mean together is said by laws (`specs/MeaningLaws.antt`). Both
//! modules of a task are verified ([`tasks_are_verified`]), and so is the linked module ([`linked_is_verified`]).
//!
//! **Cost.** That of the stages: each definition is copied once under its final name. All tasks are made before the
//! first is compiled.
//!
//! **Not shown.** That threads or the cache save time: `bench/link` measures it.
#![tactic(auto)]

mod accepting;
mod laws;
mod linked;
mod linked_laws;
mod linking;
mod meaning_laws;
mod naming;
mod passes;
mod piece;
mod pool;
mod prepare;
mod referable;
mod target;
mod task_laws;
mod task_unit;
mod writable;

pub use accepting::{LinkError, Unsound, accepted};
pub use laws::{accepted_is_not_refused, linked_is_one, refused_is_one};
pub use linked_laws::{linked_is_verified, linked_refines, unlinked_is_one};
pub use linking::link;
pub use meaning_laws::{index_names_references, live_is_emitted, live_is_known, live_refines};
pub use task_laws::tasks_are_verified;
