//! The linker as one call: the link, batches of links, the index and the run of modules.
//!
//! [`top`] takes the words of the command line and the outside as five objects; the program (`thinlto`) makes the real
//! ones and calls it. Words are told by `lto_words`; a command fetches its files in order, once per occurrence
//! (`lto_words`), and reads each (`link_one`), and by the modules' summaries it is decided what is kept and imported
//! (`thin_link`). `link` puts the linked module, `batch` those of the links that its list file lists, once all are made,
//! `index` prints what was decided, and `run` runs the modules together (`run_program`). Links are compiled over one
//! cache of the command (`cache_slot`), in memory or in a directory.
//!
//! **Promise.** Which answer comes when is one definition by cases on the command ([`top`], `specs/Answers`). Of a
//! link, for any number of modules: the bytes put are the text of the linked module and of no other, and each run of
//! the linked program is a run of what the modules mean together (`specs/Linking`); over a directory, where its disk
//! was honest (`specs/Honest`). A run is the definition's, with 0 as every free choice. What files that tell hold is
//! said in `specs/Telling`, what a cache's disk holds in `specs/Keys`; tasks with one text are one
//! ([`tasks_are_told`]).
//!
//! **Cost.** Beside the link itself each byte is moved once; modules are copied once where they are merged. Want of
//! memory is answered with a status of its own, before anything is put or printed, or in a run or behind it.
//!
//! **Not shown.** That memory is found, and how long a command takes, which `bench/` measures. That real files keep
//! what was put (`outside_real`). That the definition of meaning is LLVM's, which `checks/` compares.
#![tactic(auto)]

mod batch;
mod cache;
mod command;
mod entry;
mod index;
mod link;
mod modules;
mod run;
mod status;
mod tasks;

pub use cache::LinkMakes;
pub use entry::{Ended, top};
pub use status::{Status, status_of};
pub use tasks::{tasks_are_spelled, tasks_are_told};
