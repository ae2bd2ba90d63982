//! The back ends of a link, on threads over a shared cache.
//!
//! A link compiles each of its modules from a task ([`lto_task::Task`]). [`run_pool`] does a list of tasks by up to 64
//! workers. Each worker draws the number of a task from a claim word, looks the task's text up in the cache, and where
//! no unit is found it has the task compiled by the [`Backend`], and stores the unit's text. What was found is taken
//! apart as bytes that anybody may have written: only the text of a unit is taken. Below stand `claim_word` for
//! numbers, `cache_slot` for the cache, `lto_task` for tasks, units and their texts, and `lto_outside` for the gate,
//! which each worker passes before it claims, looks up and stores, and once its task is done.
//!
//! **Promise.** The answers stand in the order of the tasks, and each is a unit. Each is made of its task, as the back
//! end says, where the cache has no directory or its disk was honest (`specs/Making.antt`). No clause names a worker,
//! an interleaving or the number of jobs. What the caller's pass had seen of the cache begins what it has seen then.
//!
//! **Cost.** A list of results, and for each worker a list with room for all tasks, are reserved before any worker
//! starts. A worker takes one atomic step for each number, one turn of the cache for each look-up and store, and no
//! lock while it compiles. Where memory is lacking for one task the others are still done, and the call is refused.
//!
//! **Not shown.** That a look-up comes before a compilation, and that what was compiled is stored: a pool that compiles
//! each task meets the clauses too. When the gate is passed. That the call succeeds where there is memory, or returns
//! at all.
#![tactic(auto)]

mod backend;
mod done;
mod gather;
mod pool;
mod run;
mod start;
mod worker;

pub use backend::Backend;
pub use start::run_pool;
