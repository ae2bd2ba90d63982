//! Tests of the linker's outside, of its cache, and of what workers share.
//!
//! They try the traits of the outside (`lto_outside`) and the objects that meet them, in memory (`outside_memory`) and
//! over real files (`outside_real`); entries of the cache, the shared cache over a disk in memory and the turns at it
//! (`cache_slot`); numbers that workers draw (`claim_word`), pools (`back_pool`) and the core's events (`link_core`);
//! and the words of the command line and list files (`lto_words`). The tests stand above the crates, so that their own
//! proofs are not done twice, and in one crate, so that one program runs them all.
//!
//! **Promise.** No clause: what the clauses of these crates say is not tried again here. A test that passes shows that
//! the calls succeed with ample memory, what real files hold, and what threads beside each other get.
//!
//! **Cost.** Some tests start threads and wait for them, and those of real files write a few of them, one of more than
//! 16 MiB.
//!
//! **Not shown.** Interleavings of threads that a run of the tests doesn't come by. That real files behave so
//! elsewhere, as on another system or a full disk.
#![tactic(auto)]

#[cfg(test)]
mod cache;
#[cfg(test)]
mod calls;
#[cfg(test)]
mod claims;
#[cfg(test)]
mod command_line;
#[cfg(test)]
mod entries;
#[cfg(test)]
mod events;
#[cfg(test)]
mod lists;
#[cfg(test)]
mod meaning;
#[cfg(test)]
mod memory;
#[cfg(test)]
mod pool;
#[cfg(test)]
mod real;
#[cfg(test)]
mod traits;
#[cfg(test)]
mod turns;
