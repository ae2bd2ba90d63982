//! Tests of the linker's one call (`thinlto_main`) over the outside in memory, by tables of texts.
//!
//! Of a link: modules and the text that they link to, or why they are refused; words and the status that they end with;
//! bodies up to the limit of inlining; lists of links. Of an index its report, or why there is none. Of a run how it
//! ends, what it reads and writes, and what its words and streams do. Of a cache: cold and warm, with 1, 2 and 64
//! workers, entries that are cut or swapped, and a disk that fails; and a worker that waits until another one is done.
//!
//! **Promise.** No clause: a test that passes tells of its own rows alone, and one that fails names the row. Rows show
//! what no clause says: that memory is found, that links do their work, and that two workers ran beside each other.
//!
//! **Cost.** A test takes what its links and runs take. The tests stand above the call, so that its proof isn't done
//! twice.
//!
//! **Not shown.** The real outside, of which each adapter has a test in `tests_outside`.
#![tactic(auto)]

#[cfg(test)]
mod caches;
#[cfg(test)]
mod tables;
