//! The shared cache over a disk in memory: faults one at a time, broken and misplaced entries, and threads.
mod one_caller;
mod script;
mod threads;
