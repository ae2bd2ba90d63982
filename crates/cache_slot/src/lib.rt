//! The compile cache: entries with their files, and the one history in which all look-ups and stores of a command
//! stand.
//!
//! An entry keeps the text that a back end made beside the whole key that it was made of ([`encode`], [`decode`],
//! `specs/Entry`), in a file whose name is the key's hash ([`file_name`]). A [`Shelf`] has the cache's disk, its
//! directory, and a history, a list of records, one for each look-up and store. The history stands in contracts alone,
//! and so does what stays over the life of a cache ([`Setting`]); what is kept at run time are the texts of its
//! entries, in a table by their keys. Callers use the one shelf in turn, by a ticket lock ([`SharedCache`]), each
//! through a [`CachePass`] that knows the history as it was at its last turn. A key is looked up among the entries
//! first and then in its file; a cache without a directory lives in memory for one command. Below stand `lto_outside`
//! for the disk, `sha1` and `hex` for names, `atomic_table` for the lock's words, and `claim_word`, whose lemmas on the
//! views of all places are this lock's too.
//!
//! **Promise.** Bytes are read back as exactly the key and text that were written, and all others are refused. Each
//! look-up and each store is one turn, and adds one record to the history that this turn found, or none where memory
//! was refused. A hit is of this very key; a miss has its cause; a key that a pass has seen stored is never missed;
//! what is found is made of its key, where the disk was honest. At the end the history says what each file of the
//! directory holds, and every other file is as it was.
//!
//! **Cost.** Memory is taken first, and a refusal changes nothing. An entry keeps one copy of its key and one of its
//! text, and is found by its hash, in time linear in key and text unless hashes collide. A load and a save are one call
//! of the disk each, made while other callers wait; without a directory neither a file's name nor its bytes are
//! computed.
//!
//! **Not shown.** That a caller's turn ever comes, or that the cache saves time. That memory is found.
#![tactic(auto)]

mod cache;
mod directory;
mod entry;
mod find;
mod history;
mod kept;
mod key;
mod lock;
mod naming;
mod place;
mod record;
mod records;
mod rule;
mod save;
mod setting;
mod shelf;
mod sight;

pub use cache::{CachePass, Refused, SharedCache};
pub use entry::{decode, encode, has_no_proper_prefix, reads_one_way};
pub use kept::{Kept, SkipCause};
pub use lock::TicketLock;
pub use naming::file_name;
pub use place::TurnHandle;
pub use record::{Record, Why};
pub use rule::Logged;
pub use setting::Setting;
pub use shelf::Shelf;
pub use sight::{Sight, Stage};
