//! The words of the command line as a command, and the files that it names: what is fetched, in order, and what is put.
//!
//! Below stand `clap`, which parses, `indexmap`, which keeps the names of a list in their order, `memchr`,
//! `lto_outside` for files, and `ir_tree`. The table of commands is data in `specs/Table`, and `clap`'s statement for
//! simple commands says which words fit it; what their values mean is said in `specs/Given`, and `specs/Commands` puts
//! both together as `IsCommand`. [`Command`] is what comes out, with the names of files ([`FileName`]) and what is
//! chosen for a link ([`LinkOptions`]). [`fetch_all`] fetches files one after another, up to one that can't be; a file
//! of more than 16 MiB is fetched as none. A batch has a list file: [`links`] reads it as the links that its lines are,
//! or tells the first line that is none (`specs/Listing`, [`one_list`]). [`fetch_links`] fetches what all links read,
//! [`put_all`] puts their texts.
//!
//! **Promise.** [`command`] gives a command that the words are, or Usage exactly where they are none, unless memory
//! runs out (`specs/Reads`); words are one command at most ([`one_command`]). The calls of the files that were made are
//! just the fetches or puts that are asked for, up to the first that failed ([`fetch_all`], `specs/Fetching`;
//! [`put_all`], `specs/Links`).
//!
//! **Cost.** Time and memory are linear in the words and in what is read and put, but for look-ups in the table, which
//! has at most seven options. Want of memory is answered as such.
//!
//! **Not shown.** That the table and list files are what README.md says: tests try words and lists. That memory is
//! found.
#![tactic(auto)]

mod argument;
mod fault;
mod fetching;
mod given;
mod laws;
mod linked;
mod list;
mod listing;
mod listing_laws;
mod name;
mod number;
mod options;
mod putting;
mod request;
mod table;
mod words;

pub use fault::WordsError;
pub use fetching::{FetchError, fetch_all, fetch_one};
pub use laws::one_command;
pub use linked::fetch_links;
pub use list::Decimal;
pub use listing::{BadLine, ListError, ListedLink, links};
pub use listing_laws::one_list;
pub use name::FileName;
pub use putting::put_all;
pub use request::{Command, LinkOptions};
pub use words::command;
