//! What goes to a back end of one module of a link, and what comes back of it, each with its text.
//!
//! A back end works on one module and knows no other. What it reads is a [`Task`]: the inline limit, the names that are
//! exported and promoted, the module's definitions, and what it imports, with declarations of what both refer to and
//! lack ([`declaration_of`], `specs/Declarations`). What it hands on of a definition is a [`Piece`]: the name that it
//! has in the linked module, the names that it refers to, and its text (`specs/Pieces`). So a linked module is joined
//! without a look into any text, and no tree of a module lives longer than its compilation. The pieces of a module are
//! its unit. Below stand `ir_tree`, `ir_flow` for the marks that go with values, `ir_print` for texts, `ir_summary` for
//! what definitions refer to, and `itoa` and `memchr` for numbers and lines.
//!
//! **Promise.** A task has a text, which is the key of a cache ([`task_text`], `specs/Tasks`): tasks with one text have
//! the same limit, the same names, and modules with the same text ([`tasks_with_one_text_agree`]). A unit has a text,
//! as a file can hold it ([`unit_text`], `specs/Units`), and units with one text are one. [`pieces`] takes any bytes
//! apart: it gives the pieces of the unit whose text they are, and tells exactly where they are the text of none. A
//! declaration is formed and sound where the value is formed ([`declarations_are_sound`]).
//!
//! **Cost.** A definition is walked once for its names, which are sorted, and once for its text. A task's text is
//! written in one pass over values that are lent, each printed once and copied twice. A unit's text is written and read
//! in one pass; the text of a piece is copied whole and not looked into.
//!
//! **Not shown.** That memory is found.
#![tactic(auto)]

mod declaring;
mod making;
mod order;
mod piece;
mod splits;
mod taking_apart;
mod task;
mod task_writing;
mod writing;

pub use declaring::{declaration_of, declarations_are_sound};
pub use making::piece_of;
pub use piece::Piece;
pub use taking_apart::{all_bytes, pieces, unit_text_is_one};
pub use task::{Task, TaskModule};
pub use task_writing::{task_text, tasks_with_one_text_agree};
pub use writing::unit_text;
