//! The combined index: what a link knows of all its modules, and what it decides by this alone: live symbols and names.
//!
//! A link decides by summaries alone what is kept, imported and renamed (Johnson, Amini and Li, "ThinLTO: Scalable and
//! Incremental LTO", 2017). [`combine`] takes each name to the symbol that it stands for in its module, gives each
//! symbol a number and says of each definition whether it prevails. [`live()`] marks the least set that has the exported
//! names and is closed under what definitions that prevail refer to; [`Walk`] is the work list of such a walk, and
//! [`reached`] one over any rows of numbers. Imports make other modules refer to a module's locals ([`promoted`]), so
//! [`final_names`] puts behind each local's name a suffix that is made of its module's bytes. Below stand `ir_summary`,
//! `symbol_resolve` (what prevails), `lto_sets`, `indexmap` (numbers by name), `sha1` and `itoa` (suffixes).
//!
//! **Promise.** The index is that of `specs/Indexed`, marks those of the least set (`specs/Liveness`), suffixes those of
//! `specs/Suffixes`, names those of `specs/Finals`, promoted locals those of `specs/Promotions`. A link is refused
//! exactly where a live definition refers to a name that nobody defines and the system doesn't give, or else a name that
//! is to be exported has no definition; and names exactly where two live symbols have one.
//!
//! **Cost.** Each name in a summary is looked up once, each number that is reached is followed once, each entry of its
//! row looked at once, and so is each reference of an imported body for each import: time and memory are linear in the
//! summaries and imports, but for names that are compared for the least.
//!
//! **Not shown.** That memory is found; that two modules have two suffixes: where they have one, a name that two symbols
//! would have is refused.
#![tactic(auto)]

mod combining;
mod decision;
mod definition;
mod error;
mod host;
mod index;
mod key;
mod least;
mod lists;
mod live_symbols;
mod module_suffix;
mod names;
mod naming;
mod numbering;
mod places;
mod plain;
mod promotion;
mod reach;
mod reaching;
mod referring;
mod refused;
mod scope;
mod taken;
mod walk;

pub use combining::combine;
pub use decision::live;
pub use definition::Definition;
pub use error::{NameTaken, NamesError};
pub use index::Index;
pub use live_symbols::Live;
pub use module_suffix::suffix;
pub use names::Names;
pub use naming::{final_name, final_names, suffix_at};
pub use promotion::promoted;
pub use reaching::reached;
pub use refused::{LiveError, Refused};
pub use walk::Walk;
