//! Symbol resolution: which of the definitions of a name prevails, and which modules can't be linked.
//!
//! An external definition beats weak and linkonce ones, of which the first in command order prevails; an
//! `available_externally` body counts as a declaration, and what is local to a module is no concern of others (LangRef,
//! "Linkage Types"). Below stand `ir_tree`, for modules, and `indexmap`, which keeps the names in the order in which
//! they are first seen.
//!
//! **Promise.** The answer is that of the definition (`specs/Prevailing`), and a clash comes exactly where modules
//! clash, with the least name in the order of bytes.
//!
//! **Cost.** Each global value is looked at once, and each name twice: time and memory are linear in the modules.
//!
//! **Not shown.** That memory is found.
#![tactic(auto)]

mod clash;
mod facts;
mod least;
mod linked;
mod mention;
mod resolution;
mod table;
mod target;

pub use clash::{Clash, ClashError};
pub use linked::resolve;
pub use resolution::Resolution;
