//! What a command says at its end: the linker's refusals, with their exit status and exact text, and the line of a run
//! that returned; and how they are sent to a sink of bytes.
//!
//! [`Refusal`] has a variant for each answer, and [`RefusalKind`] one for each kind of fault in a file. [`say`] sends the line
//! of a refusal, [`say_returned`] the line of a run that returned, and [`push_all`] any bytes. Below stand
//! `lto_outside` for sinks, `ir_tree` for texts and for how names are printed, and `itoa` for numbers.
//!
//! **Promise.** [`text`] gives just the line that the definition says (`specs/Texts`), and [`status`] the number that
//! the process ends with (`specs/Statuses`). What is sent is that very line; where not all of it was sent, a front of
//! it was, and the sink's count of faults rose (`specs/Pushing`).
//!
//! **Cost.** A text takes time and memory in its length; what is sent takes none, so a refusal is told also where
//! memory is what was lacking.
//!
//! **Not shown.** That memory is found for [`text`].
#![tactic(auto)]

mod kind;
mod line;
mod message;
mod parts;
mod refusal;
mod returned;
mod symbol;

pub use kind::RefusalKind;
pub use line::say;
pub use message::text;
pub use parts::push_all;
pub use refusal::{Refusal, status};
pub use returned::{Returned, say_returned};
