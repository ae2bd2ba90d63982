//! The thin link: what a link decides of its modules before it opens a body.
//!
//! Modules that have been read and verified are summarised, their symbols resolved, the summaries combined to one
//! index, and by the index alone it is decided what is live and what each module imports (the thin link of Johnson,
//! Amini and Li, "ThinLTO: Scalable and Incremental LTO", CGO 2017). A module imports the functions that its live
//! definitions call, and what those call in turn, while they are small: along a chain of direct calls the limit on
//! instructions falls by three tenths at each call. [`plan`] gives the functions to which a chain leads
//! (`specs/Chains`), each once, in the order of the index's numbers (`specs/Plans`). The report has for each module a
//! line, below it one for each of its definitions and one for each function that it imports, in the order of names
//! (`specs/Reports`). Below stand the crates of each other step, `symbol_resolve`, `ir_summary` and `combined_index`,
//! `lto_sets` for sets, and `lto_fault` for refusals.
//!
//! **Promise.** [`thin_link`] decides all in one call, and [`index`] prints it: the decisions are those of the
//! definitions, all of one and the same modules (`specs/Linking`), and modules have one answer ([`one_answer`]). A
//! refusal comes with the names of files (`specs/Refusing`): modules that can't be linked for target lines or symbols
//! first, then what the link lacks.
//!
//! **Cost.** That of the steps and of the text. Functions to import are found level by level, a level being the
//! functions at one place of a chain. Since the limit never rises along a chain, a function stands at the first level
//! where it is found under the highest limit that it can have, and is looked at once in each module: linear in the
//! module's definitions and the calls of what it imports. Each list of the report is sorted once. No thread is started.
//!
//! **Not shown.** That what is imported is worth it.
#![tactic(auto)]

mod deciding;
mod eligible;
mod entry;
mod laws;
mod levels;
mod lines;
mod order;
mod planning;
mod reach;
mod refusing;
mod report_text;
mod reporting;
mod seen;
mod summing;
mod table;

pub use deciding::{ThinLink, thin_link};
pub use laws::one_answer;
pub use planning::plan;
pub use report_text::report;
pub use reporting::index;
