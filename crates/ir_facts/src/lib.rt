//! Facts about the values of locals, and substitution by them: copy and constant propagation.
//!
//! [`candidates`] gives for each local of a function the operand that may stand for its value, if there is one: of a phi
//! the one operand that it takes beside its own value, of an instruction the operand of the rule table
//! (`specs/Candidates`). [`apply`] puts candidates in the place of locals, in rounds. In a round an instruction whose
//! operand rests on a free choice first becomes a freeze of that constant ([`settled`]), so that it is one value wherever
//! it stands. The definition (`specs/Steps`) is by facts at points, the greatest solution of equations over the edges. In
//! a sound function a fact whose operand no unreached block defines holds wherever its local is used, and so does each
//! where blocks are clear of the others, as tables of places and dominators tell (`specs/Clear`); else these are looked
//! up at points ([`function_at`]). [`facts`] gives the facts themselves, each with the points where it holds, of any
//! formed function (`specs/Points`). Below stand `fact_sources` (naming, replacing), `fold_rules` (the rule table),
//! `ir_tree`, `ir_flow`, `lto_sets`, `ir_edit`, and `ir_meaning` for what is proved.
//!
//! **Promise.** What [`apply`] makes is one function ([`applied_is_one`]), sound, and better in every program
//! ([`rounds_are_better`]). The facts are one list ([`facts_are_one`]), and hold where locals are used
//! ([`facts_hold_at_uses`]); what any solution makes of a sound function is better ([`steps_are_better`]).
//!
//! **Cost.** A round goes through the function a few times, and looks each use up in one table (in a set where a block
//! has many phis); rounds end behind one that changes nothing. Where no unreached block gives a local a value, blocks are
//! copied once for all rounds, and a round makes anew only what has a use that is replaced; else each round copies the
//! function. [`facts`] solves the equations of each fact by itself, and so does a round where blocks aren't clear.
//! [`facts`] and [`apply`] find the predecessor edges once; [`into_applied`] is given them.
//!
//! **Not shown.** How many rounds there are; that the result is shorter.
#![tactic(auto)]

mod choices;
mod clear;
mod flow;
mod in_place;
mod laws;
mod points;
mod rounds;
mod scopes;
mod sources;

pub use choices::settled;
pub use fact_sources::{Fact, function_at};
pub use laws::{
    applied_is_one, facts_are_one, facts_at_points_agree, facts_hold_at_uses, facts_make_steps,
    formed_functions_have_widths, line_sources_right, phi_sources_are_sole, phi_sources_right,
    rounds_are_better, settled_is_better, steps_are_better, steps_are_sound,
};
pub use points::facts;
pub use rounds::{apply, into_applied};
pub use sources::candidates;
