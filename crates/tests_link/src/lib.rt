//! Tests of passes and of links, and of what they stand on, by tables of texts.
//!
//! Of passes: operations on numbers (`lto_bits`) and on sets (`lto_sets`), over vectors that were worked out outside;
//! facts (`ir_facts`), dead code (`dead_code`), slots (`slot_promote`), the passes over blocks (`branch_simplify`,
//! `block_trim`), inlining at a call (`inline_site`), the inline walk and the order of all (`back_end`): a module, and
//! its first function as the pass makes it, worked out by hand. The rows of facts try the rule table (`fold_rules`). Of
//! links: the thin link (`thin_link`), by a table of links, each with its report or its refusal, and by call graphs of
//! four files; a known suffix and a promoted local (`combined_index`); the merged program of modules (`merge_meaning`),
//! whose definitions are those that resolution chooses (`symbol_resolve`); texts of units, and declarations
//! (`lto_task`). Modules are read and verified (`ir_parse`, `ir_verify`), so that no proof of their soundness is
//! needed.
//!
//! **Promise.** No clause: a test that passes tells of its own rows alone, and one that fails names the row. What the
//! clauses of these crates say is not tried again; rows show what no clause says, that a pass does its work.
//!
//! **Cost.** A test takes what its passes and links take; long functions are written by a loop. The tests stand above
//! the crates, in one, so that their proofs are not done twice and their statements are loaded once.
//!
//! **Not shown.** That a pass finds what no row has. Further links are rows of `tests_main`.
#![tactic(auto)]

#[cfg(test)]
mod links;
#[cfg(test)]
mod numbers;
#[cfg(test)]
mod passes;
