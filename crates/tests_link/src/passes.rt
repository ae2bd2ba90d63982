//! Passes, over a module and its first function as the pass makes it, worked out by hand: facts (`ir_facts`), dead code
//! (`dead_code`), slots (`slot_promote`), the passes over blocks (`branch_simplify`, `block_trim`), inlining at a call
//! (`inline_site`), the inline walk and the order of all (`back_end`). The rows of facts try the rule table (`fold_rules`). One
//! call applies each pass and prints (`rows`); each table has one test, which names the row that fails.
mod points;
mod rows;
mod sizes;
mod tables;
