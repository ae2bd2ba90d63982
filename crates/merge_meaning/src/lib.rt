//! The merged program of modules, and when a linked program refines it.
//!
//! The merged program is what the modules mean together. Of the definitions of a symbol it has the one that prevails,
//! and a name in it is the symbol that it stands for where it is written: a local of a module is a symbol of that
//! module, every other name one symbol of all (`specs/Merged`). It is said of lists of global values, as `ir_meaning`
//! says which program one module means. A link puts better functions in the places of its functions, keeps of these
//! definitions the live ones, and gives each its final name (`specs/Linked`). It compiles module by module: each
//! module's part has those of its definitions that prevail and are live, under final names (`specs/Lives`,
//! [`live_by_module`]), with what verification found of their control flow (`ir_flow`). Words that the rooms of a link
//! share stand here too: values by name (`specs/ByName`), the functions of the system (`specs/Hosts`), values that can
//! stand in one module (`specs/Linkable`). Below stand `ir_tree`, `ir_meaning`, `symbol_resolve` (what prevails) and
//! `combined_index` (marks and suffixes).
//!
//! **Promise.** [`program`] makes the merged program's list of global values, and [`parts`] the parts. Laws, as
//! functions with empty bodies: the definition that prevails is the one that a resolution names
//! ([`table_names_prevailing`]), what is merged can be run ([`merged_is_runnable`]), and what is linked refines the
//! merged program ([`linked_refines_merged`]).
//!
//! **Cost.** Each call copies what it gives once (`ir_edit`), and looks each name up once or twice (`indexmap`).
//!
//! **Not shown.** That memory is found.
#![tactic(auto)]

mod examples;
mod giving;
mod laws;
mod lives;
mod merging;
mod parting;
mod scope;
mod taken;

pub use examples::merged_example;
pub use laws::{
    emission_is_emitted, emitted_refines, final_names_lead_back, improved_is_better,
    linked_refines_merged, live_by_module, merged_is_runnable, merged_prevails,
    names_keep_soundness, one_module, table_names_prevailing,
};
pub use lives::LiveSymbols;
pub use merging::program;
pub use parting::parts;
