//! Links: the whole of the thin link (`thin_link`), by a table of links, each with its report or its refusal, and by call graphs
//! of four files, whose long functions a loop writes; a known suffix and a promoted local (`combined_index`); the merged program
//! of modules (`merge_meaning`), whose definitions are those that resolution chooses (`symbol_resolve`); texts of units, and
//! declarations (`lto_task`); control flow that goes with the parts. Further links are rows of `tests_main`.
mod declarations;
mod files;
mod flows;
mod graphs;
mod merged;
mod names;
mod reports;
mod units;
