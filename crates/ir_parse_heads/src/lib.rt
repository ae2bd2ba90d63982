//! Reads heads: attributes, heads of functions, and the lines that tell a module's target, source and comdats.
//!
//! Below stand single tokens, names, types, brackets, metadata and the laws of forms (`ir_parse_parts`), tokens (`ir_lex`) and
//! linkages (`ir_tree`). `attributes` reads those of parameters, results, calls and definitions, and attribute groups;
//! all are dropped but `noinline`, `optnone` and the groups that a definition names ([`Kept`]). `function_heads` reads
//! linkage, result, name and parameters; which linkages and names may stand depends on whether a body follows
//! ([`Role`]). `targets` takes data layouts of little endian with pointers of 64 bits, and refuses others as outside
//! the profile (LangRef, "Function Attributes", "Functions", "Data Layout").
//!
//! **Promise.** Each reader gives what the reader on lists of its name gives, value or fault, as [`head_at`]
//! (`specs/FunctionHeadsAt`) and [`definition_attributes_at`] (`specs/AttributesAt`); lemmas in `proofs/` tie these to
//! their forms (`specs/FunctionHeads`, `specs/Attributes`, `specs/Targets`).
//!
//! **Cost.** Linear in the tokens, and of a data layout in its bytes. Memory is taken for parameters, for names of
//! groups, for brackets that are open, and for the content of a layout; want of it is answered as such.
//!
//! **Not shown.** That an attribute that is dropped means nothing to a link: what may be dropped is a choice of the
//! profile. That memory is found.
#![tactic(auto)]

mod attributes;
mod function_heads;
mod targets;

pub use attributes::{
    Attribute, AttributePlace, Kept, attribute_group_at, call_attributes_at,
    definition_attributes_at, head_attribute_at, is_attribute_word, parameter_attribute_at,
    parameter_attributes_at,
};
pub use function_heads::{
    Role, comes_qualifier, end_of_none_at, head_at, is_local, is_qualifier, linkage_by,
    name_refusal, qualifier_word_at, with_linkage,
};
pub use targets::{comdat_line_at, layout_line_at, source_line_at, triple_line_at};
