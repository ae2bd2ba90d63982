//! Reads shapes and operands, and what is put together from them: terminators, `alloca` and `getelementptr`.
//!
//! Below stand the trees of what is written, with the readers of names, types, numbers and operands of one token and
//! the laws of forms (`ir_parse_parts`), the tokens of `ir_lex` and the types of `ir_tree`. `shapes` reads arrays,
//! structures and type names, and measures them as it goes ([`Extent`]); `values` reads operands with constant
//! addresses, which are kept level by level; `alignments` reads what follows an address. [`Listing`] is the list of a
//! block's lines, to which `addressing` adds; a terminator is read whole, into the place of what stood there. Nothing
//! is resolved here: a type name may have no definition, and a local may stand for nothing.
//!
//! **Promise.** Each reader gives what the reader on lists of its name gives, value or fault, as [`memory_shape_at`]
//! with the shape's extent, [`operand_at`], [`addressing_into`] and [`terminator_into`] (`specs/ShapeFormsAt`,
//! `ValuesAt`, `AddressingAt`, `TerminatorsAt`). Lemmas in `proofs/` tie these to the forms of LangRef
//! (`specs/ShapeForms`, `Values`, `Alignments`, `Addressing`, `Terminators`). A shape that is read has at most 32
//! levels and 2^31 bytes, where type names count as neither.
//!
//! **Cost.** Linear in the tokens; an `alloca` with a count goes over its shape once more. A shape recurses once for
//! each of its levels, a constant address keeps its open levels in a list. Memory is taken for nodes, lists and the
//! line that is added, and want of it is answered as such.
//!
//! **Not shown.** That memory is found. What a shape measures once its names expand, which `ir_parse_sizes` finds.
//! Whether types fit, which is `ir_verify`'s.
#![tactic(auto)]

mod adding;
mod addressing;
mod alignments;
mod extents;
mod listing;
mod shapes;
mod terminators;
mod values;

pub use adding::{push, push_item};
pub use addressing::{addressing_into, reserving_into};
pub use alignments::{align_at, aligned_at};
pub use extents::{Align, Extent, Room};
pub use listing::Listing;
pub use shapes::{
    Measured, angle_refusal, brace_behind_angle_at, count_at, counted, leaf_at, line_at,
    memory_shape_at,
};
pub use terminators::{End, Ended, Ending, Matched, constant_at, target_at, terminator_into};
pub use values::{
    address_at, argument_at, global_at, index_number_at, operand_at, pointed_at, pointer_at,
    stepping_at,
};
