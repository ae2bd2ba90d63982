//! Aggregates that are open while their parts are laid out (LangRef, "Data Layout", "Structure Type", "Packed Structure Type").
ghost use Rattle.std.specs.Prelude.{◌≡◌, ◌≤◌, ◌^◌};
ghost use Rattle.ir_tree.specs.Layout as layout;
ghost use Rattle.machine_code.specs.Images.{Admits, left_of, padding, past};

use ir_tree::{Shape, align_of, size_of};

/// An array, or a structure of `whole` bytes, of which the next member may begin at `offset`.
#[derive(Clone, Copy)]
pub enum Open {
    Elements,
    Members {
        packed: bool,
        offset: u64,
        whole: u64,
    },
}

/// The least multiple of an alignment from an offset on.
fn rounded(offset: u64, align: u64) -> u64
    requires least { 1 ≤ align }
    requires most { align ≤ 8 }
    requires near { offset ≤ 2 ^ 31 }
    ensures { result ≡ layout.rounded offset align }
{
    (offset + (align - 1)) / align * align
}

/// Where a member begins that comes behind an offset.
#[tactic(auto, using(ir_tree::proofs::Layouts::align_least, ir_tree::proofs::Layouts::align_most))]
fn begin_of(packed: bool, offset: u64, shape: &Shape) -> u64
    requires laid { layout.IsLaidOut shape.now }
    requires near { offset ≤ 2 ^ 31 }
    ensures { result ≡ layout.begins packed offset shape.now }
{
    if packed {
        offset
    } else {
        rounded(offset, align_of(shape))
    }
}

impl Open {
    /// How many bytes of padding stand before the next part, of this shape.
    pub(crate) fn padding(self, shape: &Shape) -> u64
        requires laid { layout.IsLaidOut shape.now }
        requires admits { Admits self shape.now }
        ensures { result ≡ padding self shape.now }
    {
        match self {
            Open::Elements => 0,
            Open::Members { packed, offset, .. } => begin_of(packed, offset, shape) - offset,
        }
    }

    /// The aggregate behind its next part, of this shape.
    pub(crate) fn past(self, shape: &Shape) -> Open
        requires laid { layout.IsLaidOut shape.now }
        requires admits { Admits self shape.now }
        ensures { result ≡ past self shape.now }
    {
        match self {
            Open::Elements => Open::Elements,
            Open::Members {
                packed,
                offset,
                whole,
            } => {
                let begin = begin_of(packed, offset, shape);
                Open::Members {
                    packed,
                    offset: begin + size_of(shape),
                    whole,
                }
            }
        }
    }

    /// How many bytes of padding stand behind the last part.
    pub(crate) fn left(self) -> u64
        ensures { result ≡ left_of self }
    {
        match self {
            Open::Elements => 0,
            Open::Members { offset, whole, .. } => whole.saturating_sub(offset),
        }
    }
}
