//! Writes names, numbers and the text of a unit.
ghost use Rattle.std.specs.Prelude.{◌≡◌, ◌++◌, All, decimal, flat_map, IfOk, OnOk};
ghost use Rattle.ir_tree.specs.Names.{AllBytes};
ghost use Rattle.lto_task.specs.Units as units;

use crate::piece::Piece;
use crate::taking_apart::all_bytes;
use ir_tree::{Text, quoted};
use itoa::Buffer;
use std::alloc::{AllocError, Global};

fn push_name(alloc: Global, out: &mut Text, name: &[u8]) -> Result<(), AllocError>
    ensures wrote { OnOk result (out.new ≡ out.old ++ units.name_text name.now) }
    ensures bytes { AllBytes name.now }
{
    all_bytes(name);
    let written = quoted(alloc, name)?;
    out.append(b"@")?;
    out.append(written.as_slice())
}

pub(crate) fn push_name_line(alloc: Global, out: &mut Text, name: &[u8]) -> Result<(), AllocError>
    ensures wrote { OnOk result (out.new ≡ out.old ++ units.name_line name.now) }
    ensures bytes { AllBytes name.now }
{
    push_name(alloc, out, name)?;
    out.append(b"\n")
}

pub(crate) fn push_number(out: &mut Text, number: usize) -> Result<(), AllocError>
    ensures { OnOk result (out.new ≡ out.old ++ decimal number) }
{
    let mut buffer = Buffer::new();
    out.append(buffer.format(number).as_bytes())
}

fn push_head(
    alloc: Global,
    out: &mut Text,
    name: &[u8],
    refs: usize,
    bytes: usize,
) -> Result<(), AllocError>
    ensures { OnOk result (out.new ≡ out.old ++ units.head name.now refs bytes) }
{
    out.append(b"def ")?;
    push_name(alloc, out, name)?;
    out.append(b" ")?;
    push_number(out, refs)?;
    out.append(b" ")?;
    push_number(out, bytes)
}

pub(crate) fn push_names(alloc: Global, out: &mut Text, names: &[Text]) -> Result<(), AllocError>
    ensures wrote { OnOk result (out.new ≡ out.old ++ flat_map units.name_line names.now) }
    ensures bytes { OnOk result (All AllBytes names.now) }
{
    for name in names {
        push_name_line(alloc, out, name.as_slice())?;
    }
    Ok(())
}

fn push_piece(alloc: Global, out: &mut Text, piece: &Piece) -> Result<(), AllocError>
    ensures { OnOk result (out.new ≡ out.old ++ units.piece_text piece.now) }
{
    push_head(
        alloc,
        out,
        piece.name.as_slice(),
        piece.refs.len(),
        piece.text.len(),
    )?;
    out.append(b"\n")?;
    push_names(alloc, out, piece.refs.as_slice())?;
    out.append(piece.text.as_slice())
}

/// The text of a unit of these pieces: of each a line `def @N R B` with its name, the number of names that it refers to and the
/// number of bytes of its text, then a line for each of these names, and then the text. The unit of no pieces has no bytes.
pub fn unit_text(alloc: Global, pieces: &[Piece]) -> Result<Text, AllocError>
    ensures { IfOk result (λ text. text ≡ units.unit_text pieces.now) }
{
    let mut out = Text::new(alloc);
    for piece in pieces {
        push_piece(alloc, &mut out, piece)?;
    }
    Ok(out)
}
