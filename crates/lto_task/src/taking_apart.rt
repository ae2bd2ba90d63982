//! Takes the text of a unit apart.
ghost use Rattle.std.specs.Prelude.{◌≡◌, ◌<◌, ◌^◌, ◌↔◌, ◌++◌, ◌∷◌, ℕ, List, All, IfOk, IsTrue, MatchOption, flat_map, length};
ghost use Rattle.ir_tree.specs.Names.{AllBytes, quoted};
ghost use Rattle.lto_task.specs.Splits.{Lacks};
ghost use Rattle.lto_task.specs.Units.{IsUnit, IsWritten, UnitTextIsOne, head, name_line, piece_text, unit_text};
ghost use Rattle.lto_task.specs.declared.piece.Piece.{Piece};

use crate::order::is_in_order;
use crate::piece::Piece;
use crate::splits::{behind, split_first, split_number};
use ir_tree::{Rows, Text, quoted, unquoted};
use std::alloc::{AllocError, Global};

/// That the items of a slice are bytes.
pub fn all_bytes(bytes: &[u8])
    ensures { AllBytes bytes.now }
{}

/// Whether a name is written so.
fn is_quoted(alloc: Global, name: &[u8], written: &[u8]) -> Result<bool, AllocError>
    ensures { IfOk result (λ b. IsTrue b ↔ (written.now ≡ quoted name.now)) }
{
    let quoted = quoted(alloc, name)?;
    Ok(written == quoted.as_slice())
}

/// The name that is written so.
fn name(alloc: Global, written: &[u8]) -> Result<Option<Text>, AllocError>
    ensures { IfOk result (λ o. MatchOption o ((n : List ℕ) → AllBytes n → written.now ≡ quoted n → ⊥) (λ n. AllBytes n × (written.now ≡ quoted n))) }
{
    match unquoted(alloc, written)? {
        Some(name) => {
            all_bytes(name.as_slice());
            if is_quoted(alloc, name.as_slice(), written)? {
                Ok(Some(name))
            } else {
                Ok(None)
            }
        }
        None => Ok(None),
    }
}

/// What the first line of a piece says: the name, how many names follow, and how many bytes of text.
#[derive(Drop)]
struct Heading {
    name: Text,
    refs: usize,
    bytes: usize,
}

/// What a line says that is the first of a piece.
fn first_line(alloc: Global, line: &[u8]) -> Result<Option<Heading>, AllocError>
    ensures { IfOk result (λ o. MatchOption o ((n : List ℕ) (r b : ℕ) → AllBytes n → r < 2 ^ 64 → b < 2 ^ 64 → line.now ≡ head n r b → ⊥) (λ h. AllBytes h.name × (h.refs < 2 ^ 64) × (h.bytes < 2 ^ 64) × (line.now ≡ head h.name h.refs h.bytes))) }
{
    let Some(rest) = behind(line, b"def @") else {
        return Ok(None);
    };
    let Some((front, bytes)) = split_number(rest) else {
        return Ok(None);
    };
    let Some((written, refs)) = split_number(front) else {
        return Ok(None);
    };
    match name(alloc, written)? {
        Some(name) => Ok(Some(Heading { name, refs, bytes })),
        None => Ok(None),
    }
}

/// What is left of a text. What is read is taken off its front; behind something that isn't there it is left anywhere.
#[derive(Drop)]
struct Reader<'a> {
    rest: &'a [u8],
}

impl<'a> Reader<'a> {
    /// A line.
    fn line(&mut self) -> Option<&'a [u8]>
        ensures { MatchOption result (Lacks 10 self.old.rest.now) (λ line. Lacks 10 line.now × (self.old.rest.now ≡ line.now ++ 10 ∷ self.new.rest.now)) }
    {
        match split_first(self.rest, b'\n') {
            Some((line, rest)) => {
                self.rest = rest;
                Some(line)
            }
            None => None,
        }
    }

    /// A name on a line of its own.
    fn name_line(&mut self, alloc: Global) -> Result<Option<Text>, AllocError>
        ensures { IfOk result (λ o. MatchOption o ((n more : List ℕ) → AllBytes n → self.old.rest.now ≡ name_line n ++ more → ⊥) (λ n. AllBytes n × (self.old.rest.now ≡ name_line n ++ self.new.rest.now))) }
    {
        let Some(line) = self.line() else {
            return Ok(None);
        };
        match behind(line, b"@") {
            Some(written) => name(alloc, written),
            None => Ok(None),
        }
    }

    /// So many names, each on a line.
    fn names(&mut self, alloc: Global, count: usize) -> Result<Option<Rows<Text>>, AllocError>
        ensures { IfOk result (λ o. MatchOption o ((ns : List (List ℕ)) (more : List ℕ) → All AllBytes ns → length ns ≡ count → self.old.rest.now ≡ flat_map name_line ns ++ more → ⊥) (λ ns. All AllBytes ns × (length ns ≡ count) × (self.old.rest.now ≡ flat_map name_line ns ++ self.new.rest.now))) }
    {
        let mut names = Rows::new(alloc);
        for _ in 0..count {
            match self.name_line(alloc)? {
                Some(name) => names.push(name)?,
                None => return Ok(None),
            }
        }
        Ok(Some(names))
    }

    /// So many bytes.
    fn text(&mut self, alloc: Global, bytes: usize) -> Result<Option<Text>, AllocError>
        ensures { IfOk result (λ o. MatchOption o ((text more : List ℕ) → length text ≡ bytes → self.old.rest.now ≡ text ++ more → ⊥) (λ text. (length text ≡ bytes) × (self.old.rest.now ≡ text ++ self.new.rest.now))) }
    {
        if self.rest.len() < bytes {
            return Ok(None);
        }
        let (text, rest) = self.rest.split_at(bytes);
        self.rest = rest;
        Ok(Some(Text::copied(alloc, text)?))
    }

    /// What stands behind the first line of a piece.
    fn content(&mut self, alloc: Global, heading: Heading) -> Result<Option<Piece>, AllocError>
        ensures { IfOk result (λ o. MatchOption o ((refs : List (List ℕ)) (text more : List ℕ) → All AllBytes refs → length refs ≡ heading.refs → length text ≡ heading.bytes → self.old.rest.now ≡ flat_map name_line refs ++ (text ++ more) → ⊥) (λ p. (p.name ≡ heading.name) × All AllBytes p.refs × (length p.refs ≡ heading.refs) × (length p.text ≡ heading.bytes) × (self.old.rest.now ≡ flat_map name_line p.refs ++ (p.text ++ self.new.rest.now)))) }
    {
        let Some(refs) = self.names(alloc, heading.refs)? else {
            return Ok(None);
        };
        let Some(text) = self.text(alloc, heading.bytes)? else {
            return Ok(None);
        };
        let name = heading.name;
        Ok(Some(Piece { name, refs, text }))
    }

    /// A piece.
    fn piece(&mut self, alloc: Global) -> Result<Option<Piece>, AllocError>
        ensures { IfOk result (λ o. MatchOption o ((p : Piece) (more : List ℕ) → IsWritten p → self.old.rest.now ≡ piece_text p ++ more → ⊥) (λ p. IsWritten p × (self.old.rest.now ≡ piece_text p ++ self.new.rest.now))) }
    {
        let Some(line) = self.line() else {
            return Ok(None);
        };
        let Some(heading) = first_line(alloc, line)? else {
            return Ok(None);
        };
        self.content(alloc, heading)
    }
}

/// The pieces whose texts stand one behind another.
fn all_pieces(alloc: Global, bytes: &[u8]) -> Result<Option<Rows<Piece>>, AllocError>
    ensures { IfOk result (λ o. MatchOption o ((ps : List Piece) → All IsWritten ps → bytes.now ≡ unit_text ps → ⊥) (λ ps. All IsWritten ps × (bytes.now ≡ unit_text ps))) }
{
    let mut pieces = Rows::new(alloc);
    let mut reader = Reader { rest: bytes };
    while !reader.rest.is_empty() {
        let Some(piece) = reader.piece(alloc)? else {
            return Ok(None);
        };
        pieces.push(piece)?;
    }
    Ok(Some(pieces))
}

/// The pieces of the unit whose text this is; `None` exactly where it is the text of none.
pub fn pieces(alloc: Global, bytes: &[u8]) -> Result<Option<Rows<Piece>>, AllocError>
    ensures { IfOk result (λ o. MatchOption o ((ps : List Piece) → IsUnit ps → bytes.now ≡ unit_text ps → ⊥) (λ ps. IsUnit ps × (bytes.now ≡ unit_text ps))) }
{
    let Some(pieces) = all_pieces(alloc, bytes)? else {
        return Ok(None);
    };
    if !is_in_order(pieces.as_slice()) {
        return Ok(None);
    }
    Ok(Some(pieces))
}

/// Units with one text are one.
pub fn unit_text_is_one()
    ensures { UnitTextIsOne }
{}
