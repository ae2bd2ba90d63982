//! The list file of a batch: a line for each link, with the names of the file that it is put in and of its modules.
ghost use Rattle.std.specs.List.{list_all};
ghost use Rattle.std.specs.Prelude.{◌≡◌, ◌==◌, ◌∷◌, ◌<◌, ◌+◌, count_by, length, map, IfOk, MatchOption, true, false};
ghost use Rattle.lto_words.specs.Listing.{IsLink, IsListed, Lists, is_name, lines_of, names_in};
ghost use Rattle.lto_words.specs.declared.listing.ListedLink.{ListedLink};

use crate::FileName;
use ir_tree::{Failure, Rows};
use memchr::memchr;
use std::alloc::{AllocError, AllocFailed, Global};

/// How many links a batch has at most.
const MOST_LINKS: usize = 16;

/// How many modules a link of a batch has at most.
const MOST_MODULES: usize = 4_096;

/// A link of a batch.
#[derive(Drop)]
pub struct ListedLink {
    /// The file that the linked module is put in.
    pub out: FileName,
    /// The modules, 1 to 4,096.
    pub files: Rows<FileName>,
}

/// The first line that is no link has this number; lines count from 1.
#[derive(Clone, Copy, Debug, PartialEq, Eq)]
pub struct BadLine {
    pub line: u64,
}

/// Why bytes aren't read as a list of links.
pub type ListError = Failure<BadLine>;

/// The first line of a text that isn't empty, and what stands behind its end.
fn first_line(text: &[u8]) -> (&[u8], &[u8])
    requires { 0 < length text.now }
    ensures lines { lines_of text.now ≡ result.0.now ∷ lines_of result.1.now }
    ensures shorter { length result.1.now < length text.now }
{
    match memchr(b'\n', text) {
        Some(at) => (&text[..at], &text[at + 1..]),
        None => (text, &[]),
    }
}

/// The name that these bytes are, unless they are none.
fn name_of(alloc: Global, bytes: &[u8]) -> Result<Option<FileName>, AllocError>
    ensures { IfOk result (λ o. MatchOption o (is_name bytes.now ≡ false) (λ name. (is_name bytes.now ≡ true) × (name ≡ bytes.now))) }
{
    match str::from_utf8(bytes) {
        Ok(text) if !text.is_empty() => Ok(Some(FileName::copied(alloc, text)?)),
        _ => Ok(None),
    }
}

/// How many spaces a line has.
fn spaces(line: &[u8]) -> usize
    ensures { result ≡ count_by (λ b. b == 32) line.now }
{
    line.iter().filter(|b| **b == b' ').count()
}

/// What stands between the spaces of a line.
fn parts(alloc: Global, line: &[u8]) -> Result<Vec<&[u8]>, AllocError>
    ensures { IfOk result (λ v. map (λ s. s.now) v.items ≡ names_in line.now) }
{
    line.split(|b| *b == b' ').collect(alloc)
}

/// The names that these are, unless one of them is none.
fn names(alloc: Global, parts: &[&[u8]]) -> Result<Option<Rows<FileName>>, AllocError>
    ensures { IfOk result (λ o. MatchOption o (list_all is_name (map (λ s. s.now) parts.now) ≡ false) (λ names. (list_all is_name (map (λ s. s.now) parts.now) ≡ true) × (names ≡ map (λ s. s.now) parts.now))) }
{
    let mut names = Rows::new(alloc);
    for part in parts {
        let Some(name) = name_of(alloc, part)? else {
            return Ok(None);
        };
        names.push(name)?;
    }
    Ok(Some(names))
}

/// The link that a line is, unless it is none.
fn link_of(alloc: Global, line: &[u8]) -> Result<Option<ListedLink>, AllocError>
    ensures { IfOk result (λ o. MatchOption o ((link : ListedLink) → Lists line.now link → ⊥) (Lists line.now)) }
{
    let modules = spaces(line);
    if modules == 0 || modules > MOST_MODULES {
        return Ok(None);
    }
    let parts = parts(alloc, line)?;
    let Some((first, others)) = parts.split_first() else {
        return Ok(None);
    };
    let Some(out) = name_of(alloc, first)? else {
        return Ok(None);
    };
    let Some(files) = names(alloc, others)? else {
        return Ok(None);
    };
    Ok(Some(ListedLink { out, files }))
}

/// The link that a line is, which stands behind this many others, unless it is none.
fn link_at(alloc: Global, others: usize, line: &[u8]) -> Result<Option<ListedLink>, AllocError>
    ensures { IfOk result (λ o. MatchOption o ((link : ListedLink) → IsLink (others + 1) line.now link → ⊥) (IsLink (others + 1) line.now)) }
{
    if others < MOST_LINKS {
        link_of(alloc, line)
    } else {
        Ok(None)
    }
}

/// The links that a list file lists, or the first line that is none.
pub fn links(alloc: Global, bytes: &[u8]) -> Result<Rows<ListedLink>, ListError>
    ensures { IsListed bytes.now result }
{
    let mut links = Rows::new(alloc);
    let mut rest = bytes;
    while !rest.is_empty() {
        let (line, behind) = first_line(rest);
        let Some(link) = link_at(alloc, links.len(), line)? else {
            let line = links.len() as u64 + 1;
            return Err(ListError::Fault(BadLine { line }));
        };
        links.push(link)?;
        rest = behind;
    }
    Ok(links)
}
