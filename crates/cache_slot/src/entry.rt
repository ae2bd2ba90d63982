//! The layout of an entry: magic number, length of the key, length of the text, key, text.
ghost use Rattle.std.specs.Prelude.{◌≡◌, ◌<◌, ◌^◌, ◌++◌, length, ◌↔◌, IfOk, OnOk, IfSome, IsNone, MatchOption};
ghost use Rattle.cache_slot.specs.Entry.{magic, length_field, entry, IsNoEntry, ReadsAs, ReadsOneWay, HasNoProperPrefix};

use ir_tree::Text;
use std::alloc::{AllocError, Global};

/// The first bytes of each entry, which name the format and its version.
const MAGIC: &[u8; 8] = b"TLTOENT1";

/// Bytes before the key: the magic number and two lengths of eight bytes each.
const HEADER_LEN: usize = 24;

/// The entry that holds this key and text.
pub fn encode(alloc: Global, key: &[u8], text: &[u8]) -> Result<Text, AllocError>
    ensures { IfOk result (λ bytes. bytes ≡ entry key.now text.now) }
{
    let len = HEADER_LEN
        .saturating_add(key.len())
        .saturating_add(text.len());
    let mut bytes = Text::of(Vec::with_capacity(alloc, len)?);
    bytes.append(MAGIC)?;
    append_length(&mut bytes, key.len())?;
    append_length(&mut bytes, text.len())?;
    bytes.append(key)?;
    bytes.append(text)?;
    Ok(bytes)
}

/// Writes a length as eight bytes, the highest first.
#[tactic(auto, unfolding(crate::specs::Entry::length_field))]
fn append_length(bytes: &mut Text, len: usize) -> Result<(), AllocError>
    ensures { OnOk result (bytes.new ≡ bytes.old ++ length_field len) }
{
    bytes.append(&(len as u64).to_be_bytes())
}

/// The length in the first eight bytes, and the bytes behind them.
fn split_length(bytes: &[u8]) -> Option<(u64, &[u8])>
    ensures some { IfSome result (λ p. bytes.now ≡ length_field p.0 ++ p.1.now) }
    ensures range { IfSome result (λ p. p.0 < 2 ^ 64) }
    ensures none { IsNone result ↔ (length bytes.now < 8) }
{
    if bytes.len() < 8 {
        return None;
    }
    let (field, rest) = bytes.split_at(8);
    let len = u64::from_be_bytes([
        field[0], field[1], field[2], field[3], field[4], field[5], field[6], field[7],
    ]);
    Some((len, rest))
}

/// The key and the text of an entry, without a copy; `None` exactly where the bytes are no entry.
pub fn decode(bytes: &[u8]) -> Option<(&[u8], &[u8])>
    ensures { MatchOption result (IsNoEntry bytes.now) (λ p. ReadsAs bytes.now p.0.now p.1.now) }
{
    let lengths = bytes.strip_prefix(MAGIC)?;
    let (key_len, rest) = split_length(lengths)?;
    let (text_len, body) = split_length(rest)?;
    let key_len = key_len as usize;
    if body.len() < key_len || (body.len() - key_len) as u64 != text_len {
        return None;
    }
    Some(body.split_at(key_len))
}

/// Bytes are the entry of at most one key and text.
pub fn reads_one_way()
    ensures { ReadsOneWay }
{}

/// An entry that lost bytes at its end is no entry.
pub fn has_no_proper_prefix()
    ensures { HasNoProperPrefix }
{}
