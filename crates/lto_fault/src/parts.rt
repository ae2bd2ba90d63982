//! Texts in parts.
ghost use Rattle.std.specs.Prelude.{◌≡◌, ◌≤◌, [], ◌∷◌, map};
ghost use Rattle.lto_outside.specs.Seen.{stream_seen};
ghost use Rattle.lto_fault.specs.Pushing.{Pushes, joined};

use lto_outside::ByteOut;

/// Pushes all the bytes, or a front of them where the sink fails. It says whether it pushed all.
pub fn push_all<N: ByteOut>(out: &mut N, bytes: &[u8]) -> bool
    ensures pushed { Pushes (stream_seen N.sent N.faults out.old out.new) bytes.now result }
    ensures later { N.faults out.old ≤ N.faults out.new }
{
    for byte in bytes {
        match out.push(*byte) {
            Ok(()) => {}
            Err(_) => return false,
        }
    }
    true
}

/// The same of a text in parts.
pub(crate) fn push_parts<N: ByteOut>(out: &mut N, parts: &[&[u8]]) -> bool
    ensures pushed { Pushes (stream_seen N.sent N.faults out.old out.new) (joined (map (λ p. p.now) parts.now)) result }
    ensures later { N.faults out.old ≤ N.faults out.new }
{
    for part in parts {
        if !push_all(out, part) {
            return false;
        }
    }
    true
}

/// Three parts.
pub(crate) fn push_three<'a, N: ByteOut>(out: &mut N, a: &'a [u8], b: &'a [u8], c: &'a [u8]) -> bool
    ensures pushed { Pushes (stream_seen N.sent N.faults out.old out.new) (joined (a.now ∷ b.now ∷ c.now ∷ [])) result }
    ensures later { N.faults out.old ≤ N.faults out.new }
{
    push_parts(out, &[a, b, c])
}

/// Eight parts.
pub(crate) fn push_eight<'a, N: ByteOut>(
    out: &mut N,
    a: &'a [u8],
    b: &'a [u8],
    c: &'a [u8],
    d: &'a [u8],
    e: &'a [u8],
    f: &'a [u8],
    g: &'a [u8],
    h: &'a [u8],
) -> bool
    ensures pushed { Pushes (stream_seen N.sent N.faults out.old out.new) (joined (a.now ∷ b.now ∷ c.now ∷ d.now ∷ e.now ∷ f.now ∷ g.now ∷ h.now ∷ [])) result }
    ensures later { N.faults out.old ≤ N.faults out.new }
{
    push_parts(out, &[a, b, c, d, e, f, g, h])
}
