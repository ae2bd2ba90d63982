//! Names of symbols as they are printed.
ghost use Rattle.std.specs.Prelude.{◌≡◌, ◌≤◌, ◌<◌, [], ◌∷◌};
ghost use Rattle.ir_tree.specs.Names.{escaped, hex_digit, is_plain, quoted};
ghost use Rattle.lto_outside.specs.Seen.{stream_seen};
ghost use Rattle.lto_fault.specs.Pushing.{Pushes};

use crate::parts::push_all;
use ir_tree::is_bare;
use lto_outside::ByteOut;

/// The upper-case digit of a number below 16.
fn hex_digit(digit: u8) -> u8
    requires { digit < 16 }
    ensures { result ≡ hex_digit digit }
{
    if digit < 10 {
        b'0' + digit
    } else {
        b'A' - 10 + digit
    }
}

/// Whether the byte stands for itself between quotes.
fn is_plain(byte: u8) -> bool
    ensures { result ≡ is_plain byte }
{
    32 <= byte && byte <= 126 && byte != b'"' && byte != b'\\'
}

/// Pushes a byte as it stands between quotes.
fn push_escape<N: ByteOut>(out: &mut N, byte: u8) -> bool
    ensures pushed { Pushes (stream_seen N.sent N.faults out.old out.new) (escaped (byte ∷ [])) result }
    ensures later { N.faults out.old ≤ N.faults out.new }
{
    if is_plain(byte) {
        push_all(out, &[byte])
    } else {
        push_all(out, &[b'\\', hex_digit(byte / 16), hex_digit(byte % 16)])
    }
}

/// Pushes bytes as they stand between quotes.
fn push_escaped<N: ByteOut>(out: &mut N, name: &[u8]) -> bool
    ensures pushed { Pushes (stream_seen N.sent N.faults out.old out.new) (escaped name.now) result }
    ensures later { N.faults out.old ≤ N.faults out.new }
{
    for byte in name {
        if !push_escape(out, *byte) {
            return false;
        }
    }
    true
}

/// Pushes a name as it is printed behind its sigil.
pub(crate) fn push_quoted<N: ByteOut>(out: &mut N, name: &[u8]) -> bool
    ensures pushed { Pushes (stream_seen N.sent N.faults out.old out.new) (quoted name.now) result }
    ensures later { N.faults out.old ≤ N.faults out.new }
{
    if is_bare(name) {
        return push_all(out, name);
    }
    if !push_all(out, b"\"") {
        return false;
    }
    if !push_escaped(out, name) {
        return false;
    }
    push_all(out, b"\"")
}
