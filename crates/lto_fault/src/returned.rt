//! The line of a run that returned.
ghost use Rattle.std.specs.Prelude.{◌≡◌, ◌≤◌};
ghost use Rattle.lto_outside.specs.Seen.{stream_seen};
ghost use Rattle.lto_fault.specs.Pushing.{Hears, Pushes};
ghost use Rattle.lto_fault.specs.Returned.{returned_text, sign_words};

use crate::parts::{push_all, push_three};
use itoa::Buffer;
use lto_outside::ByteOut;

/// What a run returned.
#[derive(Clone, Copy, Debug)]
pub enum Returned {
    /// No value.
    Nothing,
    /// A truth value.
    Truth(bool),
    /// Another integer, by its sign and its magnitude.
    Number { negative: bool, magnitude: u64 },
    /// A pointer.
    Pointer,
    /// Poison.
    Poison,
}

/// What stands before the digits of a number.
fn sign_words(negative: bool) -> &'static [u8]
    ensures { result.now ≡ sign_words negative }
{
    if negative {
        return b"returned -";
    }
    b"returned "
}

fn push_truth<N: ByteOut>(out: &mut N, holds: bool) -> bool
    ensures pushed { Pushes (stream_seen N.sent N.faults out.old out.new) (returned_text (Returned.Truth holds)) result }
    ensures later { N.faults out.old ≤ N.faults out.new }
{
    if holds {
        return push_all(out, b"returned true\n");
    }
    push_all(out, b"returned false\n")
}

fn push_number<N: ByteOut>(out: &mut N, negative: bool, magnitude: u64) -> bool
    ensures pushed { Pushes (stream_seen N.sent N.faults out.old out.new) (returned_text (Returned.Number negative magnitude)) result }
    ensures later { N.faults out.old ≤ N.faults out.new }
{
    let mut buffer = Buffer::new();
    let number = buffer.format(magnitude).as_bytes();
    push_three(out, sign_words(negative), number, b"\n")
}

fn push_returned<N: ByteOut>(out: &mut N, returned: Returned) -> bool
    ensures pushed { Pushes (stream_seen N.sent N.faults out.old out.new) (returned_text returned) result }
    ensures later { N.faults out.old ≤ N.faults out.new }
{
    match returned {
        Returned::Nothing => push_all(out, b"returned\n"),
        Returned::Truth(holds) => push_truth(out, holds),
        Returned::Number {
            negative,
            magnitude,
        } => push_number(out, negative, magnitude),
        Returned::Pointer => push_all(out, b"returned pointer\n"),
        Returned::Poison => push_all(out, b"returned poison\n"),
    }
}

/// Says what a run returned. Where the sink fails, a front of the line is pushed.
pub fn say_returned<N: ByteOut>(notes: &mut N, returned: Returned)
    ensures said { Hears (stream_seen N.sent N.faults notes.old notes.new) (returned_text returned) }
    ensures later { N.faults notes.old ≤ N.faults notes.new }
{
    let _whole = push_returned(notes, returned);
}
