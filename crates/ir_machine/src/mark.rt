//! Bytes of a block, one mark each.
ghost use Rattle.std.specs.Prelude.{◌≡◌, ◌≤◌, ◌<◌, ◌^◌, ◌*◌, ◌+◌, ◌++◌, length, take, drop, replicate, IfSome};
ghost use Rattle.std.specs.List.{list_any};
ghost use Rattle.ir_machine.specs.Marks.{is_unset, is_spoilt, marks_number, number_marks, part_marks, are_parts};

/// A byte: never written, poison, a number, or one of the eight parts of a pointer, counted from 0. The
/// pointer itself stands beside the marks, once, under the place of its first part.
#[derive(Clone, Copy, Debug)]
pub enum ByteMark {
    Unset,
    Spoilt,
    Plain(u8),
    Part(u8),
}

/// Whether a byte was never written.
pub(crate) fn any_unset(marks: &[ByteMark]) -> bool
    ensures { result ≡ list_any is_unset marks.now }
{
    marks.iter().any(|mark| matches!(mark, ByteMark::Unset))
}

/// Whether a byte is poison.
pub(crate) fn any_spoilt(marks: &[ByteMark]) -> bool
    ensures { result ≡ list_any is_spoilt marks.now }
{
    marks.iter().any(|mark| matches!(mark, ByteMark::Spoilt))
}

/// The number that up to eight bytes are, the lowest first: None where one is no number.
pub(crate) fn number_in(marks: &[ByteMark]) -> Option<u64>
    requires few { length marks.now ≤ 8 }
    ensures number { result ≡ marks_number marks.now }
    ensures below { IfSome result (λ n. n < 2 ^ (8 * length marks.now)) }
{
    match marks {
        [] => Some(0),
        [ByteMark::Plain(byte), rest @ ..] => {
            let byte = *byte;
            let higher = number_in(rest)?;
            Some(u64::from(byte) + 256 * higher)
        }
        _ => None,
    }
}

/// Whether the marks are parts in their order, of which the first is `first`.
pub(crate) fn parts_in_order(marks: &[ByteMark], first: u8) -> bool
    requires { first + length marks.now ≤ 8 }
    ensures { result ≡ are_parts first marks.now }
{
    match marks {
        [] => true,
        [ByteMark::Part(index), rest @ ..] => *index == first && parts_in_order(rest, first + 1),
        _ => false,
    }
}

/// Writes a number, the lowest byte first.
pub(crate) fn put_number(slots: &mut [ByteMark], number: u64)
    ensures { slots.new ≡ number_marks (length slots.old) number }
{
    let mut rest = number;
    for slot in slots.iter_mut() {
        *slot = ByteMark::Plain((rest % 256) as u8);
        rest /= 256;
    }
}

/// Writes the parts of a pointer.
pub(crate) fn put_parts(slots: &mut [ByteMark])
    requires { length slots.old ≤ 8 }
    ensures { slots.new ≡ part_marks (length slots.old) 0 }
{
    let mut index = 0;
    for slot in slots.iter_mut() {
        *slot = ByteMark::Part(index);
        index += 1;
    }
}

/// Writes poison.
pub(crate) fn put_poison(slots: &mut [ByteMark])
    ensures { slots.new ≡ replicate (length slots.old) ByteMark.Spoilt }
{
    slots.fill(ByteMark::Spoilt);
}

/// Writes a number of `size` bytes at a place.
pub(crate) fn write_number(marks: &mut Vec<ByteMark>, place: usize, size: usize, number: u64)
    requires { place + size ≤ length marks.old.items }
    ensures { marks.new.items ≡ take place marks.old.items ++ (number_marks size number ++ drop (place + size) marks.old.items) }
{
    put_number(&mut marks[place..place + size], number);
}

/// Writes the eight parts of a pointer at a place.
pub(crate) fn write_parts(marks: &mut Vec<ByteMark>, place: usize)
    requires { place + 8 ≤ length marks.old.items }
    ensures { marks.new.items ≡ take place marks.old.items ++ (part_marks 8 0 ++ drop (place + 8) marks.old.items) }
{
    put_parts(&mut marks[place..place + 8]);
}

/// Writes `size` bytes of poison at a place.
pub(crate) fn write_poison(marks: &mut Vec<ByteMark>, place: usize, size: usize)
    requires { place + size ≤ length marks.old.items }
    ensures { marks.new.items ≡ take place marks.old.items ++ (replicate size ByteMark.Spoilt ++ drop (place + size) marks.old.items) }
{
    put_poison(&mut marks[place..place + size]);
}
