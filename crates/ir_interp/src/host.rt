//! The functions of the outside (C, "putchar" and "getchar").
ghost use Rattle.std.specs.Prelude.{◌≡◌, ℕ, List};
ghost use Rattle.ir_tree.specs.declared.operand.Symbol.{Symbol};
ghost use Rattle.ir_meaning.specs.Execute.{puts_char};
ghost use Rattle.ir_meaning.specs.Memory.{Memory as MeantMemory};
ghost use Rattle.ir_interp.specs.Calls.{all_meant, put_effect};

use crate::bits::bits_of;
use ir_machine::Scalar;

/// `i32 @putchar(i32)`, or `i32 @getchar()`.
#[derive(Clone, Copy)]
pub enum Host {
    PutChar,
    GetChar,
}

/// The byte that `putchar` writes of its arguments; None where it is poison.
pub fn put_char(arguments: &[Scalar]) -> Option<u8>
    ensures { (names : List Symbol) (memory : MeantMemory) (place : ℕ) → puts_char memory place (all_meant names arguments.now) ≡ put_effect memory place result }
{
    match arguments {
        [value] => match bits_of(32, *value) {
            Some(number) => Some((number % 256) as u8),
            None => None,
        },
        _ => None,
    }
}
