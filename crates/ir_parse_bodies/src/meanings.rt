//! What a reader of one token gives.

ghost use Rattle.std.specs.Prelude.{◌≡◌, Ok, Err, MatchResult};
ghost use Rattle.ir_tree.specs.declared.failure.Failure.TheVariants as errors;

use ir_parse_parts::{Fault, ReaderError, TokenFault};

/// The value that a token means, or the fault at it, where so many tokens were left before it was taken.
pub fn meant<T>(left: usize, meaning: Result<T, TokenFault>) -> Result<T, ReaderError>
    ensures { MatchResult meaning (λ x. result ≡ Ok x) (λ kind. result ≡ Err (errors.Fault (record { left = left; kind = kind }))) }
{
    match meaning {
        Ok(x) => Ok(x),
        Err(kind) => Err(ReaderError::Fault(Fault { left, kind })),
    }
}
