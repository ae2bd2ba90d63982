//! The operations on words are those of instructions.
ghost use Rattle.ir_meaning.specs.WordsAgree.{OperationsAgree};

/// Law: binary operations, comparisons and casts of numbers of any width are those of `lto_bits`.
pub fn operations_agree()
    ensures { OperationsAgree }
{}
