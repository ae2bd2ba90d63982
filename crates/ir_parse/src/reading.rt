//! Bytes as the one module that they are read as.
ghost use Rattle.std.specs.Prelude.{◌≡◌, ℕ, List, IfOk, IfErr, Ok};
ghost use Rattle.ir_parse.specs.Lines.{lines_of};
ghost use Rattle.ir_lex.specs.Lexing.{IsLexed};
ghost use Rattle.ir_lex.specs.Tok.{toks};
ghost use Rattle.ir_tree.specs.declared.module.Module.{Module};
ghost use Rattle.ir_tree.specs.Failures.{IfFault};
ghost use Rattle.ir_parse.specs.Answers.{Answers, IsFaultOf, IsRead, IsRefused};
ghost use Rattle.ir_parse.specs.Stages.{module_in};
ghost use Rattle.ir_parse.specs.FirstFault.{FirstFault};
ghost use Rattle.ir_parse.specs.Reading.{Reads};
ghost use Rattle.ir_tree.specs.declared.fault_kind.FaultKind.{FaultKind};

use crate::fault::{ReadError, ReadFault, name_fault};
use crate::grammar::items_in;
use crate::laws::read_is_parsed;
use crate::stages::module_in;
use crate::value_lines::lines_of;
use ir_lex::{Lexed, lex};
use ir_parse_names::ResolveError;
use ir_parse_parts::Item;
use ir_tree::{Module, Parsed, Rows};
use std::alloc::Global;

/// The module that items stand for, and a fault of names as one of reading.
fn module_of<'t>(items: &'t [Item], alloc: Global) -> Result<Module, ReadError>
    ensures { Answers (module_in items.now) result }
{
    match module_in(items, alloc) {
        Ok(module) => Ok(module),
        Err(ResolveError::NoMemory) => Err(ReadError::NoMemory),
        Err(ResolveError::Fault(fault)) => Err(ReadError::Fault(ReadFault {
            line: fault.line,
            kind: name_fault(fault.kind),
        })),
    }
}

/// A module that is read from a text, with the lines of its parts.
fn parsed_from(bytes: &[u8], tree: Module, lines: Rows<Rows<u32>>) -> Parsed
    requires { Reads bytes.now tree lines }
    ensures { result ≡ (tree, lines) }
{
    read_is_parsed();
    Parsed::of(tree, lines)
}

/// The module that items stand for, with the lines of its parts.
fn tree_and_lines<'t>(
    items: &'t [Item],
    alloc: Global,
) -> Result<(Module, Rows<Rows<u32>>), ReadError>
    ensures found { IfOk result (λ p. (module_in items.now ≡ Ok p.0) × (p.1 ≡ lines_of items.now)) }
    ensures fault { IfErr result (λ e. IfFault e (λ f. IsFaultOf (module_in items.now) f)) }
{
    let tree = module_of(items, alloc)?;
    let lines = lines_of(alloc, items)?;
    Ok((tree, lines))
}

/// The module that the tokens of a text are read as, with the lines of its parts.
#[tactic(auto, using(crate::proofs::Readings::reads_so, crate::proofs::Readings::grammar_so, crate::proofs::Readings::names_so))]
fn read_tokens<'t, 'a>(
    lexed: &'t Lexed<'a>,
    alloc: Global,
) -> Result<(Module, Rows<Rows<u32>>), ReadError>
    ensures found { IfOk result (λ p. (bytes : List ℕ) → IsLexed bytes (toks lexed.now.tokens.items) lexed.now.whole lexed.now.line → Reads bytes p.0 p.1) }
    ensures fault { IfErr result (λ e. IfFault e (λ f. (bytes : List ℕ) → IsLexed bytes (toks lexed.now.tokens.items) lexed.now.whole lexed.now.line → FirstFault bytes f.line f.kind)) }
{
    let mut items = Vec::new(alloc);
    items_in(alloc, lexed, &mut items)?;
    tree_and_lines(items.as_slice(), alloc)
}

/// The module that a text is read as, with the lines of its parts.
fn read_text(alloc: Global, bytes: &[u8]) -> Result<Parsed, ReadError>
    ensures found { IfOk result (λ p. Reads bytes.now p.0 p.1) }
    ensures fault { IfErr result (λ e. IfFault e (λ f. FirstFault bytes.now f.line f.kind)) }
{
    let lexed = lex(alloc, bytes)?;
    let (tree, lines) = read_tokens(&lexed, alloc)?;
    Ok(parsed_from(bytes, tree, lines))
}

/// Reads bytes as a module, with the lines of its parts.
///
/// A fault is the first of the text. Beside want of memory, a text of `2^32 - 1` bytes or more is
/// refused as too large for it.
pub fn parse(alloc: Global, bytes: &[u8]) -> Result<Parsed, ReadError>
    // What is answered is what the bytes are read as.
    ensures found { IfOk result (λ p. Reads bytes.now p.0 p.1) }
    // A fault is the first fault of the bytes.
    ensures fault { IfErr result (λ e. IfFault e (λ f. FirstFault bytes.now f.line f.kind)) }
    // Bytes that are read as a module are answered so, and those that have a first fault are refused
    // for it, unless memory runs out.
    ensures only { (m : Module) (lines : List (List ℕ)) → Reads bytes.now m lines → IsRead m lines result }
    ensures refused { (line : ℕ) (kind : FaultKind) → FirstFault bytes.now line kind → IsRefused line kind result }
{
    read_text(alloc, bytes)
}
