//! What is printed is read again.
//!
//! Laws of printed text, on the definitions of the printed form (`ir_print`) and of tokens
//! (`ir_lex`): functions whose contracts state them. Of modules whose names are bytes without zero
//! bytes, the text that `ir_print` writes is cut by `ir_lex` into exactly the tokens that it was put
//! together from, of the same kinds and texts, on the lines that the line feeds give, and each of
//! them is of the kind that its text has alone. A printed name or string stands for itself.

ghost use Rattle.std.specs.Prelude.{◌≡◌, ◌≤◌, ◌∷◌, [], List, ℕ, Some, decimal};
ghost use Rattle.ir_lex.specs.TokenKinds.{kind_of, number, width_of};
ghost use Rattle.ir_lex.specs.Lexing.{AreTokens};
ghost use Rattle.ir_lex.specs.Quotes.{content};
ghost use Rattle.ir_lex.specs.declared.token_kind.TokenKind.TheVariants as kinds;
ghost use Rattle.ir_lex.specs.declared.token.TokenForm.TheVariants as forms;
ghost use Rattle.ir_print.specs.Functions.{function};
ghost use Rattle.ir_print.specs.Instructions.{opcode, condition, conversion};
ghost use Rattle.ir_print.specs.Modules.{entries, module_text, text_of};
ghost use Rattle.ir_print.specs.Tokens.{closed, truth};
ghost use Rattle.ir_print.specs.Variables.{variable};
ghost use Rattle.ir_tree.specs.Names.{AllBytes, quoted, unquoted};
ghost use Rattle.ir_tree.specs.declared.function.Function.{Function};
ghost use Rattle.ir_tree.specs.declared.function.Variable.{Variable};
ghost use Rattle.ir_tree.specs.declared.instr.BinaryOp.{BinaryOp};
ghost use Rattle.ir_tree.specs.declared.instr.CastOp.{CastOp};
ghost use Rattle.ir_tree.specs.declared.instr.Predicate.{Predicate};
ghost use Rattle.ir_tree.specs.declared.module.Module.{Module};
ghost use Rattle.ir_round_trip.specs.Classes.{binary_class, predicate_class, cast_class, truth_class, integer_class, IsOrdinary};
ghost use Rattle.ir_round_trip.specs.Printable.{IsName, IsPrintable, FunctionPrintable, VariablePrintable};
ghost use Rattle.ir_round_trip.specs.Texts.{tokens_in};

/// The text of a module is cut into the tokens of its printed form, each of the kind that it is of
/// alone; so are the texts of a function and of a variable.
pub fn text_is_cut_into_its_tokens()
    ensures module { (m : Module) → IsPrintable m → AreTokens (module_text m) (tokens_in 1 (entries m)) }
    ensures function { (f : Function) → FunctionPrintable f → AreTokens (text_of (function f ∷ [])) (tokens_in 1 (function f ∷ [])) }
    ensures variable { (v : Variable) → VariablePrintable v → AreTokens (text_of (variable v ∷ [])) (tokens_in 1 (variable v ∷ [])) }
{}

/// The token of a name stands for that name, as its text does by `unquoted`, and the token of a
/// string for its bytes (LangRef, "Identifiers" and "Constants").
pub fn tokens_stand_for_what_is_printed()
    ensures name { (name : List ℕ) → IsName name → content forms.Global (64 ∷ quoted name) ≡ name }
    ensures agree { (name : List ℕ) → IsName name → unquoted (quoted name) ≡ Some (content forms.Global (64 ∷ quoted name)) }
    ensures string { (text : List ℕ) → AllBytes text → content forms.Str (34 ∷ closed text) ≡ text }
    ensures bytes { (text : List ℕ) → AllBytes text → content forms.CStr (99 ∷ 34 ∷ closed text) ≡ text }
{}

/// The words that a tree's operations, conditions, conversions, bits and widths are printed by are
/// of the kinds that a grammar asks for, and so are names that LLVM doesn't keep for itself. A
/// width, of 1 to 64 bits, is read as itself.
pub fn tokens_are_of_their_classes()
    ensures binary { (op : BinaryOp) → kind_of forms.Word (opcode op) [] ≡ binary_class op }
    ensures predicate { (p : Predicate) → kind_of forms.Word (condition p) [] ≡ predicate_class p }
    ensures cast { (op : CastOp) → kind_of forms.Word (conversion op) [] ≡ cast_class op }
    ensures bit { (bits : ℕ) → kind_of forms.Word (truth bits) [] ≡ truth_class bits }
    ensures width { (w : ℕ) → 1 ≤ w → w ≤ 64 → (number (kind_of forms.Word (105 ∷ decimal w) []) ≡ number (integer_class w)) × (width_of (decimal w) ≡ w) }
    ensures name { (name : List ℕ) → IsName name → IsOrdinary name → kind_of forms.Global (64 ∷ quoted name) [] ≡ kinds.Global }
{}
