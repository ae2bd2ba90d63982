//! What is printed is read as the tree that it was printed from.
//!
//! Laws that tie the printed form (`ir_print`) to the grammar (`ir_parse_parts`): functions whose contracts
//! state them. A form reads pieces of printed text where their tokens, whatever stands behind them
//! and on whatever line they begin, spell by the form a raw tree that has a property; here the
//! property is that the raw tree is the printed one, with each local and each block named by its
//! number and each global by its printed name (`specs/PartsPrinted.antt`). So forms that are put
//! together read pieces that stand one behind the other, and no line and no name that a reader
//! keeps comes in.
//!
//! Proved of types, shapes, operands, instructions but for calls, terminators, labels, what stands
//! before the body of a function, and the lines that name the target; which trees are meant is said
//! in `specs/PartsReadable.antt`.

ghost use Rattle.std.specs.Prelude.{◌≡◌, ◌∷◌, ◌++◌, [], List, ℕ, Option, true, codes};
ghost use Rattle.ir_lex.specs.TokenKinds.{number};
ghost use Rattle.ir_lex.specs.declared.token_kind.TokenKind.TheVariants as kinds;
ghost use Rattle.ir_print.specs.Blocks.{target};
ghost use Rattle.ir_print.specs.Blocks as printed;
ghost use Rattle.ir_print.specs.Functions.{attributes, body, definition};
ghost use Rattle.ir_print.specs.Instructions.{instruction};
ghost use Rattle.ir_print.specs.Modules as modules;
ghost use Rattle.ir_print.specs.Operands as printed_operands;
ghost use Rattle.ir_print.specs.Tokens as tokens_of;
ghost use Rattle.ir_print.specs.Types as types;
ghost use Rattle.ir_print.specs.Types.{register, shape};
ghost use Rattle.ir_parse_heads.specs.Attributes.{definition_attributes};
ghost use Rattle.ir_parse_parts.specs.Classes.{tokens, refusal};
ghost use Rattle.ir_parse_heads.specs.FunctionHeads.{head};
ghost use Rattle.ir_parse_parts.specs.Operands as read;
ghost use Rattle.ir_parse_parts.specs.Operands.{named};
ghost use Rattle.ir_parse_operands.specs.ShapeForms.{memory_shape};
ghost use Rattle.ir_parse_heads.specs.Targets.{fits_layout, target_line};
ghost use Rattle.ir_parse_operands.specs.Terminators as ends;
ghost use Rattle.ir_parse_operands.specs.Values.{operand, argument};
ghost use Rattle.ir_parse_heads.specs.declared.function_heads.Role.TheVariants as roles;
ghost use Rattle.ir_tree.specs.Formed.{IsWidth, IsReg, IsResult, IsScalar, ItemFormed};
ghost use Rattle.ir_tree.specs.Forms.{Form};
ghost use Rattle.ir_tree.specs.Items.{Item};
ghost use Rattle.ir_tree.specs.Names.{AllBytes};
ghost use Rattle.ir_tree.specs.Rules.{Keeps};
ghost use Rattle.ir_tree.specs.declared.block.Terminator.{Terminator};
ghost use Rattle.ir_tree.specs.declared.function.Function.{Function};
ghost use Rattle.ir_tree.specs.declared.instr.Instr.{Instr};
ghost use Rattle.ir_tree.specs.declared.operand.Argument.{Argument};
ghost use Rattle.ir_tree.specs.declared.operand.Operand.{Operand};
ghost use Rattle.ir_tree.specs.declared.operand.Reg.{Reg};
ghost use Rattle.ir_tree.specs.declared.rule.Rule.TheVariants.{TypeMismatch};
ghost use Rattle.ir_parse_parts.specs.Forms.{token};
ghost use Rattle.ir_parse_parts.specs.Rules.{is_valued};
ghost use Rattle.ir_round_trip.specs.Behind.{worded};
ghost use Rattle.ir_round_trip.specs.Pieces.{head_pieces, declared_pieces};
ghost use Rattle.ir_round_trip.specs.PartsPrinted.{IsNumber, IsLabel, IsOperand, IsArgument, IsInstr, IsTerminator, IsHead, IsDeclared, IsKept, IsLayout, IsTriple, written_shape};
ghost use Rattle.ir_round_trip.specs.PartsReadable.{IsSmall, OperandReadable, ArgumentReadable, ShapeReadable, InstrReadable, TerminatorReadable, HeadReadable};
ghost use Rattle.ir_round_trip.specs.Reads.{Parses};
ghost use Rattle.ir_round_trip.specs.Writable.{ItemWritable, ItemReadable};

/// A printed type of registers is read as itself wherever one may stand, and a result's type, which
/// may be `void` (LangRef, "Type System").
pub fn types_are_read()
    ensures integer { (blank : List ℕ) (w : ℕ) → IsWidth w → Parses read.integer (λ v. v ≡ w) (tokens_of.width blank w) }
    ensures register { (blank : List ℕ) (reg : Reg) → IsReg reg → Parses read.reg (λ r. r ≡ reg) (register blank reg) }
    ensures scalar { (blank : List ℕ) (reg : Reg) → IsScalar reg → Parses read.scalar (λ r. r ≡ reg) (register blank reg) }
    ensures result { (r : Option Reg) → IsResult r → Parses read.result (λ x. x ≡ r) (types.result r) }
{}

/// A printed shape is read as itself: of at most 32 levels, with at most 2^31 bytes in it and in
/// each shape within, it never passes the limits that a reading hands down (LangRef, "Structure
/// Type" and "Array Type").
pub fn shapes_are_read()
    ensures { (blank : List ℕ) (f : Form) → ShapeReadable f → Parses memory_shape (λ t. t.shape ≡ written_shape f) (shape blank f) }
{}

/// Printed locals, targets and labels are read as the numbers that they are written by (LangRef,
/// "Identifiers").
pub fn names_are_read()
    ensures local { (blank : List ℕ) (n : ℕ) → IsSmall n → Parses read.local (IsNumber n) (tokens_of.local blank n) }
    ensures target { (n : ℕ) → IsSmall n → Parses ends.target (IsNumber n) (target n) }
    ensures label { (n : ℕ) → IsSmall n → Parses (token (is_valued tokens refusal (number kinds.Label ∷ []) named)) (IsLabel n) (tokens_of.label_line n) }
{}

/// A printed operand is read behind its type, with the address of a symbol as its name or as one
/// step over bytes from it; so is an argument, a type with its operand (LangRef, "Constants" and
/// "Constant Expressions").
pub fn operands_are_read()
    ensures operand { (blank : List ℕ) (reg : Reg) (x : Operand) → OperandReadable reg x → Parses (operand memory_shape reg) (IsOperand x) (printed_operands.operand blank x) }
    ensures argument { (blank : List ℕ) (a : Argument) → ArgumentReadable a → Parses (argument memory_shape) (IsArgument a) (printed_operands.typed blank a.reg a.operand) }
{}

/// A printed instruction is read by its word and by what the grammar has behind it, but for calls
/// (LangRef, "Instruction Reference").
pub fn instructions_are_read()
    ensures { (blank : List ℕ) (i : Instr) → InstrReadable i → Parses (worded i) (IsInstr i) (instruction blank i) }
{}

/// A printed terminator is read (LangRef, "Terminator Instructions").
pub fn terminators_are_read()
    ensures { (t : Terminator) → TerminatorReadable t → Parses (ends.terminator memory_shape) (λ e. IsTerminator t e.terminator) (printed.terminator t) }
{}

/// What is printed before the attributes and the body of a definition is read, and what is printed
/// behind `declare`, within a limit on how many parameters there are behind the first; so are the
/// attributes (LangRef, "Functions" and "Function Attributes").
pub fn heads_are_read()
    ensures definition { (room : ℕ) (f : Function) → HeadReadable room f → Parses (head roles.Definition room) (IsHead f) (head_pieces f) }
    ensures parts { (f : Function) → definition f ≡ tokens_of.word tokens_of.tight (codes "define") ++ (head_pieces f ++ (attributes f ++ body f.blocks)) }
    ensures attributes { (f : Function) → Parses definition_attributes (IsKept f) (attributes f) }
    ensures declaration { (room : ℕ) (f : Function) → HeadReadable room f → Parses (head roles.Declaration room) (IsDeclared f) (declared_pieces f) }
{}

/// Printed lines that name the target are read: a data layout where it is one that is supported
/// (LangRef, "Data Layout" and "Target Triple").
pub fn target_lines_are_read()
    ensures layout { (text : List ℕ) → AllBytes text → fits_layout text ≡ true → Parses target_line (IsLayout text) (modules.target_line (codes "datalayout") text) }
    ensures triple { (text : List ℕ) → Parses target_line (IsTriple text) (modules.target_line (codes "triple") text) }
{}

/// A formed phi, instruction or terminator of a function whose types agree is read, but for calls,
/// where its names and numbers can be written: names aren't kept for LLVM itself, numbers of locals
/// and blocks are below 2^32, offsets and counts below 2^64, and a phi has an entry.
pub fn sound_items_are_read()
    ensures { (f : Function) (item : Item) → ItemFormed f item → Keeps f TypeMismatch item → ItemWritable item → ItemReadable item }
{}
