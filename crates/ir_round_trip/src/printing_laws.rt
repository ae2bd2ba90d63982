//! Laws of printed modules and the grammar, as functions whose contracts state them.

ghost use Rattle.std.specs.Prelude.{◌≤◌, ◌∷◌, ◌++◌, [], suc, Bool, List, ℕ, Option, length};
ghost use Rattle.ir_parse_bodies.specs.Blocks.{blocks, definition};
ghost use Rattle.ir_parse_bodies.specs.Calls.{calling};
ghost use Rattle.ir_parse_bodies.specs.Lines.{line};
ghost use Rattle.ir_parse_globals.specs.Initialisers.{initialiser, scalar_of};
ghost use Rattle.ir_parse_globals.specs.Variables.{variable_line, variable_name};
ghost use Rattle.ir_parse.specs.Modules.{whole_module};
ghost use Rattle.ir_lex.specs.Lexing.{AreTokens};
ghost use Rattle.ir_lex.specs.Tok.{Tok};
ghost use Rattle.ir_print.specs.Blocks as printed;
ghost use Rattle.ir_print.specs.Functions as functions;
ghost use Rattle.ir_print.specs.Instructions.{line_of};
ghost use Rattle.ir_print.specs.Modules.{entries, module_text};
ghost use Rattle.ir_print.specs.Operands.{operand, all_typed};
ghost use Rattle.ir_print.specs.Tokens.{space, tight, mark};
ghost use Rattle.ir_print.specs.Types as types;
ghost use Rattle.ir_print.specs.Variables as variables;
ghost use Rattle.ir_parse_operands.specs.Addressing.{slots_fit};
ghost use Rattle.ir_parse_parts.specs.Operands.{local};
ghost use Rattle.ir_parse_operands.specs.ShapeForms.{memory_shape};
ghost use Rattle.ir_parse_parts.specs.declared.raw.Item.{Item};
ghost use Rattle.ir_tree.specs.Forms.{Form};
ghost use Rattle.ir_tree.specs.Initials.{Initial};
ghost use Rattle.ir_tree.specs.declared.block.Block.{Block};
ghost use Rattle.ir_tree.specs.declared.function.Function.{Function};
ghost use Rattle.ir_tree.specs.declared.function.Variable.{Variable};
ghost use Rattle.ir_tree.specs.declared.instr.Instr.TheVariants.{Call};
ghost use Rattle.ir_tree.specs.declared.instr.Line.{Line};
ghost use Rattle.ir_tree.specs.declared.module.Module.{Module};
ghost use Rattle.ir_tree.specs.declared.operand.Argument.{Argument};
ghost use Rattle.ir_tree.specs.declared.operand.Operand.{Operand};
ghost use Rattle.ir_tree.specs.declared.operand.Reg.{Reg};
ghost use Rattle.ir_round_trip.specs.Bodies.{instructions};
ghost use Rattle.ir_round_trip.specs.Modules.{AreItems};
ghost use Rattle.ir_round_trip.specs.ModulesReadable.{ModuleReadable};
ghost use Rattle.ir_round_trip.specs.Printed.{IsInstruction, IsLine, AreBlocks, IsDefinition, IsSomeWith};
ghost use Rattle.ir_round_trip.specs.Readable.{CallReadable, LineReadable, BodyReadable, DefinitionReadable};
ghost use Rattle.ir_round_trip.specs.Variables.{IsInit, IsVariableItem};
ghost use Rattle.ir_round_trip.specs.VariablesReadable.{InitialReadable, VariableReadable};
ghost use Rattle.ir_round_trip.specs.PartsPrinted.{written_shape};
ghost use Rattle.ir_round_trip.specs.Reads.{Parses};
ghost use Rattle.ir_round_trip.specs.Texts.{tokens_in};

/// A printed call is read behind its word, with a name before it or not, and is never dropped
/// (LangRef, "call Instruction").
pub fn calls_are_read()
    ensures { (named : Bool) (answer : Option Reg) (callee : Operand) (arguments : List Argument) → CallReadable answer callee arguments → Parses (calling memory_shape named) (IsSomeWith (IsInstruction (Call answer callee arguments))) (types.result answer ++ (operand space callee ++ (mark tight 40 ++ (all_typed arguments ++ mark tight 41)))) }
{}

/// A printed line, an instruction with the name of its result, is read and kept (LangRef,
/// "Instruction Reference").
pub fn lines_are_read()
    ensures { (l : Line) → LineReadable l → Parses (line local slots_fit memory_shape) (IsSomeWith (IsLine l)) (line_of l.local l.instr) }
{}

/// Printed blocks are read within limits on how many there are behind the entry and how many
/// instructions stand in them, and so is a definition, within those of the grammar and one on its
/// parameters (LangRef, "Functions").
pub fn definitions_are_read()
    ensures blocks { (further room : ℕ) (bs : List Block) → BodyReadable bs → length bs ≤ suc further → instructions bs ≤ room → Parses (blocks further room) (AreBlocks bs) (printed.blocks bs) }
    ensures definition { (room : ℕ) (f : Function) → DefinitionReadable room f → Parses (definition room) (IsDefinition f) (functions.definition f) }
{}

/// Printed initialisers are read, nested as deep as they may be, and so are variables (LangRef,
/// "Global Variables" and "Complex Constants").
pub fn variables_are_read()
    ensures initialiser { (f : Form) (v : Initial) → InitialReadable f v → Parses (initialiser memory_shape (scalar_of (written_shape f))) (IsInit v) (variables.value v) }
    ensures variable { (v : Variable) → VariableReadable v → Parses (variable_line variable_name memory_shape) (IsVariableItem v) (variables.variable v) }
{}

/// The tokens of a printed module spell, by the grammar of whole modules, the items that are printed,
/// one for each entry and in the same order, on whatever line it begins; and the text that is printed
/// is cut into such tokens (LangRef, "Module Structure").
pub fn modules_are_read()
    ensures tokens { (m : Module) → ModuleReadable m → (line : ℕ) → (all : List Item) × whole_module (tokens_in line (entries m)) all × AreItems m all }
    ensures text { (m : Module) → ModuleReadable m → (ts : List Tok) × AreTokens (module_text m) ts × ((all : List Item) × whole_module ts all × AreItems m all) }
{}
