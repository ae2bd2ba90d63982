//! Laws of printed functions and variables and of resolution, as functions whose contracts state
//! them.

ghost use Rattle.std.specs.Prelude.{◌≡◌, [], All, List, ℕ, None, Ok};
ghost use Rattle.ir_edit.specs.Numbered.{in_text_order};
ghost use Rattle.ir_parse_values.specs.Blocks.{function_in};
ghost use Rattle.ir_parse_names.specs.Groups.{is_noinline, is_optnone};
ghost use Rattle.ir_parse_names.specs.Types.{Types};
ghost use Rattle.ir_parse_names.specs.Variables.{variable_in};
ghost use Rattle.ir_parse_names.specs.declared.groups.Groups.{Groups};
ghost use Rattle.ir_parse_parts.specs.declared.raw.Block as raw_block;
ghost use Rattle.ir_parse_parts.specs.declared.raw.FunctionHeader.{FunctionHeader};
ghost use Rattle.ir_parse_parts.specs.declared.raw.Variable as raw_variable;
ghost use Rattle.ir_tree.specs.Formed.{DeclarationFormed, Formed};
ghost use Rattle.ir_tree.specs.Items.{items};
ghost use Rattle.ir_tree.specs.Rules.{Sound};
ghost use Rattle.ir_tree.specs.declared.function.Function.{Function};
ghost use Rattle.ir_tree.specs.declared.function.Variable.{Variable};
ghost use Rattle.ir_round_trip.specs.Printed.{IsDefined, AreBlocks};
ghost use Rattle.ir_round_trip.specs.Readable.{DefinitionReadable};
ghost use Rattle.ir_round_trip.specs.Variables.{IsVariable};
ghost use Rattle.ir_round_trip.specs.VariablesReadable.{VariableReadable};
ghost use Rattle.ir_round_trip.specs.Homeless.{ItemHomeless};
ghost use Rattle.ir_round_trip.specs.PrintedKnown.{FunctionKnown, VariableKnown};
ghost use Rattle.ir_round_trip.specs.Sorts.{IsNumbered};
ghost use Rattle.ir_round_trip.specs.PartsPrinted.{IsDeclared};
ghost use Rattle.ir_round_trip.specs.PartsReadable.{HeadReadable};

use ir_edit::text_order_counts;

/// What is read of a printed function whose numbers follow its text, and whose names are known,
/// resolves to that function, whatever types and attribute groups the module has (LangRef,
/// "Identifiers" and "Functions").
pub fn functions_resolve()
    ensures definition { (types : Types) (groups : Groups) (room : ℕ) (f : Function) (h : FunctionHeader) (blocks : List raw_block.Block) → DefinitionReadable room f → FunctionKnown f → IsDefined f h → AreBlocks f.blocks blocks → function_in types h blocks (is_noinline groups h) (is_optnone groups h) ≡ Ok f }
    ensures declaration { (types : Types) (groups : Groups) (room : ℕ) (f : Function) (h : FunctionHeader) → f.blocks ≡ [] → DeclarationFormed f → HeadReadable room f → FunctionKnown f → IsDeclared f h → function_in types h [] (is_noinline groups h) (is_optnone groups h) ≡ Ok f }
{}

/// What is read of a printed variable resolves to that variable, with its initialiser (LangRef,
/// "Global Variables").
pub fn variables_resolve()
    ensures { (types : Types) (v : Variable) (r : raw_variable.Variable) → VariableReadable v → VariableKnown v → IsVariable v r → variable_in types r ≡ Ok v }
{}

/// Numbering anew makes a function whose numbers follow its text; and every name of a sound function
/// is known where its numbers do, and its symbols are of no module of their own (LangRef,
/// "Identifiers").
pub fn numbered_functions_are_known()
    ensures order { (f : Function) → Formed f → IsNumbered (in_text_order f) }
    ensures known { (f : Function) → Sound f → IsNumbered f → f.symbol.home ≡ None → All ItemHomeless (items f) → FunctionKnown f }
{
    text_order_counts();
}
