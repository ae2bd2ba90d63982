//! What ties the reader of definitions to their form.

ghost use Rattle.std.specs.Prelude.{ℕ, [], false};
ghost use Rattle.ir_parse_parts.specs.Rules.{Opens, Rule};
ghost use Rattle.ir_parse_parts.specs.Classes.{tokens};
ghost use Rattle.ir_parse_bodies.specs.Blocks.{definition, any_definition};
ghost use Rattle.ir_parse_bodies.specs.BlocksAt.{DEFINE, definition_at};

/// The reader of definitions, which `definition_into` follows, reads exactly their form, and stops at the
/// first token at which no reading goes on: there a number is out of range only where another number of
/// its kind goes on, and where one does the fault is that or a limit; a limit is passed only where a
/// reading without limits goes on.
pub fn definition_rule()
    ensures rule { (room : ℕ) → Rule tokens (definition room) any_definition (definition_at room) DEFINE [] false }
    ensures opens { Opens tokens DEFINE any_definition }
{}
