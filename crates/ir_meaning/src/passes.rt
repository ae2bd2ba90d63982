//! Laws of the kinds of passes: each result is better than the function that it is made of.
ghost use Rattle.ir_meaning.specs.Laws.{InlinedBetter, NeededBetter, PromotedBetter, ReplacedBetter, ReshapedBetter};
ghost use Rattle.ir_meaning.specs.Rules.{RuleRows};
ghost use Rattle.ir_meaning.specs.Renumber.{RenumberedBetter};
ghost use Rattle.ir_meaning.specs.Tables.{TableRight};

/// Dead code elimination: a function without the instructions whose values nobody needs is better.
pub fn needed_better()
    ensures { NeededBetter }
{}

/// Inlining: a function with a call replaced by the callee's body is better.
pub fn inlined_better()
    ensures { InlinedBetter }
{}

/// Substitution by facts: a function with uses of locals replaced by what stands for them is better.
pub fn replaced_better()
    ensures { ReplacedBetter }
{}

/// The rule table: what stands for an instruction's value.
pub fn rules_right()
    ensures { RuleRows }
{}

/// Slot promotion: a function with stack slots promoted to values is better.
pub fn promoted_better()
    ensures { PromotedBetter }
{}

/// Constant branches, trimming and merging: a function with the same instructions in other blocks is better.
pub fn reshaped_better()
    ensures { ReshapedBetter }
{}

/// A function whose locals and blocks have other numbers, one to one, is better.
pub fn renumbered_better()
    ensures { RenumberedBetter }
{}

/// Constant folding and simplification: the operand of each row of the rule table may stand for what its
/// instruction gives, under some free choice, and always where no choice is made.
pub fn table_right()
    ensures { TableRight }
{}
