//! Laws of the candidates, and of substitution by them.
ghost use Rattle.ir_facts.specs.Agreement.{FactsMakeSteps, SolutionsAgree};
ghost use Rattle.ir_facts.specs.SourceLaws.{FormedHaveWidths, LineSourcesRight, PhiSourcesAreSole, PhiSourcesRight};
ghost use Rattle.ir_facts.specs.Points.{FactsAreOne};
ghost use Rattle.ir_facts.specs.Steps.{AppliedIsOne, RoundsAreAll, RoundsAreBetter, SettledIsBetter, StepsAreBetter, StepsAreSound};

/// A phi has a candidate exactly where it takes one operand beside its own value and that is no phi of the same
/// block: that operand.
pub fn phi_sources_are_sole()
    ensures { PhiSourcesAreSole }
{}

/// The candidate of a phi is another operand, no phi of the same block, and taken on each edge on which the
/// phi doesn't take its own value again.
pub fn phi_sources_right()
    ensures { PhiSourcesRight }
{}

/// The candidate of an instruction is another operand than its result, and may stand for what it gives, under
/// some free choice, and always where the instruction makes none.
pub fn line_sources_right()
    ensures { LineSourcesRight }
{}

/// The instructions of a formed function have widths of 1 to 64 bits and shapes of some size.
pub fn formed_functions_have_widths()
    ensures { FormedHaveWidths }
{}

/// No two lists are the facts of one function.
pub fn facts_are_one()
    ensures { FactsAreOne }
{}

/// In a sound function all whose blocks are reached a candidate's fact holds wherever its local is used, so rounds
/// that replace every use are those of the greatest solution.
pub fn facts_hold_at_uses()
    ensures { RoundsAreAll }
{}

/// What rounds make of a sound function is sound and better.
pub fn rounds_are_better()
    ensures { RoundsAreBetter }
{}

/// A sound function with its free choices settled is sound and better, and none of its rows rests on a free choice.
pub fn settled_is_better()
    ensures { SettledIsBetter }
{}

/// What a step makes of a sound function none of whose rows rests on a free choice is better, whether its blocks are
/// reached or not: so is what any solution makes.
pub fn steps_are_better()
    ensures { StepsAreBetter }
{}

/// What a step makes of a sound function is sound, whether its blocks are reached or not.
pub fn steps_are_sound()
    ensures { StepsAreSound }
{}

/// Lists of facts at the starts of blocks, as rounds have them, are a solution exactly where the marks of each fact by
/// itself, as `facts` has them, are one.
pub fn facts_at_points_agree()
    ensures { SolutionsAgree }
{}

/// Of a sound function each use replaced where its fact, as `facts` has it, holds is what a step makes.
pub fn facts_make_steps()
    ensures { FactsMakeSteps }
{}

/// No two functions are what facts make of one function.
pub fn applied_is_one()
    ensures { AppliedIsOne }
{}
