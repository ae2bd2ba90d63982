//! Faults, and the first of several.
ghost use Rattle.std.specs.Prelude.{◌≡◌, ℕ, ◌⊎◌, ◌↔◌, IsTrue, Some};
ghost use Rattle.ir_tree.specs.declared.rule.Rule.{Rule};
ghost use Rattle.ir_verify.specs.Faults.{number};
ghost use Rattle.ir_verify.specs.Orders.{IsBefore, AtMost, IsNoted};

use ir_tree::{Failure, Rule};

/// A rule that is broken on a line, counted from 1: by a function, which goes by its place among the module's global values, or by
/// the initialiser of a variable, which has none.
#[derive(Clone, Copy, Debug, Drop, PartialEq, Eq)]
pub struct VerifyFault {
    pub function: Option<u32>,
    pub line: u32,
    pub kind: Rule,
}

/// Why a module isn't verified: memory ran out, or a rule is broken.
pub type VerifyError = Failure<VerifyFault>;

/// The number of a rule, from 1.
pub fn rule_number(rule: Rule) -> u8
    ensures { result ≡ number rule }
{
    match rule {
        Rule::TypeMismatch => 1,
        Rule::NotAvailable => 2,
        Rule::PhiEdges => 3,
        Rule::PhiPlace => 4,
        Rule::EntryBranch => 5,
        Rule::Index => 6,
        Rule::Cast => 7,
        Rule::CaseTwice => 8,
    }
}

/// Whether a fault comes before another, or on its line with its rule.
fn is_at_most(fault: VerifyFault, other: VerifyFault) -> bool
    ensures { IsTrue result ↔ IsBefore fault other.line other.kind }
{
    fault.line < other.line
        || fault.line == other.line && rule_number(fault.kind) <= rule_number(other.kind)
}

/// The first of what was found so far and one more fault.
fn first(best: Option<VerifyFault>, fault: VerifyFault) -> Option<VerifyFault>
    ensures here { AtMost result fault.line fault.kind }
    ensures before { (line : ℕ) (rule : Rule) → AtMost best line rule → AtMost result line rule }
    ensures origin { (result ≡ best) ⊎ ((result ≡ Some fault) × (AtMost best fault.line fault.kind → ⊥)) }
{
    match best {
        Some(known) => if is_at_most(known, fault) {
            best
        } else {
            Some(fault)
        },
        None => Some(fault),
    }
}

/// The first of what was found so far and the first rule that an item breaks, if it breaks one.
pub fn noted(
    best: Option<VerifyFault>,
    function: Option<u32>,
    line: u32,
    broken: Option<Rule>,
) -> Option<VerifyFault>
    ensures { IsNoted best function line broken result }
{
    match broken {
        Some(kind) => first(
            best,
            VerifyFault {
                function,
                line,
                kind,
            },
        ),
        None => best,
    }
}
