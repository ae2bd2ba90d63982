//! Laws of data flow that passes use.
ghost use Rattle.ir_flow.specs.Laws.{OneGreatest, GreatestIsMarked, MarksHoldOnPaths, MarksHoldFromEntry, AvailableIsPassed, AllAreAvailable, AvailableByDominance};

/// Law: two greatest solutions of the same equations agree in each mark.
pub fn one_greatest()
    ensures { OneGreatest }
{}

/// Law: the greatest solution has exactly the marks that solutions have.
pub fn greatest_is_marked()
    ensures { GreatestIsMarked }
{}

/// Law: a mark of lawful equations holds behind every path: carried through the transfers of the path's
/// blocks, what is given at its beginning has the mark (Kam and Ullman, "Monotone data flow analysis
/// frameworks", 1977).
pub fn marks_hold_on_paths()
    ensures { MarksHoldOnPaths }
{}

/// Law: over a function whose entry no edge leads to, a mark holds behind every path from the entry.
pub fn marks_hold_from_entry()
    ensures { MarksHoldFromEntry }
{}

/// Law: a local that is available at a block's start is a parameter, or was defined on every path from the
/// entry.
pub fn available_is_passed()
    ensures { AvailableIsPassed }
{}

/// Law: in a block that isn't reached all locals are available.
pub fn all_are_available()
    ensures { AllAreAvailable }
{}

/// Law: a local that one block alone defines is available at the start of a reached block exactly where its
/// block dominates that one and is another, whatever holds the dominators.
pub fn available_by_dominance()
    ensures { AvailableByDominance }
{}
