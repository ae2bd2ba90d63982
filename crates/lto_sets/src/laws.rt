//! Laws of the definitions: lists of booleans as sets.
ghost use Rattle.lto_sets.specs.Laws.{JoinIsUnion, MeetIsIntersection};

/// Law: a number is in the meet of two sets of one size exactly where it is in both.
pub fn meet_is_intersection()
    ensures { MeetIsIntersection }
{}

/// Law: a number is in the join of two sets of one size exactly where it is in either.
pub fn join_is_union()
    ensures { JoinIsUnion }
{}
