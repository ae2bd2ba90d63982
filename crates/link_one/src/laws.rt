//! Laws of files that are accepted, refused and linked.
ghost use Rattle.link_one.specs.Laws.{AcceptedIsNotRefused, AcceptedIsOne, LinkedIsOne, RefusedIsOne};

use back_end::made_is_one;
use emit::emission_is_one;
use ir_parse::one_reading;
use merge_meaning::live_by_module;
use thin_link::one_answer;

/// Bytes that are accepted are refused on no line for no kind, and are accepted as one module.
pub fn accepted_is_not_refused()
    ensures apart { AcceptedIsNotRefused }
    ensures one { AcceptedIsOne }
{
    one_reading();
}

/// Bytes that are refused are refused on one line, for one kind.
pub fn refused_is_one()
    ensures { RefusedIsOne }
{
    one_reading();
}

/// Files that are linked are linked to one text: the definition of a link leaves nothing open.
pub fn linked_is_one()
    ensures { LinkedIsOne }
{
    accepted_is_not_refused();
    made_is_one();
    live_by_module();
    emission_is_one();
    one_answer();
}
