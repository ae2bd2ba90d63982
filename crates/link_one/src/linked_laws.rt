//! Laws of modules that are linked, and of those that aren't.
ghost use Rattle.link_one.specs.LinkedLaws.{LinkedIsVerified, LinkedRefines, UnitsAreLinked, UnlinkedIsNotLinked, UnlinkedIsOne};

use crate::{live_is_known, live_refines};
use back_end::{made_has_interface, made_is_better, made_is_known};
use emit::{emission_is_reordering, emission_is_whole, joined_is_emission, stripped_is_join};
use merge_meaning::live_by_module;
use thin_link::one_answer;

/// The linked program of verified modules refines what they mean together, from the exported names.
pub fn linked_refines()
    ensures { LinkedRefines }
{
    made_has_interface();
    made_is_better();
    made_is_known();
    live_by_module();
    live_is_known();
    live_refines();
    emission_is_reordering();
    emission_is_whole();
}

/// What is linked of verified modules is a verified module: sound functions, each name once, and no name that isn't there.
pub fn linked_is_verified()
    ensures { LinkedIsVerified }
{
    made_has_interface();
    made_is_better();
    made_is_known();
    live_by_module();
    live_is_known();
    live_refines();
    emission_is_reordering();
    emission_is_whole();
}

/// What is joined of the units of verified modules is the text of their linked module.
pub(crate) fn units_are_linked()
    ensures { UnitsAreLinked }
{
    made_has_interface();
    made_is_better();
    made_is_known();
    live_by_module();
    live_is_known();
    live_refines();
    emission_is_reordering();
    emission_is_whole();
    joined_is_emission();
    stripped_is_join();
}

/// Modules that can be linked aren't refused, and those that are have one refusal.
pub fn unlinked_is_one()
    ensures apart { UnlinkedIsNotLinked }
    ensures one { UnlinkedIsOne }
{
    one_answer();
}
