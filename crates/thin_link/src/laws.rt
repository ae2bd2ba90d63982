//! Modules have one answer.
ghost use Rattle.thin_link.specs.Laws.{DecisionsAreOne, RefusalIsOne, ReportIsOne, ReportedIsNotRefused, ThinLinkIsNotRefused};

/// No modules have both a report and a refusal, two reports or two refusals: what [`crate::index`]
/// answers is determined, but for want of memory, and so is what [`crate::thin_link`] decides.
pub fn one_answer()
    ensures apart { ReportedIsNotRefused }
    ensures report { ReportIsOne }
    ensures refusal { RefusalIsOne }
    ensures thin { ThinLinkIsNotRefused }
    ensures decisions { DecisionsAreOne }
{}
