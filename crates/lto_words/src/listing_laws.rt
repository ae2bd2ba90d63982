//! Laws of the definitions.
ghost use Rattle.lto_words.specs.Lists.{EitherListOrBad, ListHasNoBadLine, OneBadLine, OneList};

/// Laws: a list file lists links, and one list of them, or has a first line that is none, and one such line; never both.
pub fn one_list()
    ensures either { EitherListOrBad }
    ensures apart { ListHasNoBadLine }
    ensures links { OneList }
    ensures line { OneBadLine }
{}
