//! What is known of a name.
ghost use Rattle.std.specs.Prelude.{◌≡◌};
ghost use Rattle.symbol_resolve.specs.Listed.{noted, or_this, prevails, second_or, with_kind, with_standing};

use crate::mention::{Standing, SymbolKind};

/// Of a name: the first module in which it is a function, a variable, an external definition; the
/// second with an external definition; the first with a weak or linkonce definition.
#[derive(Clone, Copy, Debug, PartialEq, Eq)]
pub struct Facts {
    pub function: Option<u32>,
    pub variable: Option<u32>,
    pub strong: Option<u32>,
    pub second: Option<u32>,
    pub weak: Option<u32>,
}

/// Of a name that no module has mentioned.
pub(crate) const UNKNOWN: Facts = Facts {
    function: None,
    variable: None,
    strong: None,
    second: None,
    weak: None,
};

/// The module that is there, or this one.
fn or_this(there: Option<u32>, number: u32) -> Option<u32>
    ensures { result ≡ or_this there number }
{
    match there {
        Some(other) => Some(other),
        None => Some(number),
    }
}

/// The second module, which may be this one where there is a first.
fn second_or(first: Option<u32>, there: Option<u32>, number: u32) -> Option<u32>
    ensures { result ≡ second_or first there number }
{
    match first {
        None => there,
        Some(_) => or_this(there, number),
    }
}

fn with_kind(known: Facts, number: u32, kind: SymbolKind) -> Facts
    ensures { result ≡ with_kind known number kind }
{
    match kind {
        SymbolKind::Function => Facts {
            function: or_this(known.function, number),
            ..known
        },
        SymbolKind::Variable => Facts {
            variable: or_this(known.variable, number),
            ..known
        },
    }
}

fn with_standing(known: Facts, number: u32, standing: Standing) -> Facts
    ensures { result ≡ with_standing known number standing }
{
    match standing {
        Standing::Strong => Facts {
            strong: or_this(known.strong, number),
            second: second_or(known.strong, known.second, number),
            ..known
        },
        Standing::Weak => Facts {
            weak: or_this(known.weak, number),
            ..known
        },
        Standing::Declared => known,
    }
}

/// What is known once a further module mentions the name.
pub(crate) fn noted(known: Facts, number: u32, kind: SymbolKind, standing: Standing) -> Facts
    ensures { result ≡ noted known number kind standing }
{
    with_standing(with_kind(known, number, kind), number, standing)
}

/// The module whose definition prevails.
pub(crate) fn prevails(facts: &Facts) -> Option<u32>
    ensures { result ≡ prevails facts.now }
{
    match facts.strong {
        Some(number) => Some(number),
        None => facts.weak,
    }
}
