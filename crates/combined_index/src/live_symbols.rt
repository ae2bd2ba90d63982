//! The symbols that a link keeps.
ghost use Rattle.std.specs.Prelude.{◌≡◌, ◌<◌, length};
ghost use Rattle.lto_sets.specs.Sets.{contains};

use lto_sets::Bits;
use std::marker::Model;

/// The live symbols of a link, by their numbers in the index. Contracts see a mark for each symbol.
#[derive(Drop)]
pub struct Live {
    marks: Bits,
}

impl Model for Live {
    ghost use Rattle.std.specs.Prelude.{List, Bool};

    ghost Value = { List Bool };

    ghost view = { λ l. l.marks };
}

impl Live {
    /// By these marks.
    pub fn of(marks: Bits) -> Live
        ensures { result ≡ marks }
    {
        Live { marks }
    }

    /// How many symbols there are, live ones and others.
    pub fn size(&self) -> u32
        ensures { result ≡ length self.now }
    {
        self.marks.size()
    }

    /// Whether the symbol of this number is live. The number is below the count of symbols.
    pub fn has(&self, symbol: u32) -> bool
        requires { symbol < length self.now }
        ensures { result ≡ contains self.now symbol }
    {
        self.marks.has(symbol)
    }
}
