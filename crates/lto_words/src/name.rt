//! Names of files.
ghost use Rattle.std.specs.Prelude.{◌≡◌, IfOk};

use ir_tree::Text;
use std::alloc::{AllocError, Global};
use std::marker::Model;

/// The name of a file or directory, as it was given on the command line; contracts see its bytes.
#[derive(Drop)]
pub struct FileName {
    text: String,
}

impl Model for FileName {
    ghost use Rattle.std.specs.Prelude.{List, ℕ, string_bytes};

    ghost Value = { List ℕ };

    ghost view = { λ n. string_bytes n.text };
}

impl FileName {
    /// A copy of this text.
    pub fn copied(alloc: Global, text: &str) -> Result<Self, AllocError>
        ensures { IfOk result (λ name. name ≡ text.now) }
    {
        Ok(FileName {
            text: String::from_str(alloc, text)?,
        })
    }

    /// The name as text.
    pub fn as_str(&self) -> &str
        ensures { result.now ≡ self.now }
    {
        self.text.as_str()
    }

    /// The same bytes, which takes no memory.
    pub fn into_text(self) -> Text
        ensures { result ≡ self }
    {
        let FileName { text } = self;
        Text::of(text.into_bytes())
    }
}
