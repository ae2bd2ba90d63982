//! The text of a refusal: its line, sent to memory.
ghost use Rattle.std.specs.Prelude.{◌≡◌, IfOk};
ghost use Rattle.lto_fault.specs.Texts.{refusal_text};

use crate::line::push_refusal;
use crate::refusal::Refusal;
use ir_tree::Text;
use lto_outside::{ByteOut, Fault};
use std::alloc::{AllocError, Global};

/// A sink in memory. A push fails where memory runs out.
#[derive(Drop)]
struct Sink {
    text: Text,
    faults: u64,
}

impl ByteOut for Sink {
    ghost use Rattle.std.specs.Prelude.{Some};

    ghost sent = { λ s. Some s.text };

    ghost faults = { λ s. s.faults };

    fn push(&mut self, b: u8) -> Result<(), Fault> {
        match self.text.push(b) {
            Ok(()) => Ok(()),
            Err(_) => {
                self.faults = self.faults.saturating_add(1);
                Err(Fault)
            }
        }
    }

    fn faults(&self) -> u64 {
        self.faults
    }
}

/// The line that a command ends with on standard error, with its line end.
pub fn text(alloc: Global, refusal: &Refusal) -> Result<Text, AllocError>
    ensures { IfOk result (λ text. text ≡ refusal_text refusal.now) }
{
    let none = Text::new(alloc);
    let mut sink = Sink {
        text: none,
        faults: 0,
    };
    if push_refusal(&mut sink, refusal) {
        Ok(sink.text)
    } else {
        Err(AllocError)
    }
}
