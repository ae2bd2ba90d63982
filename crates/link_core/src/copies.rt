//! Copies of phases, keys and pairs.
ghost use Rattle.std.specs.Prelude.{◌≡◌, IfOk};
ghost use Rattle.link_core.specs.Machine.{pair};
ghost use Rattle.link_core.specs.Refusals.{Carries};

use crate::event::{DiskPair, Phase, StepError};
use ir_tree::Text;
use std::alloc::{AllocError, Global};

pub fn copied_phase(alloc: Global, phase: &Phase) -> Result<Phase, AllocError>
    ensures { IfOk result (λ copy. copy ≡ phase.now) }
{
    Ok(match phase {
        Phase::Idle => Phase::Idle,
        Phase::Claimed(number) => Phase::Claimed(*number),
        Phase::Missed(number) => Phase::Missed(*number),
        Phase::Made(number, text) => Phase::Made(*number, Text::copied(alloc, text.as_slice())?),
        Phase::Ended => Phase::Ended,
    })
}

/// The refusal of an act that is not enabled from this phase.
pub fn not_enabled(alloc: Global, phase: &Phase) -> StepError
    ensures { Carries phase.now result }
{
    match copied_phase(alloc, phase) {
        Ok(phase) => StepError::NotEnabled { phase },
        Err(_) => StepError::NoMemory,
    }
}

pub fn copied_pair(alloc: Global, key: &[u8], text: &[u8]) -> Result<DiskPair, AllocError>
    ensures { IfOk result (λ copy. copy ≡ pair key.now text.now) }
{
    Ok(DiskPair {
        key: Text::copied(alloc, key)?,
        text: Text::copied(alloc, text)?,
    })
}

pub fn copied_pairs(alloc: Global, pairs: &[DiskPair]) -> Result<Vec<DiskPair>, AllocError>
    ensures { IfOk result (λ copies. copies.items ≡ pairs.now) }
{
    let mut copies = Vec::with_capacity(alloc, pairs.len())?;
    for pair in pairs {
        copies.push(copied_pair(alloc, pair.key.as_slice(), pair.text.as_slice())?)?;
    }
    Ok(copies)
}

pub fn copied_texts(alloc: Global, texts: &[Text]) -> Result<Vec<Text>, AllocError>
    ensures { IfOk result (λ copies. copies.items ≡ texts.now) }
{
    let mut copies = Vec::with_capacity(alloc, texts.len())?;
    for text in texts {
        copies.push(Text::copied(alloc, text.as_slice())?)?;
    }
    Ok(copies)
}
