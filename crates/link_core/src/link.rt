//! One link of the core: what its workers' acts change in it.
ghost use Rattle.std.specs.Prelude.{◌≡◌, ◌≢◌, ℕ, ◌<◌, List, length, replicate, slice_get, Some, IfOk, OnOk, OnErr, IfErr, IfSome, IsNone};
ghost use Rattle.link_core.specs.Machine.{key_at, drawn, claimed, moved, settled, looked, found, opened};
ghost use Rattle.link_core.specs.Sound.{IsSound, HasNumber};
ghost use Rattle.link_core.specs.Views.{parts_of};
ghost use Rattle.link_core.specs.Refusals.{CannotAct};

use crate::copies::{copied_texts, not_enabled};
use crate::event::{Act, CoreLink, DiskPair, Phase, StepError};
use crate::lookup::found;
use ir_tree::Text;
use std::alloc::{AllocError, Global};
use std::marker::Model;
use std::mem;

/// A link's keys by number, its next number, a phase for each worker, and its results by number.
#[derive(Drop)]
pub struct Link {
    keys: Vec<Text>,
    next: usize,
    phases: Vec<Phase>,
    results: Vec<Option<Text>>,
}

impl Model for Link {
    ghost use Rattle.link_core.specs.Machine.{LinkState};

    ghost Value = { LinkState };

    ghost use Rattle.link_core.specs.Views.{link_of};
    ghost use Rattle.link_core.specs.Sound.{IsSound};

    ghost view = { link_of };

    ghost invariant = { λ l. IsSound (link_of l) };
}

impl Link {
    /// A link at its start: all workers idle, and no result.
    pub fn open(alloc: Global, link: &CoreLink) -> Result<Link, AllocError>
        ensures { IfOk result (λ new. new ≡ opened (parts_of link.now)) }
    {
        let keys = copied_texts(alloc, &link.keys)?;
        Ok(Link {
            next: 0,
            phases: idle_phases(alloc, link.workers)?,
            results: no_results(alloc, keys.len())?,
            keys,
        })
    }

    /// The next number goes to an idle worker, or the worker ends.
    pub fn claim(&mut self, alloc: Global, worker: usize) -> Result<(), StepError>
        requires { worker < length self.old.phases }
        ensures ok { OnOk result ((slice_get self.old.phases worker ≡ Some Phase.Idle) × (self.new ≡ claimed self.old worker)) }
        ensures refused { IfErr result (CannotAct (slice_get self.old.phases worker) Act.Claim) }
        ensures same { OnErr result (self.new ≡ self.old) }
    {
        let Phase::Idle = &self.phases[worker] else {
            return Err(not_enabled(alloc, &self.phases[worker]));
        };
        self.phases[worker] = drawn(self.next, self.keys.len());
        self.next += 1;
        Ok(())
    }

    /// What is found for a claimed number becomes its result; else the worker has missed it.
    pub fn look(
        &mut self,
        alloc: Global,
        entries: &[DiskPair],
        disk: &[DiskPair],
        worker: usize,
        given: bool,
    ) -> Result<(), StepError>
        requires { worker < length self.old.phases }
        ensures ok { OnOk result ((k : ℕ) × (slice_get self.old.phases worker ≡ Some (Phase.Claimed k)) × (self.new ≡ looked self.old worker k (found entries.now disk.now (key_at self.old.keys k) given))) }
        ensures refused { IfErr result (CannotAct (slice_get self.old.phases worker) (Act.Look given)) }
        ensures same { OnErr result (self.new ≡ self.old) }
    {
        let Phase::Claimed(number) = &self.phases[worker] else {
            return Err(not_enabled(alloc, &self.phases[worker]));
        };
        let number = *number;
        let Some(text) = found(entries, disk, self.keys[number].as_slice(), given) else {
            self.miss(worker, number);
            return Ok(());
        };
        let text = Text::copied(alloc, text.as_slice())?;
        self.settle(worker, number, text);
        Ok(())
    }

    /// Nothing was found for the worker's number.
    fn miss(&mut self, worker: usize, number: usize)
        requires { HasNumber self.old worker number }
        ensures { self.new ≡ moved self.old worker (Phase.Missed number) }
    {
        self.phases[worker] = Phase::Missed(number);
    }

    /// A missed number's worker has made this text.
    pub fn compile(&mut self, alloc: Global, worker: usize, text: &Text) -> Result<(), StepError>
        requires { worker < length self.old.phases }
        ensures ok { OnOk result ((k : ℕ) × (slice_get self.old.phases worker ≡ Some (Phase.Missed k)) × (self.new ≡ moved self.old worker (Phase.Made k text.now))) }
        ensures refused { IfErr result (CannotAct (slice_get self.old.phases worker) (Act.Compile text.now)) }
        ensures same { OnErr result (self.new ≡ self.old) }
    {
        let Phase::Missed(number) = &self.phases[worker] else {
            return Err(not_enabled(alloc, &self.phases[worker]));
        };
        let number = *number;
        self.phases[worker] = Phase::Made(number, Text::copied(alloc, text.as_slice())?);
        Ok(())
    }

    /// The key of a worker's number and the text that it has made.
    pub fn made(&self, worker: usize) -> Option<(&Text, &Text)>
        requires { worker < length self.now.phases }
        ensures some { IfSome result (λ m. (k : ℕ) × (slice_get self.now.phases worker ≡ Some (Phase.Made k m.1.now)) × (m.0.now ≡ key_at self.now.keys k)) }
        ensures none { IsNone result → (k : ℕ) (text : List ℕ) → slice_get self.now.phases worker ≢ Some (Phase.Made k text) }
    {
        match &self.phases[worker] {
            Phase::Made(number, text) => Some((&self.keys[*number], text)),
            _ => None,
        }
    }

    pub fn phase(&self, worker: usize) -> &Phase
        requires { worker < length self.now.phases }
        ensures { slice_get self.now.phases worker ≡ Some result.now }
    {
        &self.phases[worker]
    }

    pub fn workers(&self) -> usize
        ensures { result ≡ length self.now.phases }
    {
        self.phases.len()
    }

    pub fn results(&self) -> &[Option<Text>]
        ensures { result.now ≡ self.now.results }
    {
        &self.results
    }

    /// A text becomes the result of the worker's number, and the worker is idle.
    fn settle(&mut self, worker: usize, number: usize, given: Text)
        requires { HasNumber self.old worker number }
        ensures { self.new ≡ settled self.old worker number given }
    {
        self.phases[worker] = Phase::Idle;
        self.results[number] = Some(given);
    }

    /// The text that a worker has made becomes the result of its number, and the worker is idle.
    pub fn finish(&mut self, worker: usize)
        requires { (k : ℕ) × (text : List ℕ) × (slice_get self.old.phases worker ≡ Some (Phase.Made k text)) }
        ensures { (k : ℕ) (text : List ℕ) → slice_get self.old.phases worker ≡ Some (Phase.Made k text) → self.new ≡ settled self.old worker k text }
    {
        let Phase::Made(number, text) = mem::replace(&mut self.phases[worker], Phase::Idle) else {
            unreachable!();
        };
        self.results[number] = Some(text);
    }
}

/// The phase of a worker that draws the next of so many numbers.
fn drawn(next: usize, count: usize) -> Phase
    ensures { result ≡ drawn next count }
{
    if next < count {
        Phase::Claimed(next)
    } else {
        Phase::Ended
    }
}

fn idle_phases(alloc: Global, workers: u32) -> Result<Vec<Phase>, AllocError>
    ensures { IfOk result (λ phases. phases.items ≡ replicate workers Phase.Idle) }
{
    let workers = workers as usize;
    let mut phases = Vec::with_capacity(alloc, workers)?;
    while phases.len() < workers {
        phases.push(Phase::Idle)?;
    }
    Ok(phases)
}

fn no_results(alloc: Global, count: usize) -> Result<Vec<Option<Text>>, AllocError>
    ensures { IfOk result (λ results. results.items ≡ replicate count None) }
{
    let mut results = Vec::with_capacity(alloc, count)?;
    while results.len() < count {
        results.push(None)?;
    }
    Ok(results)
}
