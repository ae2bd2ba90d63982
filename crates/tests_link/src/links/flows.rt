//! What is known of control flow goes with the parts of a link, which no clause says of any definition.
ghost use Rattle.ir_flow.specs.OfFunction.{AreFlows};

use crate::links::files::{analysed, texts};
use ir_flow::{AnalysedValue, Flow};
use ir_tree::{GlobalValue, Rows, Verified};
use merge_meaning::{LiveSymbols, parts};
use std::alloc::Global;
use std::slice::from_ref;
use thin_link::thin_link;

/// A variable, a local that is renamed, and a function of four blocks, of which one isn't reached.
const TEXT: &str = "@g = global i32 0
define internal i32 @local() {
  ret i32 1
}
define i32 @main(i1 %0) {
  br i1 %0, label %2, label %3
2:
  %x = call i32 @local()
  ret i32 %x
3:
  store i32 1, ptr @g
  ret i32 0
4:
  br label %3
}
";

/// The part of a link that has one module, of which this is known.
fn part(
    alloc: Global,
    verified: &Verified,
    known: Rows<Option<Flow>>,
) -> Option<Rows<AnalysedValue>>
    requires { AreFlows verified.now.globals known }
{
    let names = texts(alloc, &[b"a.ll"]).ok()?;
    let exports = texts(alloc, &[b"main"]).ok()?;
    let suffixes = texts(alloc, &[b".llvm.1"]).ok()?;
    if names.len() != 1 {
        return None;
    }
    let modules = from_ref(verified);
    let decided = thin_link(alloc, &names, modules, &exports, 0).ok()?;
    let live = LiveSymbols::of(alloc, decided.index.symbols(), &decided.live).ok()?;
    let Ok(flows) = vec![in alloc; known] else {
        return None;
    };
    let mut parts = parts(alloc, modules, flows, &decided.resolution, &live, &suffixes).ok()?;
    parts.pop()
}

/// Whether this is a function whose control flow is known, or a variable.
fn is_known(value: &AnalysedValue) -> bool {
    match value.value() {
        GlobalValue::Function(_) => value.flow().is_some(),
        GlobalValue::Variable(_) => true,
    }
}

/// Whether these are functions whose control flow is known, and variables.
fn are_known(values: &[AnalysedValue]) -> bool {
    for value in values {
        if !is_known(value) {
            return false;
        }
    }
    true
}

/// Whether the control flow of each function in the part of a text is known, and how many values that has.
fn told(alloc: Global, text: &str) -> Option<(bool, usize)> {
    let (verified, known) = analysed(alloc, text)?.into_parts();
    let part = part(alloc, &verified, known)?;
    Some((are_known(part.as_slice()), part.len()))
}

#[test]
fn control_flow_goes_with_parts(rt: HostRuntime) {
    assert!(rt; told(rt.alloc(), TEXT) == Some((true, 3)));
}
