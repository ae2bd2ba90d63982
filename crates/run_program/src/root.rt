//! Where a run begins: the root, its arguments, and the type of what it gives.
ghost use Rattle.std.specs.Prelude.{◌≡◌, All, IfOk, IfSome, None, length, option_copied, slice_get};
ghost use Rattle.ir_meaning.specs.Runnable.{AreRunnable};
ghost use Rattle.machine_code.specs.Lowered.{IsMadeOf};
ghost use Rattle.ir_interp.specs.Steps.{CanBegin};
ghost use Rattle.run_program.specs.Arguments.{IsGiven, IsTyped};
ghost use Rattle.run_program.specs.Roots.{IsBegun, IsRoot, NoRoot, begun_with, function_in};

use crate::given::arguments;
use ir_tree::{Function, GlobalValue, Reg, Rows, Text};
use lto_words::Decimal;
use machine_code::Lowered;
use std::alloc::{AllocError, Global};

/// What a run is asked for.
#[derive(Drop)]
pub struct RunOptions {
    pub root: Text,
    pub args: Rows<Decimal>,
    /// 1 to 4,000,000,000.
    pub steps: u32,
}

/// A function in which a run can begin, with the index of its symbol.
#[derive(Drop)]
struct RootFunction<'a> {
    index: u32,
    function: &'a Function,
}

/// Where a run begins.
#[derive(Drop)]
pub(crate) struct Begun {
    pub index: u32,
    pub numbers: Rows<u64>,
    /// The type of what the root gives, if it gives something.
    pub gives: Option<Reg>,
}

/// The function of a place among global values, if there is one.
fn function_at(globals: &[GlobalValue], place: usize) -> Option<&Function>
    ensures { option_copied result ≡ function_in (slice_get globals.now place) }
{
    match globals.get(place) {
        Some(GlobalValue::Function(function)) => Some(function),
        _ => None,
    }
}

/// The function of this name in which a run can begin.
fn root_function<'a>(
    globals: &'a [GlobalValue],
    lowered: &Lowered,
    name: &[u8],
) -> Option<RootFunction<'a>>
    requires runnable { AreRunnable globals.now }
    requires made { IsMadeOf globals.now lowered.now }
    ensures begins { IfSome result (λ r. CanBegin lowered.now.code r.index (length r.function.now.params)) }
    ensures some { IfSome result (λ r. IsRoot globals.entry.now name.now r.index r.function.now) }
    ensures params { IfSome result (λ r. All (λ p. IsTyped p.reg) r.function.now.params) }
    ensures gives { IfSome result (λ r. IsGiven r.function.now.result) }
    ensures none { result ≡ None → NoRoot globals.entry.now name.now }
{
    let root = lowered.root(name)?;
    let function = function_at(globals, root.index as usize)?;
    Some(RootFunction {
        index: root.index,
        function,
    })
}

/// The beginning with these arguments, if they are taken.
fn begun_with(index: u32, gives: Option<Reg>, taken: Option<Rows<u64>>) -> Option<Begun>
    ensures { result ≡ begun_with index gives taken }
{
    match taken {
        None => None,
        Some(numbers) => Some(Begun {
            index,
            numbers,
            gives,
        }),
    }
}

/// Where a run of the global values begins; none where the root isn't a function that takes the arguments.
pub(crate) fn begin(
    alloc: Global,
    globals: &[GlobalValue],
    lowered: &Lowered,
    options: &RunOptions,
) -> Result<Option<Begun>, AllocError>
    requires runnable { AreRunnable globals.now }
    requires made { IsMadeOf globals.now lowered.now }
    ensures begins { IfOk result (λ begun. IfSome begun (λ b. CanBegin lowered.now.code b.index (length b.numbers))) }
    ensures gives { IfOk result (λ begun. IfSome begun (λ b. IsGiven b.gives)) }
    ensures found { IfOk result (λ begun. IsBegun globals.now options.now.root options.now.args begun) }
{
    let name = options.root.as_slice();
    let Some(root) = root_function(globals, lowered, name) else {
        return Ok(None);
    };
    let params = root.function.params.as_slice();
    let given = options.args.as_slice();
    let taken = arguments(alloc, params, given)?;
    Ok(begun_with(root.index, root.function.result, taken))
}
