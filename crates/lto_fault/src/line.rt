//! The line of a refusal.
ghost use Rattle.std.specs.Prelude.{◌≡◌, ◌≤◌, [], ◌∷◌, ◌++◌, OnOk, codes, decimal};
ghost use Rattle.ir_tree.specs.Names.{quoted};
ghost use Rattle.lto_fault.specs.Texts.{cause_text, refusal_text, rule_text, target_text};
ghost use Rattle.lto_outside.specs.Seen.{stream_seen};
ghost use Rattle.lto_fault.specs.Pushing.{Hears, Pushes, joined, note_of};
ghost use Rattle.lto_fault.specs.Parts.{fault_words, kind_word, kind_words};
ghost use Rattle.lto_fault.specs.declared.refusal.Refusal.TheVariants.{DuplicateSymbol, KindClash, OutOfSteps, Refused, TargetClash, Undefined, UndefinedSymbol, Uninit};

use crate::kind::RefusalKind;
use crate::parts::{push_all, push_eight, push_three};
use crate::refusal::Refusal;
use crate::symbol::push_quoted;
use ir_tree::{Cause, FaultKind, Rule, TargetLine, Text};
use itoa::Buffer;
use lto_outside::ByteOut;

/// The words of a fault of reading, without the word that isn't covered.
fn fault_words(fault: &FaultKind) -> &'static [u8]
    ensures { result.now ≡ fault_words fault.now }
{
    match fault {
        FaultKind::Lex => b"bad token",
        FaultKind::Syntax => b"syntax",
        FaultKind::Profile { .. } => b"not in the profile: ",
        FaultKind::Number => b"number out of range",
        FaultKind::Limit => b"limit passed",
        FaultKind::Twice => b"name defined twice",
        FaultKind::Unknown => b"unknown name",
        FaultKind::Layout => b"layout not supported",
        FaultKind::Index => b"bad index",
    }
}

fn rule_words(rule: Rule) -> &'static [u8]
    ensures { result.now ≡ rule_text rule }
{
    match rule {
        Rule::TypeMismatch => b"type mismatch",
        Rule::NotAvailable => b"name not available",
        Rule::PhiEdges => b"phi edges",
        Rule::PhiPlace => b"phi place",
        Rule::EntryBranch => b"branch to entry",
        Rule::Index => b"bad index",
        Rule::Cast => b"bad cast",
        Rule::CaseTwice => b"case twice",
    }
}

/// The words of a kind, without the word that isn't covered.
fn kind_words(kind: &RefusalKind) -> &'static [u8]
    ensures { result.now ≡ kind_words kind.now }
{
    match kind {
        RefusalKind::Unread(fault) => fault_words(fault),
        RefusalKind::Unsound(rule) => rule_words(*rule),
        RefusalKind::BadLine => b"bad list line",
    }
}

/// The word that isn't covered, if there is one.
fn kind_word(kind: &RefusalKind) -> &[u8]
    ensures { result.now ≡ kind_word kind.now }
{
    match kind {
        RefusalKind::Unread(FaultKind::Profile { word }) => word.as_slice(),
        _ => b"",
    }
}

fn cause_words(cause: Cause) -> &'static [u8]
    ensures { result.now ≡ cause_text cause }
{
    match cause {
        Cause::DivisionByZero => b"division by zero",
        Cause::DivisionOverflow => b"division overflow",
        Cause::PoisonDivisor => b"poison divisor",
        Cause::BranchOnPoison => b"branch on poison",
        Cause::UnreachableReached => b"unreachable reached",
        Cause::CallOfNoFunction => b"call of no function",
        Cause::CallOfAnotherType => b"call of another type",
        Cause::PoisonArgument => b"poison argument",
        Cause::BadPointer => b"bad pointer",
        Cause::StoreToConstant => b"store to constant",
        Cause::OutOfBounds => b"out of bounds",
        Cause::Misaligned => b"misaligned",
    }
}

fn target_words(target: TargetLine) -> &'static [u8]
    ensures { result.now ≡ target_text target }
{
    match target {
        TargetLine::Datalayout => b"datalayout",
        TargetLine::Triple => b"triple",
    }
}

/// A line that names a symbol: what stands before its name, its name, and seven parts behind it.
fn push_named<'a, N: ByteOut>(
    out: &mut N,
    before: &'a [u8],
    symbol: &'a Text,
    a: &'a [u8],
    b: &'a [u8],
    c: &'a [u8],
    d: &'a [u8],
    e: &'a [u8],
    f: &'a [u8],
    g: &'a [u8],
) -> bool
    ensures pushed { Pushes (stream_seen N.sent N.faults out.old out.new) (before.now ++ (quoted symbol.now ++ joined (a.now ∷ b.now ∷ c.now ∷ d.now ∷ e.now ∷ f.now ∷ g.now ∷ []))) result }
    ensures later { N.faults out.old ≤ N.faults out.new }
{
    if !push_all(out, before) {
        return false;
    }
    if !push_quoted(out, symbol.as_slice()) {
        return false;
    }
    push_eight(out, a, b, c, d, e, f, g, b"")
}

/// A symbol alone behind these words.
fn push_symbol<'a, N: ByteOut>(out: &mut N, words: &'a [u8], symbol: &'a Text) -> bool
    ensures pushed { Pushes (stream_seen N.sent N.faults out.old out.new) (words.now ++ (quoted symbol.now ++ codes "\n")) result }
    ensures later { N.faults out.old ≤ N.faults out.new }
{
    push_named(out, words, symbol, b"\n", b"", b"", b"", b"", b"", b"")
}

/// A symbol and two files behind these words.
fn push_both<'a, N: ByteOut>(
    out: &mut N,
    words: &'a [u8],
    symbol: &'a Text,
    a: &'a [u8],
    first: &'a Text,
    b: &'a [u8],
    second: &'a Text,
) -> bool
    ensures pushed { Pushes (stream_seen N.sent N.faults out.old out.new) (words.now ++ (quoted symbol.now ++ (a.now ++ (first.now ++ (b.now ++ (second.now ++ codes "\n")))))) result }
    ensures later { N.faults out.old ≤ N.faults out.new }
{
    push_named(
        out,
        words,
        symbol,
        a,
        first.as_slice(),
        b,
        second.as_slice(),
        b"\n",
        b"",
        b"",
    )
}

/// A place in a run behind these words, and its cause or nothing.
fn push_place<'a, N: ByteOut>(
    out: &mut N,
    words: &'a [u8],
    function: &'a Text,
    file: &'a Text,
    instruction: u64,
    colon: &'a [u8],
    cause: &'a [u8],
) -> bool
    ensures pushed { Pushes (stream_seen N.sent N.faults out.old out.new) (words.now ++ (quoted function.now ++ (codes " of " ++ (file.now ++ (codes " at instruction " ++ (decimal instruction ++ (colon.now ++ (cause.now ++ codes "\n")))))))) result }
    ensures later { N.faults out.old ≤ N.faults out.new }
{
    let mut buffer = Buffer::new();
    let number = buffer.format(instruction).as_bytes();
    push_named(
        out,
        words,
        function,
        b" of ",
        file.as_slice(),
        b" at instruction ",
        number,
        colon,
        cause,
        b"\n",
    )
}

/// A file's line and its fault.
fn push_refused<N: ByteOut>(out: &mut N, file: &Text, line: u64, kind: &RefusalKind) -> bool
    ensures pushed { Pushes (stream_seen N.sent N.faults out.old out.new) (refusal_text (Refused file.now line kind.now)) result }
    ensures later { N.faults out.old ≤ N.faults out.new }
{
    let mut buffer = Buffer::new();
    let number = buffer.format(line).as_bytes();
    push_eight(
        out,
        b"thinlto: ",
        file.as_slice(),
        b":",
        number,
        b": ",
        kind_words(kind),
        kind_word(kind),
        b"\n",
    )
}

/// Two files whose target lines differ.
fn push_targets<N: ByteOut>(out: &mut N, target: TargetLine, first: &Text, second: &Text) -> bool
    ensures pushed { Pushes (stream_seen N.sent N.faults out.old out.new) (refusal_text (TargetClash target first.now second.now)) result }
    ensures later { N.faults out.old ≤ N.faults out.new }
{
    push_eight(
        out,
        b"thinlto: target ",
        target_words(target),
        b" differs in ",
        first.as_slice(),
        b" and ",
        second.as_slice(),
        b"\n",
        b"",
    )
}

/// How many steps were too few.
fn push_steps<N: ByteOut>(out: &mut N, steps: u64) -> bool
    ensures pushed { Pushes (stream_seen N.sent N.faults out.old out.new) (refusal_text (OutOfSteps steps)) result }
    ensures later { N.faults out.old ≤ N.faults out.new }
{
    let mut buffer = Buffer::new();
    let number = buffer.format(steps).as_bytes();
    push_three(out, b"thinlto: out of steps after ", number, b"\n")
}

/// A file behind these words.
fn push_file<'a, N: ByteOut>(out: &mut N, words: &'a [u8], name: &'a Text) -> bool
    ensures pushed { Pushes (stream_seen N.sent N.faults out.old out.new) (words.now ++ (name.now ++ codes "\n")) result }
    ensures later { N.faults out.old ≤ N.faults out.new }
{
    push_three(out, words, name.as_slice(), b"\n")
}

/// A symbol that two files define.
fn push_duplicate<N: ByteOut>(out: &mut N, name: &Text, first: &Text, second: &Text) -> bool
    ensures pushed { Pushes (stream_seen N.sent N.faults out.old out.new) (refusal_text (DuplicateSymbol name.now first.now second.now)) result }
    ensures later { N.faults out.old ≤ N.faults out.new }
{
    push_both(
        out,
        b"thinlto: duplicate symbol @",
        name,
        b" in ",
        first,
        b" and ",
        second,
    )
}

/// A symbol that is a function in one file and a variable in another.
fn push_kinds<N: ByteOut>(out: &mut N, name: &Text, function: &Text, variable: &Text) -> bool
    ensures pushed { Pushes (stream_seen N.sent N.faults out.old out.new) (refusal_text (KindClash name.now function.now variable.now)) result }
    ensures later { N.faults out.old ≤ N.faults out.new }
{
    push_both(
        out,
        b"thinlto: @",
        name,
        b" is a function in ",
        function,
        b" and a variable in ",
        variable,
    )
}

/// A symbol that nobody defines, and a file that refers to it.
fn push_unknown<N: ByteOut>(out: &mut N, name: &Text, file: &Text) -> bool
    ensures pushed { Pushes (stream_seen N.sent N.faults out.old out.new) (refusal_text (UndefinedSymbol name.now file.now)) result }
    ensures later { N.faults out.old ≤ N.faults out.new }
{
    push_named(
        out,
        b"thinlto: undefined symbol @",
        name,
        b" in ",
        file.as_slice(),
        b"\n",
        b"",
        b"",
        b"",
        b"",
    )
}

/// Where a run reached undefined behaviour, and why.
fn push_undefined<N: ByteOut>(
    out: &mut N,
    function: &Text,
    file: &Text,
    instruction: u64,
    cause: Cause,
) -> bool
    ensures pushed { Pushes (stream_seen N.sent N.faults out.old out.new) (refusal_text (Undefined function.now file.now instruction cause)) result }
    ensures later { N.faults out.old ≤ N.faults out.new }
{
    push_place(
        out,
        b"thinlto: undefined behaviour in @",
        function,
        file,
        instruction,
        b": ",
        cause_words(cause),
    )
}

/// Where a run read an uninitialised byte.
fn push_uninit<N: ByteOut>(out: &mut N, function: &Text, file: &Text, instruction: u64) -> bool
    ensures pushed { Pushes (stream_seen N.sent N.faults out.old out.new) (refusal_text (Uninit function.now file.now instruction)) result }
    ensures later { N.faults out.old ≤ N.faults out.new }
{
    push_place(
        out,
        b"thinlto: uninitialised byte read in @",
        function,
        file,
        instruction,
        b"",
        b"",
    )
}

pub(crate) fn push_refusal<N: ByteOut>(out: &mut N, refusal: &Refusal) -> bool
    ensures pushed { Pushes (stream_seen N.sent N.faults out.old out.new) (refusal_text refusal.now) result }
    ensures later { N.faults out.old ≤ N.faults out.new }
{
    match refusal {
        Refusal::Usage => push_all(out, b"thinlto: usage\n"),
        Refusal::ReadFault { name } => push_file(out, b"thinlto: cannot read ", name),
        Refusal::Refused { file, line, kind } => push_refused(out, file, *line, kind),
        Refusal::TargetClash {
            target,
            first,
            second,
        } => push_targets(out, *target, first, second),
        Refusal::DuplicateSymbol {
            name,
            first,
            second,
        } => push_duplicate(out, name, first, second),
        Refusal::KindClash {
            name,
            function,
            variable,
        } => push_kinds(out, name, function, variable),
        Refusal::UndefinedSymbol { name, file } => push_unknown(out, name, file),
        Refusal::NoExport { name } => {
            push_symbol(out, b"thinlto: no definition of exported @", name)
        }
        Refusal::NameTaken { name } => push_symbol(out, b"thinlto: name taken: @", name),
        Refusal::BadArguments { name } => push_symbol(out, b"thinlto: wrong arguments for @", name),
        Refusal::WriteFault { name } => push_file(out, b"thinlto: cannot write ", name),
        Refusal::NoMemory => push_all(out, b"thinlto: out of memory\n"),
        Refusal::Undefined {
            function,
            file,
            instruction,
            cause,
        } => push_undefined(out, function, file, *instruction, *cause),
        Refusal::Uninit {
            function,
            file,
            instruction,
        } => push_uninit(out, function, file, *instruction),
        Refusal::OutOfSteps { steps } => push_steps(out, *steps),
    }
}

/// Says why a command was refused, and nothing where it was done. Where the sink fails, a front of the line is pushed.
pub fn say<N: ByteOut>(notes: &mut N, status: &Result<(), Refusal>)
    ensures said { Hears (stream_seen N.sent N.faults notes.old notes.new) (note_of status.now) }
    ensures later { N.faults notes.old ≤ N.faults notes.new }
    ensures silent { OnOk status.now (notes.new ≡ notes.old) }
{
    if let Err(refusal) = status {
        let _whole = push_refusal(notes, refusal);
    }
}
