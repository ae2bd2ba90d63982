//! The one call over the outside in memory, by tables: texts and what they link to or are refused for, words, files of which
//! there is an index or none, and modules that run, one or several together.

use outside_memory::{Failure, Leaves, MemoryDisk, MemoryFiles, MemoryGate, MemoryIn, MemoryOut};
use std::alloc::{AllocError, Global};
use std::sync::Wait;
use std::thread::Threads;
use thinlto_main::{LinkMakes, status_of, top};

/// What `a.ll` and `b.ll` hold, and the numbers of the call of the files and of the push to the output that fail, counted
/// from 0.
type Outside<'a> = (&'a [u8], &'a [u8], u64, u64);

/// What the input has, and the number of the read that fails.
pub(crate) type Input<'a> = (&'a [u8], u64);

/// What a run ends with: its status, what `o` holds, what was printed and what the notes got.
type End<'a> = (u8, &'a [u8], &'a [u8], &'a [u8]);

pub(crate) fn words_of(alloc: Global, given: &[&str]) -> Result<Vec<String>, AllocError> {
    let mut words = Vec::new(alloc);
    for word in given {
        let word = String::from_str(alloc, word)?;
        words.push(word)?;
    }
    Ok(words)
}

/// The files `a.ll`, `b.ll` and `o`, of which the call of this number fails.
pub(crate) fn files_of(
    alloc: Global,
    first: &[u8],
    second: &[u8],
    failing: u64,
) -> Result<MemoryFiles, AllocError> {
    let failure = Failure {
        call: failing,
        leaves: Leaves::Before,
    };
    let mut files = MemoryFiles::new(alloc, vec![in alloc; failure]?);
    files.with("a.ll", first)?;
    files.with("b.ll", second)?;
    files.with("o", BEFORE)?;
    Ok(files)
}

/// An input of these bytes, of which the read of this number fails.
pub(crate) fn input_of<'a>(alloc: Global, input: Input<'a>) -> Result<MemoryIn, AllocError> {
    let (bytes, lacking) = input;
    let failing = vec![in alloc; lacking]?;
    let bytes = Vec::from_slice(alloc, bytes)?;
    Ok(MemoryIn::new(bytes, failing))
}

/// An output of which the push of this number fails.
pub(crate) fn output_of(alloc: Global, stuck: u64) -> Result<MemoryOut, AllocError> {
    let failing = vec![in alloc; stuck]?;
    Ok(MemoryOut::new(alloc, failing))
}

pub(crate) fn holds(files: &MemoryFiles, name: &str, held: &[u8]) -> bool {
    match files.content(name) {
        Some(text) => text.equals(held),
        None => false,
    }
}

/// Whether the call for these words over this outside ends so.
fn call_ends_so<'a, R: Threads + Wait + Sync>(
    rt: &R,
    alloc: Global,
    words: &[String],
    files: &mut MemoryFiles,
    input: &mut MemoryIn,
    out: &mut MemoryOut,
    end: End<'a>,
) -> bool {
    let mut notes = MemoryOut::new(alloc, Vec::new(alloc));
    let disk: MemoryDisk<LinkMakes> = MemoryDisk::new(alloc, Vec::new(alloc));
    let gate = MemoryGate::new();
    let ended = top(rt, alloc, words, files, disk, &gate, input, out, &mut notes);
    let (status, held, printed, noted) = end;
    let told = out.sent() == printed && notes.sent() == noted;
    status_of(&ended.status) == status && holds(files, "o", held) && told
}

/// Whether the call for these words over these files ends so, where the push of this number fails.
fn ends_over<'a, R: Threads + Wait + Sync>(
    rt: &R,
    alloc: Global,
    given: &[&str],
    files: &mut MemoryFiles,
    stuck: u64,
    input: Input<'a>,
    end: End<'a>,
) -> Result<bool, AllocError> {
    let mut out = output_of(alloc, stuck)?;
    let mut input = input_of(alloc, input)?;
    let words = words_of(alloc, given)?;
    let ends = call_ends_so(
        rt,
        alloc,
        words.as_slice(),
        files,
        &mut input,
        &mut out,
        end,
    );
    Ok(ends)
}

/// Whether the call for these words over the files `a.ll`, `b.ll` and `o` ends so.
fn ends_so<'a, R: Threads + Wait + Sync>(
    rt: &R,
    alloc: Global,
    given: &[&str],
    outside: Outside<'a>,
    input: Input<'a>,
    end: End<'a>,
) -> Result<bool, AllocError> {
    let (first, second, failing, stuck) = outside;
    let mut files = files_of(alloc, first, second, failing)?;
    ends_over(rt, alloc, given, &mut files, stuck, input, end)
}

/// The number of no call.
pub(crate) const NONE: u64 = 9_999;

pub(crate) const NOTHING: &[u8] = b"";

/// An input that is at its end.
pub(crate) const EMPTY: Input<'static> = (b"", NONE);

/// What `o` holds before a run.
const BEFORE: &[u8] = b"-";

const LINK: &[&str] = &["link", "-o", "o", "a.ll"];

const SUM: &[u8] = b"define i32 @main() {\n  %x = add i32 2, 3\n  ret i32 %x\n}\n";

const FIVE: &[u8] = b"define i32 @main() {\n  ret i32 5\n}\n";

/// The name of a row, a text, and what it links to.
static LINKED: [(&str, &[u8], &[u8]); 10] = [
    ("a sum of constants", SUM, FIVE),
    (
        "comments, blanks, names in quotes and by number",
        b"; c\ndefine i32 @main(i32 %\"x\"){%5=mul i32 %x,%\"x\" ret\ti32 %5 }",
        b"define i32 @main(i32 %0) {\n  %2 = mul i32 %0, %0\n  ret i32 %2\n}\n",
    ),
    (
        "a signed division that overflows isn't folded",
        b"define i32 @main() {\n  %q = sdiv i32 -2147483648, -1\n  ret i32 %q\n}\n",
        b"define i32 @main() {\n  %1 = sdiv i32 -2147483648, -1\n  ret i32 %1\n}\n",
    ),
    (
        "a frozen poison becomes a number once for all its uses",
        b"declare i32 @putchar(i32)\ndefine i32 @main() {\n  %a = shl i8 1, 8\n  %b = freeze i8 %a\n  %c = zext i8 %b to i32\n  %d = call i32 @putchar(i32 %c)\n  ret i32 0\n}\n",
        b"declare i32 @putchar(i32)\ndefine i32 @main() {\n  %1 = call i32 @putchar(i32 0)\n  ret i32 0\n}\n",
    ),
    (
        "two phis that take each other's values are no copies of one another",
        b"define i32 @main() {\ne:\n  br label %l\nl:\n  %v = phi i32 [ 0, %e ], [ %n, %l ]\n  %y = phi i32 [ 9, %e ], [ %x, %l ]\n  %x = add i32 %v, 0\n  %n = add i32 %v, 1\n  %c = icmp eq i32 %n, 3\n  br i1 %c, label %o, label %l\no:\n  ret i32 %y\n}\n",
        b"define i32 @main() {\n  br label %1\n1:\n  %2 = phi i32 [ 0, %0 ], [ %4, %1 ]\n  %3 = phi i32 [ 9, %0 ], [ %2, %1 ]\n  %4 = add i32 %2, 1\n  %5 = icmp eq i32 %4, 3\n  br i1 %5, label %6, label %1\n6:\n  ret i32 %3\n}\n",
    ),
    (
        "variables, attributes, metadata, target lines, an `optnone` function, and what nobody refers to",
        b"source_filename = \"t.c\"\ntarget triple = \"x86_64-pc-linux-gnu\"\n@g = internal global { i32, i8 } { i32 5, i8 7 }\n@unused = global i32 1\ndefine dso_local noundef i32 @main() local_unnamed_addr #0 {\n  %1 = load i32, ptr @g, align 4, !tbaa !5\n  %2 = add i32 %1, 0\n  call void @f()\n  ret i32 %2\n}\ndefine void @f() noinline optnone { %x = add i32 1, 2 ret void }\nattributes #0 = { nounwind \"frame-pointer\"=\"all\" }\n!0 = !{i32 1}\n",
        b"target triple = \"x86_64-pc-linux-gnu\"\n@g.llvm.6461030682997138491 = internal global { i32, i8 } { i32 5, i8 7 }, align 4\ndefine internal void @f() noinline optnone {\n  %1 = add i32 1, 2\n  ret void\n}\ndefine i32 @main() {\n  %1 = load i32, ptr @g.llvm.6461030682997138491, align 4\n  call void @f()\n  ret i32 %1\n}\n",
    ),
    (
        "a slot that is read before it is written gives poison",
        b"define i32 @main() {\n  %s = alloca i32, align 4\n  %v = load i32, ptr %s, align 4\n  ret i32 %v\n}\n",
        b"define i32 @main() {\n  ret i32 poison\n}\n",
    ),
    (
        "a slot in a loop becomes phis",
        b"define i32 @main() {\nentry:\n  %s = alloca i32, align 4\n  store i32 0, ptr %s, align 4\n  br label %loop\nloop:\n  %i = phi i32 [ 0, %entry ], [ %j, %next ]\n  %c = icmp eq i32 %i, 5\n  br i1 %c, label %add, label %next\nadd:\n  store i32 %i, ptr %s, align 4\n  br label %next\nnext:\n  %j = add i32 %i, 1\n  %d = icmp eq i32 %j, 10\n  br i1 %d, label %done, label %loop\ndone:\n  %v = load i32, ptr %s, align 4\n  ret i32 %v\n}\n",
        b"define i32 @main() {\n  br label %1\n1:\n  %2 = phi i32 [ 0, %0 ], [ %7, %6 ]\n  %3 = phi i32 [ 0, %0 ], [ %8, %6 ]\n  %4 = icmp eq i32 %3, 5\n  br i1 %4, label %5, label %6\n5:\n  br label %6\n6:\n  %7 = phi i32 [ %2, %1 ], [ %3, %5 ]\n  %8 = add i32 %3, 1\n  %9 = icmp eq i32 %8, 10\n  br i1 %9, label %10, label %1\n10:\n  ret i32 %7\n}\n",
    ),
    (
        "a decided branch, the block that isn't reached, and blocks that are joined",
        b"define i32 @main() {\n  br i1 true, label %a, label %b\na:\n  br label %j\nb:\n  br label %j\nj:\n  %x = phi i32 [ 1, %a ], [ 2, %b ]\n  ret i32 %x\n}\n",
        b"define i32 @main() {\n  ret i32 1\n}\n",
    ),
    (
        "a slot with its lifetime, as clang writes it",
        b"; ModuleID = 't.c'\nsource_filename = \"t.c\"\ntarget datalayout = \"e-m:e-i64:64\"\ntarget triple = \"x86_64-pc-linux-gnu\"\n\ndefine dso_local noundef i32 @main() local_unnamed_addr #0 {\n  %1 = alloca i32, align 4\n  call void @llvm.lifetime.start.p0(i64 4, ptr nonnull %1) #2\n  store i32 7, ptr %1, align 4, !tbaa !5\n  %2 = load i32, ptr %1, align 4, !tbaa !5\n  call void @llvm.lifetime.end.p0(i64 4, ptr nonnull %1) #2\n  ret i32 %2\n}\ndeclare void @llvm.lifetime.start.p0(i64 immarg, ptr captures(none)) #1\ndeclare void @llvm.lifetime.end.p0(i64 immarg, ptr captures(none)) #1\nattributes #0 = { nounwind uwtable \"frame-pointer\"=\"all\" }\nattributes #1 = { nocallback nofree memory(argmem: readwrite) }\n!llvm.module.flags = !{!0}\n!0 = !{i32 1, !\"wchar_size\", i32 4}\n",
        b"target datalayout = \"e-m:e-i64:64\"\ntarget triple = \"x86_64-pc-linux-gnu\"\ndefine i32 @main() {\n  ret i32 7\n}\n",
    ),
];

/// A text, the call of the files that fails, the status, and the line that is told.
static REFUSED: [(&[u8], u64, u8, &str); 13] = [
    (b"define", NONE, 3, "thinlto: a.ll:1: syntax\n"),
    (
        b"define i32 @main() {\n  ret i32 0\n",
        NONE,
        3,
        "thinlto: a.ll:3: syntax\n",
    ),
    (b"\n\n\x01", NONE, 3, "thinlto: a.ll:3: bad token\n"),
    (
        b"define i8 @main() {\n  ret i8 256\n}\n",
        NONE,
        3,
        "thinlto: a.ll:2: number out of range\n",
    ),
    (
        b"define void @f() {\n  fence seq_cst\n  ret void\n}\n",
        NONE,
        3,
        "thinlto: a.ll:2: not in the profile: fence\n",
    ),
    (
        b"define i32 @main() {\n  ret i32 %x\n}\n",
        NONE,
        3,
        "thinlto: a.ll:2: unknown name\n",
    ),
    (
        b"define void @f() {\n  ret void\n}\ndeclare void @f()\n",
        NONE,
        3,
        "thinlto: a.ll:4: name defined twice\n",
    ),
    (
        b"define i64 @main(i32 %x) {\n  ret i64 %x\n}\n",
        NONE,
        3,
        "thinlto: a.ll:2: type mismatch\n",
    ),
    // a use that is defined on one path alone
    (
        b"define i32 @main(i1 %c) {\nentry:\n  br i1 %c, label %a, label %j\na:\n  %x = add i32 1, 2\n  br label %j\nj:\n  ret i32 %x\n}\n",
        NONE,
        3,
        "thinlto: a.ll:8: name not available\n",
    ),
    // what a link of one file lacks
    (b"", NONE, 4, "thinlto: no definition of exported @main\n"),
    (
        b"declare i32 @g()\ndefine i32 @main() {\n  %x = call i32 @g()\n  ret i32 %x\n}\n",
        NONE,
        4,
        "thinlto: undefined symbol @g in a.ll\n",
    ),
    // the fetch and the put
    (SUM, 0, 2, "thinlto: cannot read a.ll\n"),
    (SUM, 1, 5, "thinlto: cannot write o\n"),
];

#[test]
fn a_link_puts_its_text(rt: HostRuntime) -> Result<(), AllocError> {
    let alloc = rt.alloc();
    for &(name, text, linked) in &LINKED {
        let outside = (text, NOTHING, NONE, NONE);
        let end = (0_u8, linked, NOTHING, NOTHING);
        assert!(rt; ends_so(&rt, alloc, LINK, outside, EMPTY, end)?, "{name}");
    }
    Ok(())
}

#[test]
fn a_link_tells_why_not(rt: HostRuntime) -> Result<(), AllocError> {
    let alloc = rt.alloc();
    for &(text, failing, status, line) in &REFUSED {
        let outside = (text, NOTHING, failing, NONE);
        let end = (status, BEFORE, NOTHING, line.as_bytes());
        assert!(rt; ends_so(&rt, alloc, LINK, outside, EMPTY, end)?, "{line:?}");
    }
    Ok(())
}

/// How many parts of a link may be compiled at a time.
static JOBS: [&str; 3] = ["1", "2", "64"];

/// What `a.ll` and `b.ll` hold under the name of the row, and the status, what `o` holds and what is told of their link.
static LINKED_TOGETHER: [(&str, &[u8], &[u8], u8, &[u8], &[u8]); 11] = [
    (
        "a body is imported and inlined, and the local that it calls is promoted",
        b"define i32 @main() {\n  %r = call i32 @f(i32 4)\n  ret i32 %r\n}\ndeclare i32 @f(i32)\n",
        b"define i32 @f(i32 %x) {\n  %y = call i32 @h(i32 %x)\n  %z = add i32 %y, 1\n  ret i32 %z\n}\ndefine internal i32 @h(i32 %x) noinline {\n  %y = mul i32 %x, 3\n  ret i32 %y\n}\n",
        0,
        b"define internal i32 @h.llvm.6896371823873366418(i32 %0) noinline {\n  %2 = mul i32 %0, 3\n  ret i32 %2\n}\ndefine i32 @main() {\n  %1 = call i32 @h.llvm.6896371823873366418(i32 4)\n  %2 = add i32 %1, 1\n  ret i32 %2\n}\n",
        NOTHING,
    ),
    (
        "what is imported is inlined too, until nothing is left to call",
        b"define i32 @main() {\n  %r = call i32 @f(i32 4)\n  ret i32 %r\n}\ndeclare i32 @f(i32)\n",
        b"define i32 @f(i32 %x) {\n  %y = call i32 @h(i32 %x)\n  %z = add i32 %y, 1\n  ret i32 %z\n}\ndefine internal i32 @h(i32 %x) {\n  %y = mul i32 %x, 3\n  ret i32 %y\n}\n",
        0,
        b"define i32 @main() {\n  ret i32 13\n}\n",
        NOTHING,
    ),
    (
        "the first of two definitions that are merged prevails",
        b"define linkonce_odr i32 @f() {\n  ret i32 1\n}\n",
        b"define linkonce_odr i32 @f() {\n  ret i32 2\n}\ndefine i32 @main() {\n  %r = call i32 @f()\n  ret i32 %r\n}\n",
        0,
        b"define i32 @main() {\n  ret i32 1\n}\n",
        NOTHING,
    ),
    (
        "in the other order the other does",
        b"define linkonce_odr i32 @f() {\n  ret i32 2\n}\ndefine i32 @main() {\n  %r = call i32 @f()\n  ret i32 %r\n}\n",
        b"define linkonce_odr i32 @f() {\n  ret i32 1\n}\n",
        0,
        b"define i32 @main() {\n  ret i32 2\n}\n",
        NOTHING,
    ),
    (
        "a replaceable body isn't inlined",
        b"define weak i32 @f() {\n  ret i32 1\n}\ndefine i32 @main() {\n  %r = call i32 @f()\n  ret i32 %r\n}\n",
        NOTHING,
        0,
        b"define internal i32 @f() {\n  ret i32 1\n}\ndefine i32 @main() {\n  %1 = call i32 @f()\n  ret i32 %1\n}\n",
        NOTHING,
    ),
    (
        "an external definition prevails over a weak one",
        b"define weak i32 @f() {\n  ret i32 1\n}\ndefine i32 @main() {\n  %r = call i32 @f()\n  ret i32 %r\n}\n",
        b"define i32 @f() {\n  ret i32 2\n}\n",
        0,
        b"define i32 @main() {\n  ret i32 2\n}\n",
        NOTHING,
    ),
    (
        "locals of one name in two modules",
        b"define internal i32 @h() noinline {\n  ret i32 1\n}\ndeclare i32 @g()\ndefine i32 @main() {\n  %a = call i32 @h()\n  %b = call i32 @g()\n  %c = add i32 %a, %b\n  ret i32 %c\n}\n",
        b"define internal i32 @h() noinline {\n  ret i32 2\n}\ndefine i32 @g() {\n  %r = call i32 @h()\n  ret i32 %r\n}\n",
        0,
        b"define internal i32 @h.llvm.15311662862325989949() noinline {\n  ret i32 2\n}\ndefine internal i32 @h.llvm.15324396603054630255() noinline {\n  ret i32 1\n}\ndefine i32 @main() {\n  %1 = call i32 @h.llvm.15324396603054630255()\n  %2 = call i32 @h.llvm.15311662862325989949()\n  %3 = add i32 %1, %2\n  ret i32 %3\n}\n",
        NOTHING,
    ),
    (
        "a module's own `putchar`",
        b"declare i32 @putchar(i32)\ndefine i32 @main() {\n  %r = call i32 @putchar(i32 65)\n  ret i32 %r\n}\n",
        b"define i32 @putchar(i32 %c) noinline {\n  ret i32 %c\n}\n",
        0,
        b"define i32 @main() {\n  %1 = call i32 @putchar(i32 65)\n  ret i32 %1\n}\ndefine internal i32 @putchar(i32 %0) noinline {\n  ret i32 %0\n}\n",
        NOTHING,
    ),
    (
        "a final name that another symbol has",
        b"define internal i32 @h() noinline {\n  ret i32 1\n}\ndeclare i32 @g()\ndefine i32 @main() {\n  %a = call i32 @h()\n  %b = call i32 @g()\n  %c = add i32 %a, %b\n  ret i32 %c\n}\n",
        b"define internal i32 @h() noinline {\n  ret i32 2\n}\ndefine i32 @g() {\n  %r = call i32 @h.llvm.15324396603054630255()\n  ret i32 %r\n}\ndefine i32 @h.llvm.15324396603054630255() {\n  ret i32 3\n}\n",
        4,
        BEFORE,
        b"thinlto: name taken: @h.llvm.15324396603054630255\n",
    ),
    (
        "two external definitions of one name",
        b"define i32 @f() {\n  ret i32 2\n}\n",
        b"define i32 @f() {\n  ret i32 2\n}\n",
        4,
        BEFORE,
        b"thinlto: duplicate symbol @f in a.ll and b.ll\n",
    ),
    (
        "a file that isn't read, behind one that is",
        b"define i32 @main() {\n  %r = call i32 @f(i32 4)\n  ret i32 %r\n}\ndeclare i32 @f(i32)\n",
        b"define",
        3,
        BEFORE,
        b"thinlto: b.ll:1: syntax\n",
    ),
];

#[test]
fn modules_are_linked_together(rt: HostRuntime) -> Result<(), AllocError> {
    let alloc = rt.alloc();
    for &jobs in &JOBS {
        let words = ["link", "-o", "o", "--jobs", jobs, "a.ll", "b.ll"];
        for &(name, first, second, status, held, noted) in &LINKED_TOGETHER {
            let outside = (first, second, NONE, NONE);
            let end = (status, held, NOTHING, noted);
            assert!(rt;
                ends_so(&rt, alloc, &words, outside, EMPTY, end)?,
                "{name}, {jobs}"
            );
        }
    }
    Ok(())
}

const SEVEN: &[u8] = b"define i32 @main() {\n  ret i32 7\n}\n";

/// A list file, and how its batch ends: the number of the call of the files that fails, the status, what `o` and `p` hold, and
/// what is told.
type Batch<'a> = (&'a [u8], u64, u8, &'a [u8], &'a [u8], &'a [u8]);

static BATCHES: [Batch<'static>; 23] = [
    (b"o a.ll\np b.ll\n", NONE, 0, FIVE, SEVEN, NOTHING),
    (b"o a.ll\np b.ll", NONE, 0, FIVE, SEVEN, NOTHING),
    // one file twice
    (b"o a.ll\no b.ll\n", NONE, 0, SEVEN, BEFORE, NOTHING),
    (b"o a.ll e.ll\n", NONE, 0, FIVE, BEFORE, NOTHING),
    (b"", NONE, 0, BEFORE, BEFORE, NOTHING),
    (
        b"o a.ll\no a.ll\no a.ll\no a.ll\no a.ll\no a.ll\no a.ll\no a.ll\no a.ll\no a.ll\no a.ll\no a.ll\no a.ll\no a.ll\no a.ll\np b.ll\n",
        NONE,
        0,
        FIVE,
        SEVEN,
        NOTHING,
    ),
    // bad lines
    (
        b"\n",
        NONE,
        3,
        BEFORE,
        BEFORE,
        b"thinlto: l:1: bad list line\n",
    ),
    (
        b"o a.ll\n\np\n",
        NONE,
        3,
        BEFORE,
        BEFORE,
        b"thinlto: l:2: bad list line\n",
    ),
    (
        b"o a.ll\np b.ll\n\n",
        NONE,
        3,
        BEFORE,
        BEFORE,
        b"thinlto: l:3: bad list line\n",
    ),
    (
        b"o",
        NONE,
        3,
        BEFORE,
        BEFORE,
        b"thinlto: l:1: bad list line\n",
    ),
    (
        b"o  a.ll\n",
        NONE,
        3,
        BEFORE,
        BEFORE,
        b"thinlto: l:1: bad list line\n",
    ),
    (
        b" a.ll\n",
        NONE,
        3,
        BEFORE,
        BEFORE,
        b"thinlto: l:1: bad list line\n",
    ),
    (
        b"o a.ll\np b.ll \n",
        NONE,
        3,
        BEFORE,
        BEFORE,
        b"thinlto: l:2: bad list line\n",
    ),
    (
        b"o a.ll\np \xff\n",
        NONE,
        3,
        BEFORE,
        BEFORE,
        b"thinlto: l:2: bad list line\n",
    ),
    (
        b"o a.ll\no a.ll\no a.ll\no a.ll\no a.ll\no a.ll\no a.ll\no a.ll\no a.ll\no a.ll\no a.ll\no a.ll\no a.ll\no a.ll\no a.ll\no a.ll\no a.ll\np\n",
        NONE,
        3,
        BEFORE,
        BEFORE,
        b"thinlto: l:17: bad list line\n",
    ),
    // files that can't be read or written: the list, two modules, two puts
    (
        b"o a.ll\np b.ll\n",
        0,
        2,
        BEFORE,
        BEFORE,
        b"thinlto: cannot read l\n",
    ),
    (
        b"o a.ll\np b.ll\n",
        2,
        2,
        BEFORE,
        BEFORE,
        b"thinlto: cannot read b.ll\n",
    ),
    (
        b"o c.ll\np d.ll\n",
        NONE,
        2,
        BEFORE,
        BEFORE,
        b"thinlto: cannot read d.ll\n",
    ),
    (
        b"o a.ll\np b.ll\n",
        3,
        5,
        BEFORE,
        BEFORE,
        b"thinlto: cannot write o\n",
    ),
    (
        b"o a.ll\np b.ll\n",
        4,
        5,
        FIVE,
        BEFORE,
        b"thinlto: cannot write p\n",
    ),
    // the first link that isn't made, by its first reason
    (
        b"o a.ll\np b.ll c.ll\n",
        NONE,
        3,
        BEFORE,
        BEFORE,
        b"thinlto: c.ll:1: syntax\n",
    ),
    (
        b"o a.ll\np a.ll b.ll\no c.ll\n",
        NONE,
        4,
        BEFORE,
        BEFORE,
        b"thinlto: duplicate symbol @main in a.ll and b.ll\n",
    ),
    (
        b"o e.ll\np c.ll\n",
        NONE,
        4,
        BEFORE,
        BEFORE,
        b"thinlto: no definition of exported @main\n",
    ),
];

/// The list file `l` and what its lines name: modules that link, one that isn't read, an empty one, and two files that are put.
fn batch_files(alloc: Global, list: &[u8], failing: u64) -> Result<MemoryFiles, AllocError> {
    let mut files = files_of(alloc, SUM, SEVEN, failing)?;
    files.with("c.ll", b"define")?;
    files.with("e.ll", NOTHING)?;
    files.with("p", BEFORE)?;
    files.with("l", list)?;
    Ok(files)
}

#[test]
fn the_links_of_a_list_are_put(rt: HostRuntime) -> Result<(), AllocError> {
    let alloc = rt.alloc();
    for &jobs in &JOBS {
        let words = ["batch", "--jobs", jobs, "l"];
        for &(list, failing, status, first, second, noted) in &BATCHES {
            let mut files = batch_files(alloc, list, failing)?;
            let end = (status, first, NOTHING, noted);
            let ends = ends_over(&rt, alloc, &words, &mut files, NONE, EMPTY, end)?;
            assert!(rt; ends && holds(&files, "p", second), "{jobs}, {noted:?}");
        }
    }
    Ok(())
}

const USAGE: &[u8] = b"thinlto: usage\n";

/// The words of a run over a sum, its status, what `o` then holds, and what is told.
static WORDS: [(&[&str], u8, &[u8], &[u8]); 13] = [
    (&["link", "-o", "o", "a.ll", "b.ll"], 0, FIVE, NOTHING),
    (&["link", "-o", "o"], 1, BEFORE, USAGE),
    (&["link", "-o", "-x", "a.ll"], 1, BEFORE, USAGE),
    (&["link", "-o", "o", ""], 1, BEFORE, USAGE),
    (
        &["link", "--jobs", "65", "-o", "o", "a.ll"],
        1,
        BEFORE,
        USAGE,
    ),
    (
        &["link", "--cache", "d", "-o", "o", "a.ll"],
        0,
        FIVE,
        NOTHING,
    ),
    (
        &["link", "--inline-limit=20001", "-o", "o", "a.ll"],
        1,
        BEFORE,
        USAGE,
    ),
    (
        &["index", "--import-limit=1", "--import-limit=2", "a.ll"],
        1,
        BEFORE,
        USAGE,
    ),
    (
        &["batch", "a.ll"],
        3,
        BEFORE,
        b"thinlto: a.ll:2: bad list line\n",
    ),
    (
        &["batch", "--cache", "d", "a.ll"],
        3,
        BEFORE,
        b"thinlto: a.ll:2: bad list line\n",
    ),
    (&[""], 1, BEFORE, USAGE),
    (
        &["link", "--export", "main,g", "-o", "o", "a.ll"],
        4,
        BEFORE,
        b"thinlto: no definition of exported @g\n",
    ),
    (
        &["link", "a.ll", "--jobs=1", "--import-limit", "7", "-oo"],
        0,
        FIVE,
        NOTHING,
    ),
];

#[test]
fn words_are_a_link_or_usage(rt: HostRuntime) -> Result<(), AllocError> {
    let alloc = rt.alloc();
    for &(words, status, held, noted) in &WORDS {
        let outside = (SUM, NOTHING, NONE, NONE);
        let end = (status, held, NOTHING, noted);
        assert!(rt;
            ends_so(&rt, alloc, words, outside, EMPTY, end)?,
            "{words:?}"
        );
    }
    Ok(())
}

const CALLED: &[u8] =
    b"define i32 @main() {\n  %r = call i32 @h()\n  ret i32 %r\n}\ndefine internal i32 @h() {\n  ret i32 7\n}\n";

/// What is made of a call of a body of one item, by the greatest count that is inlined.
static INLINED: [(&str, &[u8]); 2] = [
    (
        "--inline-limit=0",
        b"define internal i32 @h.llvm.12302329681860578219() {\n  ret i32 7\n}\ndefine i32 @main() {\n  %1 = call i32 @h.llvm.12302329681860578219()\n  ret i32 %1\n}\n",
    ),
    (
        "--inline-limit=1",
        b"define i32 @main() {\n  ret i32 7\n}\n",
    ),
];

#[test]
fn bodies_up_to_the_limit_are_inlined(rt: HostRuntime) -> Result<(), AllocError> {
    let alloc = rt.alloc();
    for &(limit, linked) in &INLINED {
        let outside = (CALLED, NOTHING, NONE, NONE);
        let end = (0_u8, linked, NOTHING, NOTHING);
        let words = ["link", limit, "-o", "o", "a.ll"];
        assert!(rt;
            ends_so(&rt, alloc, &words, outside, EMPTY, end)?,
            "{limit}"
        );
    }
    Ok(())
}

/// A module that calls a function of another one, and this one.
const CALLER: &[u8] =
    b"define i32 @main() {\n  %r = call i32 @f(i32 4)\n  ret i32 %r\n}\ndeclare i32 @f(i32)\n";

const CALLEE: &[u8] =
    b"define i32 @f(i32 %x) {\n  %y = call i32 @h(i32 %x)\n  %z = add i32 %y, 1\n  ret i32 %z\n}\ndefine internal i32 @h(i32 %x) noinline {\n  %y = mul i32 %x, 3\n  ret i32 %y\n}\n";

const INDEX: &[&str] = &["index", "a.ll", "b.ll"];

/// The name of a row, the words, the two modules and which call fails, and the status, what is printed and what is told.
type Indexed = (
    &'static str,
    &'static [&'static str],
    Outside<'static>,
    (u8, &'static [u8], &'static [u8]),
);

static INDICES: [Indexed; 15] = [
    (
        "a function is imported",
        INDEX,
        (CALLER, CALLEE, NONE, NONE),
        (
            0,
            b"module 0 a.ll\n  define @main 2 live\n  import @f from 1 3\nmodule 1 b.ll\n  define @f 3 live\n  define @h 2 live\n",
            b"",
        ),
    ),
    (
        "none is imported of more than two instructions",
        &["index", "a.ll", "--import-limit=2", "b.ll"],
        (CALLER, CALLEE, NONE, NONE),
        (
            0,
            b"module 0 a.ll\n  define @main 2 live\nmodule 1 b.ll\n  define @f 3 live\n  define @h 2 live\n",
            b"",
        ),
    ),
    (
        "another function than main is exported",
        &["index", "--export=f", "a.ll", "b.ll"],
        (CALLER, CALLEE, NONE, NONE),
        (
            0,
            b"module 0 a.ll\n  define @main 2 dead\nmodule 1 b.ll\n  define @f 3 live\n  define @h 2 live\n",
            b"",
        ),
    ),
    (
        "the second file can't be fetched",
        INDEX,
        (b"define", CALLEE, 1, NONE),
        (2, b"", b"thinlto: cannot read b.ll\n"),
    ),
    (
        "both are no modules: the first is told",
        INDEX,
        (b"\ndefine", b"define", NONE, NONE),
        (3, b"", b"thinlto: a.ll:2: syntax\n"),
    ),
    (
        "the second is no module",
        INDEX,
        (CALLER, b"\x01", NONE, NONE),
        (3, b"", b"thinlto: b.ll:1: bad token\n"),
    ),
    (
        "both define main",
        INDEX,
        (SUM, SUM, NONE, NONE),
        (
            4,
            b"",
            b"thinlto: duplicate symbol @main in a.ll and b.ll\n",
        ),
    ),
    (
        "nobody defines what is called",
        INDEX,
        (CALLER, b"", NONE, NONE),
        (4, b"", b"thinlto: undefined symbol @f in a.ll\n"),
    ),
    (
        "the triples differ",
        INDEX,
        (
            b"target triple = \"x\"\n",
            b"target triple = \"y\"\n",
            NONE,
            NONE,
        ),
        (4, b"", b"thinlto: target triple differs in a.ll and b.ll\n"),
    ),
    (
        "a function is no variable",
        INDEX,
        (
            b"@g = external global i32\n",
            b"define void @g() {\n  ret void\n}\n",
            NONE,
            NONE,
        ),
        (
            4,
            b"",
            b"thinlto: @g is a function in b.ll and a variable in a.ll\n",
        ),
    ),
    (
        "what main refers to is live, and what nobody exports is dead",
        INDEX,
        (
            b"@first = global ptr @gone\n@gone = external global i8\n",
            b"@main = global { ptr, ptr } { ptr @own, ptr @putchar }\n@own = internal global ptr @getchar\ndeclare i32 @putchar(i32)\ndeclare i32 @getchar()\n",
            NONE,
            NONE,
        ),
        (
            0,
            b"module 0 a.ll\n  define @first - dead\nmodule 1 b.ll\n  define @main - live\n  define @own - live\n",
            b"",
        ),
    ),
    (
        "of names that nobody defines the least is told, before what is exported and not defined",
        &["index", "--export=a,main", "a.ll", "b.ll"],
        (
            b"@first = global ptr @gone\n@gone = external global i8\n",
            b"@main = global { ptr, ptr, ptr } { ptr @z, ptr @b, ptr @putchar }\n@z = external global i8\n@b = external global i8\ndeclare i32 @putchar(i32)\n",
            NONE,
            NONE,
        ),
        (4, b"", b"thinlto: undefined symbol @b in b.ll\n"),
    ),
    (
        "a local is no definition of an exported name",
        &["index", "--export=z,main,own", "b.ll"],
        (
            NOTHING,
            b"@main = global ptr @own\n@own = internal global ptr null\n",
            NONE,
            NONE,
        ),
        (4, b"", b"thinlto: no definition of exported @own\n"),
    ),
    (
        "locals of one name are two symbols, and calls are counted with the other instructions",
        INDEX,
        (
            b"define i32 @main() noinline {\n  %1 = call i32 @h()\n  %2 = call i32 @f()\n  %3 = call i32 @h()\n  ret i32 %2\n}\ndefine internal i32 @h() {\n  ret i32 1\n}\ndeclare i32 @f()\n",
            b"define private i32 @h() {\n  ret i32 2\n}\ndefine i32 @f() {\n  %1 = call i32 @h()\n  ret i32 %1\n}\n",
            NONE,
            NONE,
        ),
        (
            0,
            b"module 0 a.ll\n  define @h 1 live\n  define @main 4 live\n  import @f from 1 2\n  import @h from 1 1\nmodule 1 b.ll\n  define @f 2 live\n  define @h 1 live\n",
            b"",
        ),
    ),
    (
        "a push fails behind the first bytes",
        INDEX,
        (CALLER, CALLEE, NONE, 6),
        (5, b"module", b"thinlto: cannot write output\n"),
    ),
];

#[test]
fn an_index_is_printed_or_told_why_not(rt: HostRuntime) -> Result<(), AllocError> {
    let alloc = rt.alloc();
    for &(name, words, outside, end) in &INDICES {
        let (status, printed, noted) = end;
        let end = (status, BEFORE, printed, noted);
        assert!(rt; ends_so(&rt, alloc, words, outside, EMPTY, end)?, "{name}");
    }
    Ok(())
}

const RUN: &[&str] = &["run", "a.ll"];

const THOUSAND_STEPS: &[&str] = &["run", "--steps=1000", "a.ll"];

/// The name of a row, a module, and how its run from `main` ends: the status, and the line that is told.
static ENDINGS: [(&str, &[u8], u8, &[u8]); 47] = [
    ("a number", SUM, 0, b"returned 5\n"),
    (
        "no value",
        b"define void @main() {\n  ret void\n}\n",
        0,
        b"returned\n",
    ),
    (
        "a truth value",
        b"define i1 @main() {\n  ret i1 true\n}\n",
        0,
        b"returned true\n",
    ),
    (
        "the least number of 64 bits",
        b"define i64 @main() {\n  ret i64 -9223372036854775808\n}\n",
        0,
        b"returned -9223372036854775808\n",
    ),
    (
        "a pointer",
        b"define ptr @main() {\n  ret ptr @main\n}\n",
        0,
        b"returned pointer\n",
    ),
    (
        "poison",
        b"define i32 @main() {\n  ret i32 poison\n}\n",
        0,
        b"returned poison\n",
    ),
    (
        "a division that overflows",
        b"define i32 @main() {\n  %q = sdiv i32 -2147483648, -1\n  ret i32 %q\n}\n",
        7,
        b"thinlto: undefined behaviour in @main of a.ll at instruction 1: division overflow\n",
    ),
    (
        "past the end comes before misaligned",
        b"define i32 @main() {\n  %s = alloca i32, align 4\n  %p = getelementptr i8, ptr %s, i64 1\n  %v = load i32, ptr %p, align 4\n  ret i32 %v\n}\n",
        7,
        b"thinlto: undefined behaviour in @main of a.ll at instruction 3: out of bounds\n",
    ),
    (
        "misaligned",
        b"define i32 @main() {\n  %s = alloca i64, align 8\n  %p = getelementptr i8, ptr %s, i64 1\n  store i32 1, ptr %p, align 4\n  ret i32 0\n}\n",
        7,
        b"thinlto: undefined behaviour in @main of a.ll at instruction 3: misaligned\n",
    ),
    (
        "in a function that was called, behind the first",
        b"define i32 @main() {\n  call void @f()\n  ret i32 0\n}\ndefine internal void @f() {\n  br label %l\nl:\n  unreachable\n}\n",
        7,
        b"thinlto: undefined behaviour in @f of a.ll at instruction 2: unreachable reached\n",
    ),
    (
        "an uninitialised byte",
        b"define i32 @main() {\n  %s = alloca i32, align 4\n  %v = load i32, ptr %s, align 4\n  ret i32 %v\n}\n",
        8,
        b"thinlto: uninitialised byte read in @main of a.ll at instruction 2\n",
    ),
    (
        "a load of what a slot holds",
        b"define i32 @main() {\n  %s = alloca i32, align 4\n  store i32 7, ptr %s, align 4\n  %v = load i32, ptr %s, align 4\n  ret i32 %v\n}\n",
        0,
        b"returned 7\n",
    ),
    (
        "a load wider than its slot",
        b"define i64 @main() {\n  %s = alloca i32, align 4\n  store i32 7, ptr %s, align 4\n  %v = load i64, ptr %s, align 4\n  ret i64 %v\n}\n",
        7,
        b"thinlto: undefined behaviour in @main of a.ll at instruction 3: out of bounds\n",
    ),
    (
        "a load at a greater alignment than the slot's",
        b"define i32 @main() {\n  %s = alloca i32, align 4\n  store i32 7, ptr %s, align 4\n  %v = load i32, ptr %s, align 8\n  ret i32 %v\n}\n",
        7,
        b"thinlto: undefined behaviour in @main of a.ll at instruction 3: misaligned\n",
    ),
    (
        "a slot behind its function's return",
        b"define ptr @f() {\n  %s = alloca i32, align 4\n  ret ptr %s\n}\ndefine i32 @main() {\n  %p = call ptr @f()\n  %v = load i32, ptr %p, align 4\n  ret i32 %v\n}\n",
        7,
        b"thinlto: undefined behaviour in @main of a.ll at instruction 2: bad pointer\n",
    ),
    (
        "numbers are stored from their low byte on",
        b"define i16 @main() {\n  %s = alloca i64, align 8\n  %p = getelementptr i8, ptr %s, i64 4\n  store i32 16909060, ptr %p, align 4\n  %q = getelementptr i8, ptr %s, i64 6\n  %v = load i16, ptr %q, align 2\n  ret i16 %v\n}\n",
        0,
        b"returned 258\n",
    ),
    (
        "a load whose half was never written",
        b"define i64 @main() {\n  %s = alloca i64, align 8\n  store i32 1, ptr %s, align 4\n  %v = load i64, ptr %s, align 8\n  ret i64 %v\n}\n",
        8,
        b"thinlto: uninitialised byte read in @main of a.ll at instruction 3\n",
    ),
    (
        "a part of a pointer",
        b"define i8 @main() {\n  %s = alloca ptr, align 8\n  store ptr %s, ptr %s, align 8\n  %v = load i8, ptr %s, align 1\n  ret i8 %v\n}\n",
        0,
        b"returned poison\n",
    ),
    (
        "a pointer that was stored",
        b"define i1 @main() {\n  %s = alloca ptr, align 8\n  store ptr %s, ptr %s, align 8\n  %p = load ptr, ptr %s, align 8\n  %e = icmp eq ptr %p, %s\n  ret i1 %e\n}\n",
        0,
        b"returned true\n",
    ),
    (
        "a store to a constant",
        b"@k = constant i8 1, align 1\ndefine i32 @main() {\n  store i8 2, ptr @k, align 1\n  ret i32 0\n}\n",
        7,
        b"thinlto: undefined behaviour in @main of a.ll at instruction 1: store to constant\n",
    ),
    (
        "members stand behind padding, which is zero",
        b"@a = global { i8, i32, [2 x i16] } { i8 1, i32 258, [2 x i16] [i16 3, i16 -1] }, align 4\ndefine i32 @main() {\n  %p = getelementptr i8, ptr @a, i64 4\n  %x = load i32, ptr %p, align 4\n  %q = getelementptr i8, ptr @a, i64 8\n  %y = load i32, ptr %q, align 4\n  %f = load i32, ptr @a, align 4\n  %s = add i32 %x, %y\n  %t = add i32 %s, %f\n  ret i32 %t\n}\n",
        0,
        b"returned -65274\n",
    ),
    (
        "packed members have no padding",
        b"@n = global <{ i8, i32 }> <{ i8 -1, i32 5 }>, align 1\ndefine i32 @main() {\n  %p = getelementptr i8, ptr @n, i64 1\n  %v = load i32, ptr %p, align 1\n  ret i32 %v\n}\n",
        0,
        b"returned 5\n",
    ),
    (
        "a pointer in an initialiser",
        b"@b = constant [3 x i8] c\"ab\\00\", align 1\n@p = global { ptr, ptr } { ptr getelementptr (i8, ptr @b, i64 1), ptr null }, align 8\ndefine i8 @main() {\n  %p = load ptr, ptr @p, align 8\n  %v = load i8, ptr %p, align 1\n  ret i8 %v\n}\n",
        0,
        b"returned 98\n",
    ),
    (
        "null in an initialiser",
        b"@p = global { ptr, ptr } { ptr @p, ptr null }, align 8\ndefine i8 @main() {\n  %q = getelementptr i8, ptr @p, i64 8\n  %p = load ptr, ptr %q, align 8\n  %v = load i8, ptr %p, align 1\n  ret i8 %v\n}\n",
        7,
        b"thinlto: undefined behaviour in @main of a.ll at instruction 3: bad pointer\n",
    ),
    (
        "the last of many zeros",
        b"@z = global [16777216 x i8] zeroinitializer, align 16\ndefine i8 @main() {\n  %p = getelementptr i8, ptr @z, i64 16777215\n  %v = load i8, ptr %p, align 1\n  ret i8 %v\n}\n",
        0,
        b"returned 0\n",
    ),
    (
        "an index into a structure",
        b"define i32 @main() {\n  %s = alloca { i8, [4 x i32] }, align 4\n  %p = getelementptr inbounds { i8, [4 x i32] }, ptr %s, i64 0, i32 1, i64 2\n  store i32 9, ptr %p, align 4\n  %q = getelementptr i8, ptr %s, i64 12\n  %v = load i32, ptr %q, align 4\n  ret i32 %v\n}\n",
        0,
        b"returned 9\n",
    ),
    (
        "an address past the end, in bounds alone",
        b"define i32 @main() {\n  %s = alloca i32, align 4\n  %p = getelementptr inbounds i8, ptr %s, i64 5\n  store i32 9, ptr %p, align 4\n  ret i32 0\n}\n",
        7,
        b"thinlto: undefined behaviour in @main of a.ll at instruction 3: bad pointer\n",
    ),
    (
        "a slot in a loop, stored in its sixth turn",
        b"define i32 @main() {\nentry:\n  %s = alloca i32, align 4\n  store i32 0, ptr %s, align 4\n  br label %loop\nloop:\n  %i = phi i32 [ 0, %entry ], [ %j, %next ]\n  %c = icmp eq i32 %i, 5\n  br i1 %c, label %add, label %next\nadd:\n  store i32 %i, ptr %s, align 4\n  br label %next\nnext:\n  %j = add i32 %i, 1\n  %d = icmp eq i32 %j, 10\n  br i1 %d, label %done, label %loop\ndone:\n  %v = load i32, ptr %s, align 4\n  ret i32 %v\n}\n",
        0,
        b"returned 5\n",
    ),
    (
        "phis that take their values at once",
        b"define i32 @main() {\ne:\n  br label %l\nl:\n  %v = phi i32 [ 0, %e ], [ %n, %l ]\n  %y = phi i32 [ 9, %e ], [ %x, %l ]\n  %x = add i32 %v, 0\n  %n = add i32 %v, 1\n  %c = icmp eq i32 %n, 3\n  br i1 %c, label %o, label %l\no:\n  ret i32 %y\n}\n",
        0,
        b"returned 1\n",
    ),
    (
        "phis that take each other's value",
        b"define i32 @main() {\ne:\n  br label %l\nl:\n  %a = phi i32 [ 3, %e ], [ %b, %l ]\n  %b = phi i32 [ 4, %e ], [ %a, %l ]\n  %n = phi i32 [ 0, %e ], [ %m, %l ]\n  %m = add i32 %n, 1\n  %c = icmp eq i32 %m, 4\n  br i1 %c, label %o, label %l\no:\n  ret i32 %a\n}\n",
        0,
        b"returned 4\n",
    ),
    (
        "the answer of a call, given to another",
        b"define i32 @f(i32 %x) {\n  %y = add i32 %x, 1\n  ret i32 %y\n}\ndefine i32 @main() {\n  %a = call i32 @f(i32 20)\n  %b = call i32 @f(i32 %a)\n  ret i32 %b\n}\n",
        0,
        b"returned 22\n",
    ),
    (
        "a call of another type",
        b"define void @f() {\n  ret void\n}\ndefine i32 @main() {\n  %a = call i32 @f()\n  ret i32 %a\n}\n",
        7,
        b"thinlto: undefined behaviour in @main of a.ll at instruction 1: call of another type\n",
    ),
    (
        "a call of no function",
        b"define i32 @main() {\n  %a = call i32 null()\n  ret i32 %a\n}\n",
        7,
        b"thinlto: undefined behaviour in @main of a.ll at instruction 1: call of no function\n",
    ),
    (
        "a branch on poison",
        b"define i32 @main() {\n  br i1 poison, label %1, label %1\n1:\n  ret i32 0\n}\n",
        7,
        b"thinlto: undefined behaviour in @main of a.ll at instruction 1: branch on poison\n",
    ),
    (
        "a sum beyond its width",
        b"define i8 @main() {\n  %s = add i8 200, 100\n  ret i8 %s\n}\n",
        0,
        b"returned 44\n",
    ),
    (
        "a sum with a flag beyond its width",
        b"define i8 @main() {\n  %s = add nuw i8 200, 100\n  ret i8 %s\n}\n",
        0,
        b"returned poison\n",
    ),
    (
        "a shift by the width",
        b"define i8 @main() {\n  %s = shl i8 1, 8\n  ret i8 %s\n}\n",
        0,
        b"returned poison\n",
    ),
    (
        "a division by zero",
        b"define i8 @main() {\n  %s = udiv i8 7, 0\n  ret i8 %s\n}\n",
        7,
        b"thinlto: undefined behaviour in @main of a.ll at instruction 1: division by zero\n",
    ),
    (
        "a division by poison",
        b"define i8 @main() {\n  %s = udiv i8 7, poison\n  ret i8 %s\n}\n",
        7,
        b"thinlto: undefined behaviour in @main of a.ll at instruction 1: poison divisor\n",
    ),
    (
        "numbers compared with their sign",
        b"define i1 @main() {\n  %c = icmp slt i8 255, 7\n  ret i1 %c\n}\n",
        0,
        b"returned true\n",
    ),
    (
        "a number made wider with its sign",
        b"define i16 @main() {\n  %c = sext i8 255 to i16\n  ret i16 %c\n}\n",
        0,
        b"returned -1\n",
    ),
    (
        "a select by poison",
        b"define i8 @main() {\n  %c = select i1 poison, i8 7, i8 7\n  ret i8 %c\n}\n",
        0,
        b"returned poison\n",
    ),
    (
        "poison that is frozen",
        b"define i8 @main() {\n  %c = freeze i8 poison\n  ret i8 %c\n}\n",
        0,
        b"returned 0\n",
    ),
    (
        "an endless loop",
        b"define i32 @main() {\n  br label %l\nl:\n  br label %l\n}\n",
        9,
        b"thinlto: out of steps after 1000\n",
    ),
    (
        "a root that is a variable",
        b"@main = global i32 5\n",
        4,
        b"thinlto: wrong arguments for @main\n",
    ),
    (
        "a root that takes a pointer",
        b"define i32 @main(ptr %p) {\n  ret i32 0\n}\n",
        4,
        b"thinlto: wrong arguments for @main\n",
    ),
    (
        "a root that nobody defines, as in a link",
        b"define void @f() {\n  ret void\n}\n",
        4,
        b"thinlto: no definition of exported @main\n",
    ),
];

#[test]
fn a_run_tells_how_it_ends(rt: HostRuntime) -> Result<(), AllocError> {
    let alloc = rt.alloc();
    for &(name, text, status, line) in &ENDINGS {
        let outside = (text, NOTHING, NONE, NONE);
        let end = (status, BEFORE, NOTHING, line);
        assert!(rt;
            ends_so(&rt, alloc, THOUSAND_STEPS, outside, EMPTY, end)?,
            "{name}"
        );
    }
    Ok(())
}

/// What the input has is written, and its end is -1.
const ECHO: &[u8] =
    b"declare i32 @getchar()\ndeclare i32 @putchar(i32)\ndefine i32 @main() {\ne:\n  br label %l\nl:\n  %c = call i32 @getchar()\n  %t = icmp slt i32 %c, 0\n  br i1 %t, label %o, label %w\nw:\n  %d = call i32 @putchar(i32 %c)\n  br label %l\no:\n  ret i32 %c\n}\n";

/// A copy of another module's definition, which is passed over.
const COPY: &[u8] =
    b"define available_externally i32 @putchar(i32 %c) {\n  ret i32 7\n}\ndefine i32 @main() {\n  %r = call i32 @putchar(i32 65)\n  ret i32 %r\n}\n";

/// A number beyond a byte, of which the low byte is written and given.
const WIDER: &[u8] =
    b"declare i32 @putchar(i32)\ndefine i32 @main() {\n  %r = call i32 @putchar(i32 321)\n  ret i32 %r\n}\n";

const GIVES_FIRST: &[u8] = b"define i8 @f(i8 %x, i1 %y) {\n  ret i8 %x\n}\n";

/// The words of a run, its module, the input, which push fails, and the status, what is printed and what is told.
type Ran = (
    &'static [&'static str],
    &'static [u8],
    Input<'static>,
    u64,
    (u8, &'static [u8], &'static [u8]),
);

static RUNS: [Ran; 11] = [
    (RUN, ECHO, (b"ab", NONE), NONE, (0, b"ab", b"returned -1\n")),
    // the second read fails, and then the second push
    (
        RUN,
        ECHO,
        (b"ab", 1),
        NONE,
        (2, b"a", b"thinlto: cannot read input\n"),
    ),
    (
        RUN,
        ECHO,
        (b"ab", NONE),
        1,
        (5, b"a", b"thinlto: cannot write output\n"),
    ),
    (RUN, COPY, EMPTY, NONE, (0, b"A", b"returned 65\n")),
    (RUN, WIDER, EMPTY, NONE, (0, b"A", b"returned 65\n")),
    // arguments are literals of their widths
    (
        &["run", "--root=f", "--args=-128,1", "a.ll"],
        GIVES_FIRST,
        EMPTY,
        NONE,
        (0, b"", b"returned -128\n"),
    ),
    (
        &["run", "--args=255,0", "--root", "f", "--steps=1", "a.ll"],
        GIVES_FIRST,
        EMPTY,
        NONE,
        (0, b"", b"returned -1\n"),
    ),
    (
        &["run", "--root=f", "--args=-129,1", "a.ll"],
        GIVES_FIRST,
        EMPTY,
        NONE,
        (4, b"", b"thinlto: wrong arguments for @f\n"),
    ),
    (
        &["run", "--root=f", "--args=1,2", "a.ll"],
        GIVES_FIRST,
        EMPTY,
        NONE,
        (4, b"", b"thinlto: wrong arguments for @f\n"),
    ),
    (
        &["run", "--root=f", "--args=1,1,1", "a.ll"],
        GIVES_FIRST,
        EMPTY,
        NONE,
        (4, b"", b"thinlto: wrong arguments for @f\n"),
    ),
    (
        &["run", "--root=g", "a.ll"],
        GIVES_FIRST,
        EMPTY,
        NONE,
        (4, b"", b"thinlto: no definition of exported @g\n"),
    ),
];

#[test]
fn a_run_takes_words_and_streams(rt: HostRuntime) -> Result<(), AllocError> {
    let alloc = rt.alloc();
    for &(words, text, input, stuck, end) in &RUNS {
        let outside = (text, NOTHING, NONE, stuck);
        let (status, printed, noted) = end;
        let end = (status, BEFORE, printed, noted);
        assert!(rt;
            ends_so(&rt, alloc, words, outside, input, end)?,
            "{words:?}"
        );
    }
    Ok(())
}

/// Calls `f`, and returns what it gives.
const CALLS_F: &[u8] =
    b"declare i32 @f()\ndefine i32 @main() {\n  %r = call i32 @f()\n  ret i32 %r\n}\n";

/// Writes `A`, and returns what `putchar` and `f` give together.
const WRITES: &[u8] =
    b"declare i32 @putchar(i32)\ndeclare i32 @f()\ndefine i32 @main() {\n  %p = call i32 @putchar(i32 65)\n  %f = call i32 @f()\n  %r = add i32 %p, %f\n  ret i32 %r\n}\n";

/// Two definitions of `f` of which the first prevails, unless there is another.
const ONE: &[u8] = b"define linkonce_odr i32 @f() {\n  ret i32 1\n}\n";

const TWO: &[u8] = b"define weak_odr i32 @f() {\n  ret i32 2\n}\n";

const FIRST_THREE: &[&str] = &["run", "a.ll", "b.ll", "c.ll"];

const FIRST_TWO: &[&str] = &["run", "a.ll", "b.ll"];

/// The name of a row, the words, what `a.ll`, `b.ll` and `c.ll` hold, and the status, what is printed and what is told.
type Together = (
    &'static str,
    &'static [&'static str],
    [&'static [u8]; 3],
    (u8, &'static [u8], &'static [u8]),
);

static TOGETHER: [Together; 18] = [
    (
        "a function of another module, and its local",
        FIRST_TWO,
        [CALLER, CALLEE, NOTHING],
        (0, b"", b"returned 13\n"),
    ),
    (
        "the root is of the second module",
        &["run", "--root=f", "--args=2", "a.ll", "b.ll"],
        [CALLER, CALLEE, NOTHING],
        (0, b"", b"returned 7\n"),
    ),
    (
        "locals of one name are apart",
        FIRST_TWO,
        [
            b"define internal i32 @h() {\n  ret i32 1\n}\ndeclare i32 @f()\ndefine i32 @main() {\n  %x = call i32 @h()\n  %y = call i32 @f()\n  %z = add i32 %x, %y\n  ret i32 %z\n}\n",
            b"define i32 @f() {\n  %x = call i32 @h()\n  ret i32 %x\n}\ndefine internal i32 @h() {\n  ret i32 20\n}\n",
            NOTHING,
        ],
        (0, b"", b"returned 21\n"),
    ),
    (
        "of several the first prevails",
        FIRST_THREE,
        [ONE, TWO, CALLS_F],
        (0, b"", b"returned 1\n"),
    ),
    (
        "in the order of the command",
        &["run", "b.ll", "c.ll", "a.ll"],
        [ONE, TWO, CALLS_F],
        (0, b"", b"returned 2\n"),
    ),
    (
        "an external definition prevails",
        FIRST_THREE,
        [ONE, b"define i32 @f() {\n  ret i32 3\n}\n", CALLS_F],
        (0, b"", b"returned 3\n"),
    ),
    (
        "a copy is a declaration",
        FIRST_TWO,
        [
            b"define available_externally i32 @f() {\n  ret i32 9\n}\ndefine i32 @main() {\n  %r = call i32 @f()\n  ret i32 %r\n}\n",
            ONE,
            NOTHING,
        ],
        (0, b"", b"returned 1\n"),
    ),
    (
        "a copy alone defines nothing",
        &["run", "a.ll"],
        [
            b"define available_externally i32 @f() {\n  ret i32 9\n}\ndefine i32 @main() {\n  %r = call i32 @f()\n  ret i32 %r\n}\n",
            NOTHING,
            NOTHING,
        ],
        (4, b"", b"thinlto: undefined symbol @f in a.ll\n"),
    ),
    (
        "a module defines a function of the system",
        FIRST_THREE,
        [
            WRITES,
            b"define i32 @putchar(i32 %c) {\n  ret i32 7\n}\n",
            TWO,
        ],
        (0, b"", b"returned 9\n"),
    ),
    (
        "a local of that name is another",
        FIRST_TWO,
        [
            WRITES,
            b"define i32 @f() {\n  %r = call i32 @putchar(i32 66)\n  ret i32 %r\n}\ndefine internal i32 @putchar(i32 %c) {\n  ret i32 1\n}\n",
            NOTHING,
        ],
        (0, b"A", b"returned 66\n"),
    ),
    (
        "a variable of another module that leads to its local",
        FIRST_TWO,
        [
            b"@p = external global ptr\ndefine i32 @main() {\n  %p = load ptr, ptr @p, align 8\n  %f = load ptr, ptr %p, align 8\n  %r = call i32 %f()\n  ret i32 %r\n}\ndefine internal i32 @h() {\n  ret i32 1\n}\n",
            b"@p = global ptr @q\n@q = internal constant ptr @h\ndefine internal i32 @h() {\n  ret i32 8\n}\n",
            NOTHING,
        ],
        (0, b"", b"returned 8\n"),
    ),
    (
        "nobody defines what is called",
        FIRST_THREE,
        [NOTHING, CALLS_F, NOTHING],
        (4, b"", b"thinlto: undefined symbol @f in b.ll\n"),
    ),
    (
        "two define one name",
        FIRST_TWO,
        [SUM, SUM, NOTHING],
        (
            4,
            b"",
            b"thinlto: duplicate symbol @main in a.ll and b.ll\n",
        ),
    ),
    (
        "nobody defines the root",
        FIRST_TWO,
        [ONE, TWO, NOTHING],
        (4, b"", b"thinlto: no definition of exported @main\n"),
    ),
    (
        "the root is local",
        &["run", "--root=h", "--args=2", "a.ll", "b.ll"],
        [CALLER, CALLEE, NOTHING],
        (4, b"", b"thinlto: no definition of exported @h\n"),
    ),
    (
        "the third is no module",
        FIRST_THREE,
        [CALLS_F, SUM, b"\x01"],
        (3, b"", b"thinlto: c.ll:1: bad token\n"),
    ),
    (
        "undefined behaviour in a local of the second",
        FIRST_TWO,
        [
            CALLS_F,
            b"define i32 @f() {\n  call void @h()\n  ret i32 0\n}\ndefine internal void @h() {\n  unreachable\n}\n",
            NOTHING,
        ],
        (
            7,
            b"",
            b"thinlto: undefined behaviour in @h of b.ll at instruction 1: unreachable reached\n",
        ),
    ),
    (
        "an uninitialised byte in what prevails of the third",
        FIRST_THREE,
        [
            CALLS_F,
            ONE,
            b"define i32 @f() {\n  %s = alloca i32, align 4\n  %v = load i32, ptr %s, align 4\n  ret i32 %v\n}\n",
        ],
        (
            8,
            b"",
            b"thinlto: uninitialised byte read in @f of c.ll at instruction 2\n",
        ),
    ),
];

#[test]
fn modules_run_together(rt: HostRuntime) -> Result<(), AllocError> {
    let alloc = rt.alloc();
    for &(name, words, texts, end) in &TOGETHER {
        let [first, second, third] = texts;
        let mut files = files_of(alloc, first, second, NONE)?;
        files.with("c.ll", third)?;
        let (status, printed, noted) = end;
        let end = (status, BEFORE, printed, noted);
        assert!(rt;
            ends_over(&rt, alloc, words, &mut files, NONE, EMPTY, end)?,
            "{name}"
        );
    }
    Ok(())
}
