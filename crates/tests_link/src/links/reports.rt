//! Links of two and three files that export `main`, each with its report or the text of its refusal.
use crate::links::files::answered;
use std::alloc::Global;

const MAIN: &str = "define i32 @main() {
  %r = call i32 @f(i32 4)
  ret i32 %r
}
declare i32 @f(i32)
";

/// `f` calls the local `h` beside it, which may be imported.
const CALLER: &str = "define i32 @f(i32 %x) {
  %y = call i32 @h(i32 %x)
  %z = add i32 %y, 1
  ret i32 %z
}
define internal i32 @h(i32 %x) {
  %y = mul i32 %x, 3
  ret i32 %y
}
";

/// The same, where `h` may not be inlined.
const NEVER_INLINED: &str = "define i32 @f(i32 %x) {
  %y = call i32 @h(i32 %x)
  %z = add i32 %y, 1
  ret i32 %z
}
define internal i32 @h(i32 %x) noinline {
  %y = mul i32 %x, 3
  ret i32 %y
}
";

/// `main` calls `f`, of which the module has a copy; nothing refers to the variable.
const COPY_AND_DEAD: &str = "@\"old one\" = internal global i8 0
define i32 @main() {
  %1 = call i32 @f()
  ret i32 %1
}
define linkonce_odr i32 @f() {
  %1 = add i32 1, 1
  %2 = add i32 %1, 1
  %3 = add i32 %2, 1
  %4 = add i32 %3, 1
  %5 = add i32 %4, 1
  %6 = add i32 %5, 1
  %7 = add i32 %6, 1
  %8 = add i32 %7, 1
  ret i32 %8
}
";

/// An external `f`, which replaces the copy, and refers to the local variable beside it.
const REPLACING: &str = "define i32 @f() {
  %1 = load i32, ptr @table, align 4
  %2 = add i32 %1, 1
  ret i32 %2
}
@table = internal global i32 7, align 4
";

const CALLS_TWO: &str = "define i32 @main() {
  %1 = call i32 @f()
  %2 = call i32 @g()
  ret i32 %2
}
declare i32 @f()
declare i32 @g()
";

/// `g` calls the local `h` beside it.
const SECOND: &str = "define i32 @g() {
  %1 = call i32 @h()
  %2 = add i32 %1, 1
  %3 = add i32 %2, 1
  ret i32 %3
}
define internal i32 @h() {
  %1 = add i32 1, 1
  %2 = add i32 %1, 1
  %3 = add i32 %2, 1
  %4 = add i32 %3, 1
  ret i32 %4
}
";

/// `f` calls another local `h` beside it.
const THIRD: &str = "define i32 @f() {
  %1 = call i32 @h()
  %2 = add i32 %1, 1
  %3 = add i32 %2, 1
  %4 = add i32 %3, 1
  %5 = add i32 %4, 1
  ret i32 %5
}
define private i32 @h() {
  %1 = add i32 1, 1
  %2 = add i32 %1, 1
  %3 = add i32 %2, 1
  %4 = add i32 %3, 1
  %5 = add i32 %4, 1
  %6 = add i32 %5, 1
  ret i32 %6
}
";

const RETURNS_ONE: &str = "define i32 @f() {\n  ret i32 1\n}\n";

const RETURNS_TWO: &str = "define i32 @f() {\n  ret i32 2\n}\n";

const ONLY_MAIN: &str = "define i32 @main() {\n  ret i32 0\n}\n";

const CALLS_G: &str =
    "define i32 @main() {\n  %1 = call i32 @g()\n  ret i32 %1\n}\ndeclare i32 @g()\n";

const LAYOUT_E: &str = "target datalayout = \"e\"\ntarget triple = \"x\"\n@main = global i8 0\n";

const LAYOUT_M: &str =
    "target datalayout = \"e-m:e\"\ntarget triple = \"y\"\n@main = global i8 0\n";

/// The name of a row, files with their texts, the limit of imports, and what the link answers: 0 and the report, or the
/// status and the text of the refusal.
type Row = (
    &'static str,
    &'static [(&'static str, &'static str)],
    u32,
    u8,
    &'static [u8],
);

const LINKS: [Row; 12] = [
    (
        "what is imported",
        &[("a.ll", MAIN), ("b.ll", CALLER)],
        100,
        0,
        b"module 0 a.ll
  define @main 2 live
  import @f from 1 3
  import @h from 1 2
module 1 b.ll
  define @f 3 live
  define @h 2 live
",
    ),
    (
        "a function that is never inlined stays where it is",
        &[("a.ll", MAIN), ("b.ll", NEVER_INLINED)],
        100,
        0,
        b"module 0 a.ll
  define @main 2 live
  import @f from 1 3
module 1 b.ll
  define @f 3 live
  define @h 2 live
",
    ),
    (
        "a limit of two instructions imports nothing",
        &[("a.ll", MAIN), ("b.ll", CALLER)],
        2,
        0,
        b"module 0 a.ll
  define @main 2 live
module 1 b.ll
  define @f 3 live
  define @h 2 live
",
    ),
    (
        "each definition has its state",
        &[("a.ll", COPY_AND_DEAD), ("b.ll", REPLACING)],
        100,
        0,
        b"module 0 a.ll
  define @f 9 replaced
  define @main 2 live
  define @\"old one\" - dead
  import @f from 1 3
module 1 b.ll
  define @f 3 live
  define @table - live
",
    ),
    (
        "imports stand by name and then by module",
        &[("a.ll", CALLS_TWO), ("b.ll", SECOND), ("c.ll", THIRD)],
        100,
        0,
        b"module 0 a.ll
  define @main 3 live
  import @f from 2 6
  import @g from 1 4
  import @h from 1 5
  import @h from 2 7
module 1 b.ll
  define @g 4 live
  define @h 5 live
module 2 c.ll
  define @f 6 live
  define @h 7 live
",
    ),
    (
        "data layouts that differ are told first",
        &[("a.ll", LAYOUT_E), ("b.ll", LAYOUT_M)],
        100,
        4,
        b"thinlto: target datalayout differs in a.ll and b.ll\n",
    ),
    (
        "triples that differ are told before symbols",
        &[
            ("a.ll", "target triple = \"x\"\n@main = global i8 0\n"),
            ("b.ll", "target triple = \"y\"\n@main = global i8 0\n"),
        ],
        100,
        4,
        b"thinlto: target triple differs in a.ll and b.ll\n",
    ),
    (
        "two external definitions clash",
        &[("a.ll", RETURNS_ONE), ("b.ll", RETURNS_TWO)],
        100,
        4,
        b"thinlto: duplicate symbol @f in a.ll and b.ll\n",
    ),
    (
        "a file that is named twice clashes with itself",
        &[("a.ll", ONLY_MAIN), ("a.ll", ONLY_MAIN)],
        100,
        4,
        b"thinlto: duplicate symbol @main in a.ll and a.ll\n",
    ),
    (
        "a function is no variable",
        &[
            ("a.ll", "@g = global i8 0\n"),
            ("b.ll", "declare i32 @g()\n"),
        ],
        100,
        4,
        b"thinlto: @g is a function in b.ll and a variable in a.ll\n",
    ),
    (
        "a name that nobody defines is told",
        &[("a.ll", "declare i32 @g()\n"), ("b.ll", CALLS_G)],
        100,
        4,
        b"thinlto: undefined symbol @g in b.ll\n",
    ),
    (
        "an export is to be defined",
        &[],
        100,
        4,
        b"thinlto: no definition of exported @main\n",
    ),
];

/// Whether the link of a row's files has its answer; none where a text is read as no sound module.
fn answers(alloc: Global, row: &Row) -> Option<bool> {
    let (_, files, limit, status, text) = row;
    let (answer, told) = answered(alloc, files, *limit)?;
    Some(answer == *status && told.equals(text))
}

#[test]
fn links_are_reported_or_refused(rt: HostRuntime) {
    for row in &LINKS {
        assert!(rt; answers(rt.alloc(), row) == Some(true), "{}", row.0);
    }
}
