//! The merged programs of links of two modules: their definitions, in order, with the module of each local, and behind them the
//! functions of the outside.
use crate::links::files::modules_of;
use ir_tree::{GlobalValue, Rows};
use merge_meaning::program;
use std::alloc::Global;
use symbol_resolve::resolve;

/// The global values that these files mean together; none where a text is read as no sound module, or the files can't be
/// linked.
fn program_of(alloc: Global, files: &[(&str, &str)]) -> Option<Rows<GlobalValue>> {
    let read = modules_of(alloc, files)?;
    let modules = read.as_slice();
    match resolve(alloc, modules) {
        Ok(resolution) => program(alloc, modules, &resolution).ok(),
        Err(_) => None,
    }
}

/// Whether a global value is of the symbol of this home and name.
fn is_of(global: &GlobalValue, home: Option<u32>, name: &[u8]) -> bool {
    let symbol = match global {
        GlobalValue::Function(function) => &function.symbol,
        GlobalValue::Variable(variable) => &variable.symbol,
    };
    symbol.home == home && symbol.name.equals(name)
}

/// Whether global values are of the symbols of these homes and names.
fn are_of(globals: &[GlobalValue], wanted: &[(Option<u32>, &[u8])]) -> bool {
    let mut same = globals.len() == wanted.len();
    for (global, (home, name)) in globals.iter().zip(wanted) {
        same = same && is_of(global, *home, name);
    }
    same
}

/// The name of a row, files with their texts, and the definitions of the merged program: the module of a local, and the name.
type Row = (
    &'static str,
    &'static [(&'static str, &'static str)],
    &'static [(Option<u32>, &'static [u8])],
);

const PROGRAMS: [Row; 2] = [
    (
        "locals stay apart, and the first weak definition prevails",
        &[
            (
                "a.ll",
                "@table = external global ptr
define weak i32 @f() {
  ret i32 1
}
define internal i32 @h() {
  ret i32 2
}
define i32 @main() {
  %1 = call i32 @f()
  %2 = call i32 @h()
  ret i32 %2
}
",
            ),
            (
                "b.ll",
                "define private i32 @h() {
  ret i32 3
}
define weak i32 @f() {
  ret i32 4
}
@table = global ptr @h
",
            ),
        ],
        &[
            (None, b"f"),
            (Some(0), b"h"),
            (None, b"main"),
            (Some(1), b"h"),
            (None, b"table"),
            (None, b"putchar"),
            (None, b"getchar"),
        ],
    ),
    (
        "an external definition prevails, a copy is none, and what is defined isn't declared",
        &[
            (
                "a.ll",
                "define linkonce_odr i32 @f() {
  ret i32 1
}
define i32 @main() {
  %1 = call i32 @f()
  ret i32 %1
}
",
            ),
            (
                "b.ll",
                "define available_externally i32 @main() {
  ret i32 2
}
define i32 @f() {
  ret i32 3
}
define i32 @putchar(i32 %x) {
  ret i32 %x
}
",
            ),
        ],
        &[
            (None, b"main"),
            (None, b"f"),
            (None, b"putchar"),
            (None, b"getchar"),
        ],
    ),
];

#[test]
fn each_symbol_has_the_definition_that_prevails(rt: HostRuntime) {
    for &(name, files, wanted) in &PROGRAMS {
        let found = program_of(rt.alloc(), files).expect(&rt, "a program");
        assert!(rt; are_of(found.as_slice(), wanted), "{name}");
    }
}
