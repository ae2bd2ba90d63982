//! Imports in call graphs of four functions, each in a file of its own: along chains, under a limit that falls to seven
//! tenths with each call, and in other shapes.
use crate::links::files::{answered, linked, texts};
use combined_index::{Index, live};
use ir_tree::Text;
use std::alloc::{AllocError, Global};
use std::fmt::Write;
use thin_link::plan;

/// Writes a call of each of these. How many there are.
fn put_calls(text: &mut String, callees: &[&str]) -> Result<u32, AllocError> {
    let mut calls = 0_u32;
    for callee in callees {
        writeln!(text, "  %{callee} = call i32 @{callee}()")?;
        calls = calls.saturating_add(1);
    }
    Ok(calls)
}

/// Writes so many sums.
fn put_sums(text: &mut String, count: u32) -> Result<(), AllocError> {
    for sum in 0..count {
        writeln!(text, "  %s{sum} = add i32 4, 1")?;
    }
    Ok(())
}

/// Declares each of these functions.
fn put_declarations(text: &mut String, callees: &[&str]) -> Result<(), AllocError> {
    for callee in callees {
        writeln!(text, "declare i32 @{callee}()")?;
    }
    Ok(())
}

/// The text of a function that calls these, which it declares, and has so many instructions, or as many as the calls take.
fn function(alloc: Global, name: &str, callees: &[&str], count: u32) -> Result<String, AllocError> {
    let mut text = format!(in alloc; "define i32 @{name}() {{\n")?;
    let calls = put_calls(&mut text, callees)?;
    put_sums(&mut text, count.saturating_sub(1).saturating_sub(calls))?;
    writeln!(text, "  ret i32 4\n}}")?;
    put_declarations(&mut text, callees)?;
    Ok(text)
}

/// The imports of each module, where `main` is exported.
fn planned(alloc: Global, index: &Index) -> Result<Vec<Vec<u32>>, AllocError> {
    let roots = texts(alloc, &[b"main"])?;
    let Ok(live) = live(alloc, index, &roots) else {
        return Err(AllocError);
    };
    plan(alloc, index, &live, 100)
}

/// The imports of each of these files.
fn imports_of(alloc: Global, files: &[(&str, &str)]) -> Option<Vec<Vec<u32>>> {
    let index = linked(alloc, files)?;
    planned(alloc, &index).ok()
}

/// The report of the link of these files; none where it is refused.
fn reported(alloc: Global, files: &[(&str, &str)]) -> Option<Text> {
    match answered(alloc, files, 100)? {
        (0, report) => Some(report),
        _ => None,
    }
}

/// Functions, each in a file of its own.
const NAMES: [&str; 4] = ["main", "f", "g", "h"];

/// The texts of `main`, `f`, `g` and `h`, which call these; `f`, `g` and `h` have these counts.
fn written(
    alloc: Global,
    counts: &[u32; 3],
    callees: &[&[&str]; 4],
) -> Result<Vec<String>, AllocError> {
    let [f, g, h] = *counts;
    let mut texts = Vec::new(alloc);
    for ((name, called), count) in NAMES.iter().zip(callees).zip(&[2, f, g, h]) {
        texts.push(function(alloc, name, called, *count)?)?;
    }
    Ok(texts)
}

/// The imports of these files, and the report of their link.
fn outcome(alloc: Global, files: &[(&str, &str)]) -> Option<(Vec<Vec<u32>>, Text)> {
    let imports = imports_of(alloc, files)?;
    Some((imports, reported(alloc, files)?))
}

/// The imports and the report of the files of these texts.
fn decided(alloc: Global, texts: &[String]) -> Option<(Vec<Vec<u32>>, Text)> {
    match texts {
        [main, f, g, h] => outcome(
            alloc,
            &[
                ("main.ll", main.as_str()),
                ("f.ll", f.as_str()),
                ("g.ll", g.as_str()),
                ("h.ll", h.as_str()),
            ],
        ),
        _ => None,
    }
}

/// The name of a row, the counts of `f`, `g` and `h`, whom `main`, `f`, `g` and `h` call, the imports of each of the four by
/// the numbers of symbols, and the report where it is looked at.
type Row = (
    &'static str,
    [u32; 3],
    [&'static [&'static str]; 4],
    &'static [&'static [u32]],
    Option<&'static [u8]>,
);

/// Symbols have the numbers 0 to 3 in the order in which `main`, `f`, `g` and `h` are first named: in the last row `h` has 2.
const GRAPHS: [Row; 7] = [
    (
        "each call of a chain is within its limit",
        [100, 70, 49],
        [&["f"], &["g"], &["h"], &[]],
        &[&[1, 2, 3], &[2, 3], &[3], &[]],
        Some(
            b"module 0 main.ll
  define @main 2 live
  import @f from 1 100
  import @g from 2 70
  import @h from 3 49
module 1 f.ll
  define @f 100 live
  import @g from 2 70
  import @h from 3 49
module 2 g.ll
  define @g 70 live
  import @h from 3 49
module 3 h.ll
  define @h 49 live
",
        ),
    ),
    (
        "a chain ends at a function past its limit",
        [100, 71, 49],
        [&["f"], &["g"], &["h"], &[]],
        &[&[1], &[2, 3], &[3], &[]],
        Some(
            b"module 0 main.ll
  define @main 2 live
  import @f from 1 100
module 1 f.ll
  define @f 100 live
  import @g from 2 71
  import @h from 3 49
module 2 g.ll
  define @g 71 live
  import @h from 3 49
module 3 h.ll
  define @h 49 live
",
        ),
    ),
    (
        "the last of a chain is left out",
        [100, 70, 50],
        [&["f"], &["g"], &["h"], &[]],
        &[&[1, 2], &[2, 3], &[3], &[]],
        Some(
            b"module 0 main.ll
  define @main 2 live
  import @f from 1 100
  import @g from 2 70
module 1 f.ll
  define @f 100 live
  import @g from 2 70
  import @h from 3 50
module 2 g.ll
  define @g 70 live
  import @h from 3 50
module 3 h.ll
  define @h 50 live
",
        ),
    ),
    (
        "a chain whose first function is past its limit is not begun",
        [101, 2, 1],
        [&["f"], &["g"], &["h"], &[]],
        &[&[], &[2, 3], &[3], &[]],
        None,
    ),
    (
        "a circle of calls is imported once",
        [5, 5, 5],
        [&["f"], &["g"], &["h"], &["f", "main"]],
        &[&[1, 2, 3], &[0, 2, 3], &[0, 1, 3], &[0, 1, 2]],
        None,
    ),
    (
        "all points of a star within the limit are imported",
        [100, 101, 99],
        [&["f", "g", "h"], &[], &[], &[]],
        &[&[1, 3], &[], &[], &[]],
        None,
    ),
    (
        "a shorter chain counts",
        [10, 10, 100],
        [&["f", "h"], &["g"], &["h"], &[]],
        &[&[1, 2, 3], &[3], &[2], &[]],
        None,
    ),
];

/// Whether the lists of imports are these.
fn are_imported(imports: &[Vec<u32>], wanted: &[&[u32]]) -> bool {
    let mut same = imports.len() == wanted.len();
    for (found, list) in imports.iter().zip(wanted) {
        same = same && found.as_slice() == *list;
    }
    same
}

/// Whether a report is this one, where it is looked at.
fn is_told(told: &Text, report: Option<&[u8]>) -> bool {
    match report {
        Some(report) => told.equals(report),
        None => true,
    }
}

/// Whether the files of a call graph have the imports and the report of a row; none where they are no link.
fn is_so(alloc: Global, row: &Row) -> Option<bool> {
    let (_, counts, callees, wanted, report) = row;
    let texts = written(alloc, counts, callees).ok()?;
    let (imports, told) = decided(alloc, &texts)?;
    Some(are_imported(&imports, wanted) && is_told(&told, *report))
}

#[test]
fn calls_are_imported_within_their_limits(rt: HostRuntime) {
    for row in &GRAPHS {
        assert!(rt; is_so(rt.alloc(), row) == Some(true), "{}", row.0);
    }
}
