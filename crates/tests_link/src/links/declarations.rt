//! Values, and how they are declared.
use crate::links::files::read;
use ir_tree::Text;
use lto_task::{declaration_of, piece_of};
use std::alloc::Global;

/// A module, and the line that declares its first value.
type Row = (&'static str, &'static str);

const ROWS: [Row; 6] = [
    (
        "define linkonce_odr i32 @f(ptr %a, i64 %b) noinline optnone {\n  ret i32 0\n}\n",
        "declare i32 @f(ptr, i64)\n",
    ),
    (
        "define internal void @\"g h\"() {\n  ret void\n}\n",
        "declare void @\"g h\"()\n",
    ),
    (
        "declare i32 @putchar(i32 %c)\n",
        "declare i32 @putchar(i32)\n",
    ),
    (
        "@v = internal constant [2 x i8] c\"ab\", align 4\n",
        "@v = external constant [2 x i8], align 4\n",
    ),
    (
        "@w = weak global ptr @v, align 16\n@v = external global i8, align 1\n",
        "@w = external global ptr, align 16\n",
    ),
    (
        "@x = external global i8, align 1\n",
        "@x = external global i8, align 1\n",
    ),
];

/// The lines of the declaration of a module's first value; none where the text is read as no sound module, or has no value.
fn declared(alloc: Global, source: &str) -> Option<Text> {
    let module = read(alloc, source)?;
    let value = module.module().globals.as_slice().first()?;
    let declaration = declaration_of(alloc, value).ok()?;
    let piece = piece_of(alloc, &declaration).ok()?;
    Some(piece.text)
}

#[test]
fn values_are_declared(rt: HostRuntime) {
    for row in &ROWS {
        let text = declared(rt.alloc(), row.0).expect(&rt, "a declaration");
        assert!(rt; text.equals(row.1.as_bytes()), "{}", row.1);
    }
}
