//! Printed texts, worked out by hand from the LLVM Language Reference's examples, which are read and printed again.

use crate::parts::read;
use ir_print::{print, print_function, print_variable};
use ir_tree::{GlobalValue, Module};
use std::alloc::{AllocError, Global};

/// A function with every instruction.
const FUNCTION: &[u8] = b"define linkonce_odr i1 @\"1st\"(i8 %0, ptr %1) noinline optnone {
  %3 = add nuw nsw i8 %0, -1
  %4 = udiv exact i64 -9223372036854775808, poison
  %5 = icmp sle i1 true, false
  %6 = sext i8 %3 to i33
  %7 = freeze i8 %3
  %8 = select i1 %5, ptr null, ptr getelementptr (i8, ptr @g, i64 -4)
  call void %1(i8 %3, ptr %8)
  %9 = alloca {}, align 1
  %10 = load ptr, ptr @\"a b\", align 8
  store i32 -1, ptr %10, align 4
  %11 = getelementptr inbounds <{ i8, [3 x ptr] }>, ptr %10, i64 1, i32 1
  br i1 %5, label %12, label %14
12:
  %13 = phi i32 [ 0, %2 ], [ %13, %12 ]
  switch i32 %13, label %14 [ i32 1, label %12 i32 -2, label %14 ]
14:
  ret i1 true
15:
  br label %16
16:
  unreachable
}
";

/// What it names.
const NAMED: &[u8] = b"@g = external global i8, align 1
@\"a b\" = external global ptr, align 8
";

/// Variables with and without initialisers and a declaration, behind a line of the target.
const MODULE: &[u8] = b"target datalayout = \"e-i64:64\"
@s = internal global [3 x i8] c\"a\\22\\0A\", align 8
@z = internal global i64 zeroinitializer, align 8
@g = external global i32, align 8
declare void @putchar(i32, ptr)
";

/// A variable whose initialiser has parts with parts of their own.
const NESTED: &[u8] =
    b"@n = internal constant { [2 x i8], <{ ptr }>, [0 x i8] } { [2 x i8] [i8 1, i8 -1], <{ ptr }> <{ ptr null }>, [0 x i8] [] }, align 8
";

/// A text, and what is read behind it.
const TEXTS: [(&[u8], &[u8]); 3] = [(FUNCTION, NAMED), (MODULE, b""), (NESTED, b"")];

/// Whether the function that a module begins with, or the variable that it is, is printed so; true of other modules.
fn value_shows(alloc: Global, module: &Module, text: &[u8]) -> Result<bool, AllocError> {
    match module.globals.as_slice() {
        [GlobalValue::Function(f), ..] => Ok(print_function(alloc, f)?.equals(text)),
        [GlobalValue::Variable(v)] => Ok(print_variable(alloc, v)?.equals(text)),
        _ => Ok(true),
    }
}

/// Whether a module is printed as the whole, and its value as the text in front.
fn shows(alloc: Global, module: &Module, whole: &[u8], text: &[u8]) -> Result<bool, AllocError> {
    Ok(print(alloc, module)?.equals(whole) && value_shows(alloc, module, text)?)
}

/// Whether what is read of two texts, one behind the other, is printed again.
fn is_printed_again(alloc: Global, text: &[u8], behind: &[u8]) -> Result<bool, AllocError> {
    let mut whole = Vec::from_slice(alloc, text)?;
    whole.extend_from_slice(behind)?;
    match read(alloc, &whole) {
        Some(parsed) => shows(alloc, parsed.module(), &whole, text),
        None => Ok(false),
    }
}

#[test]
fn what_is_read_is_printed_again(rt: HostRuntime) -> Result<(), AllocError> {
    for &(text, behind) in &TEXTS {
        assert!(rt; is_printed_again(rt.alloc(), text, behind)?);
    }
    Ok(())
}
