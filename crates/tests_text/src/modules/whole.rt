//! Whole modules.

use crate::modules::shown::{Row, are_shown, shown};
use std::alloc::AllocError;

// As clang writes them.
const SOURCE: &str = "; ModuleID = 'a.c'
source_filename = \"a.c\"
target datalayout = \"e-m:e-p270:32:32-p271:32:32-i64:64-f80:128-n8:16:32:64-S128\"
target triple = \"x86_64-unknown-linux-gnu\"

%struct.pair = type { i8, i32 }

@.str = private unnamed_addr constant [3 x i8] c\"%d\\0A\", align 1
@pair = dso_local global %struct.pair { i8 1, i32 -2 }, align 4

; Function Attrs: noinline nounwind optnone uwtable
define dso_local i32 @main(i32 noundef %argc) #0 !dbg !3 {
entry:
  %pair.addr = alloca i32, align 4
  call void @llvm.lifetime.start.p0(i64 4, ptr %pair.addr)
  store i32 %argc, ptr %pair.addr, align 4, !tbaa !4
  %0 = load i32, ptr %pair.addr, align 4
  %call = call i32 @puts(ptr noundef @.str) #2
  %sum = add nsw i32 %0, %call
  ret i32 %sum
}

declare void @llvm.lifetime.start.p0(i64 immarg, ptr nocapture) #1

declare i32 @puts(ptr noundef) #1

attributes #0 = { noinline nounwind optnone uwtable \"frame-pointer\"=\"all\" }
attributes #1 = { \"frame-pointer\"=\"all\" }

!llvm.module.flags = !{!0, !1}

!0 = !{i32 1, !\"wchar_size\", i32 4}
!1 = !{i32 8, !\"PIC Level\", i32 2}
";

const PRINTED: &str =
    "target datalayout = \"e-m:e-p270:32:32-p271:32:32-i64:64-f80:128-n8:16:32:64-S128\"
target triple = \"x86_64-unknown-linux-gnu\"
@.str = private constant [3 x i8] c\"%d\\0A\", align 1
@pair = global { i8, i32 } { i8 1, i32 -2 }, align 4
define i32 @main(i32 %0) noinline optnone {
  %2 = alloca i32, align 4
  store i32 %0, ptr %2, align 4
  %3 = load i32, ptr %2, align 4
  %4 = call i32 @puts(ptr @.str)
  %5 = add nsw i32 %3, %4
  ret i32 %5
}
declare i32 @puts(ptr)
";

#[test]
fn a_module_of_clang_is_read(rt: HostRuntime) -> Result<(), AllocError> {
    assert!(rt; shown(rt.alloc(), SOURCE)?.as_str() == PRINTED);
    assert!(rt; shown(rt.alloc(), PRINTED)?.as_str() == PRINTED);
    Ok(())
}

const TARGETS: [Row; 3] = [
    ("", ""),
    (
        "target triple = \"a\"\ntarget datalayout = \"e\"\ntarget triple = \"b\"",
        "target datalayout = \"e\"\ntarget triple = \"b\"\n",
    ),
    ("target triple = \"a\"\ntarget triple = \"\"", ""),
];

#[test]
fn the_last_target_line_stands(rt: HostRuntime) -> Result<(), AllocError> {
    are_shown(&rt, rt.alloc(), &TARGETS)
}

const GROUPS: [Row; 4] = [
    (
        "define void @f() #7 {\n  ret void\n}",
        "define void @f() {\n  ret void\n}\n",
    ),
    (
        "attributes #7 = { noinline }\ndefine void @f() #7 {\n  ret void\n}\nattributes #07 = { optnone }",
        "define void @f() noinline optnone {\n  ret void\n}\n",
    ),
    (
        "define void @f() noinline #1 {\n  ret void\n}\nattributes #1 = { nounwind }",
        "define void @f() noinline {\n  ret void\n}\n",
    ),
    (
        "declare void @f() #1\nattributes #1 = { noinline }",
        "declare void @f()\n",
    ),
];

#[test]
fn groups_of_one_number_add_up(rt: HostRuntime) -> Result<(), AllocError> {
    are_shown(&rt, rt.alloc(), &GROUPS)
}
