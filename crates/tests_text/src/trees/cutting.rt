//! Texts and their tokens, worked out by hand from the table of tokens.
use ir_lex::{LexError, Token, TokenKind, lex, tokens};
use std::alloc::{AllocError, Global};
use std::fmt::Write;
use std::string::String;

/// A token with its kind, its line and whether it ends that.
fn put_token(token: &Token, out: &mut String) {
    let slice = str::from_utf8(token.text).unwrap_or("?");
    let end = if token.ends_line { "/" } else { "" };
    let _written = write!(out, "{:?} {} {}{}, ", token.form, slice, token.line, end);
}

/// The tokens in one line, and then the end, or the bad token.
fn shown(alloc: Global, text: &str) -> Result<String, AllocError> {
    let lexed = lex(alloc, text.as_bytes())?;
    let mut out = String::new(alloc);
    for token in &lexed.tokens {
        put_token(token, &mut out);
    }
    let end = if lexed.whole { "end" } else { "bad" };
    let _written = write!(out, "{} {}", end, lexed.line);
    Ok(out)
}

/// Whether the tokens of a text are of these kinds, in this order.
fn has_classes(alloc: Global, text: &str, want: &[TokenKind]) -> Result<bool, AllocError> {
    let lexed = lex(alloc, text.as_bytes())?;
    let mut same = lexed.tokens.len() == want.len();
    for (token, class) in lexed.tokens.iter().zip(want) {
        same = same && token.kind.is(*class);
    }
    Ok(same)
}

/// Texts, and their tokens.
const CUT: [(&str, &str); 37] = [
    ("", "end 1"),
    (" \t\r\n\n", "end 3"),
    ("; a comment", "end 1"),
    ("; a %b \"\n; c\n", "end 3"),
    ("a\n;b\nc", "Word a 1/, Word c 3/, end 3"),
    // Names, numbers and words.
    (
        "define i32 @main() {\n  ret i32 -7\n}",
        "Word define 1, Word i32 1, Global @main 1, Other ( 1, Other ) 1, Other { 1/, Word ret 2, Word i32 2, Number -7 2/, Other } 3/, end 3",
    ),
    (
        "%x %12 %-a.$_9 %\"a b\" @7x",
        "Local %x 1, Local %12 1, Local %-a.$_9 1, Local %\"a b\" 1, Global @7 1, Word x 1/, end 1",
    ),
    (
        "@\"\" $f $\"g\" $",
        "Global @\"\" 1, Comdat $f 1, Comdat $\"g\" 1, Other $ 1/, end 1",
    ),
    (
        "12ab -5-6 - 5 0x1F 5.0",
        "Number 12 1, Word ab 1, Number -5 1, Number -6 1, Other - 1, Number 5 1, Number 0 1, Word x1F 1, Number 5 1, Other . 1, Number 0 1/, end 1",
    ),
    (
        "a.b_c9 _x a-b a$b",
        "Word a.b_c9 1, Word _x 1, Word a 1, Other - 1, Word b 1, Word a 1, Comdat $b 1/, end 1",
    ),
    (
        "%007 %99999999999 i032",
        "Local %007 1, Local %99999999999 1, Word i032 1/, end 1",
    ),
    // Labels.
    (
        "entry: 7: -1: $.x: 01:",
        "Label entry: 1, Label 7: 1, Label -1: 1, Label $.x: 1, Label 01: 1/, end 1",
    ),
    (
        "\"a b\": \"abc\" : a :",
        "Label \"a b\": 1, Str \"abc\" 1, Other : 1, Word a 1, Other : 1/, end 1",
    ),
    (
        "c\"x\": %a: a:b:",
        "CStr c\"x\" 1, Other : 1, Local %a 1, Other : 1, Label a: 1, Label b: 1/, end 1",
    ),
    // Metadata, attribute groups, dots and other bytes.
    (
        "!dbg !3 ! !{!\"s\"} !a\\5Cb",
        "Meta !dbg 1, Meta !3 1, Meta ! 1, Meta ! 1, Other { 1, Meta ! 1, Str \"s\" 1, Other } 1, Meta !a\\5Cb 1/, end 1",
    ),
    (
        "#0 #x # ... .. ....",
        "Group #0 1, Other # 1, Word x 1, Other # 1, Dots ... 1, Other . 1, Other . 1, Dots ... 1, Other . 1/, end 1",
    ),
    (
        "...: .a: x=<~>",
        "Label ...: 1, Label .a: 1, Word x 1, Other = 1, Other < 1, Other ~ 1, Other > 1/, end 1",
    ),
    // Strings: the next quote ends one, whatever stands before it.
    (
        "c\"a\\00\" c \"a\\\" c",
        "CStr c\"a\\00\" 1, Word c 1, Str \"a\\\" 1, Word c 1/, end 1",
    ),
    ("xc\"a\"", "Word xc 1, Str \"a\" 1/, end 1"),
    (
        "\"a\nb\" c\n\"\n\": d",
        "Str \"a\nb\" 1, Word c 2/, Label \"\n\": 3, Word d 4/, end 4",
    ),
    ("a;b\"\n\"c;\nd\";", "Word a 1/, Str \"c;\nd\" 2/, end 3"),
    // No token stands at an open string, also behind its sigil, nor at some bytes.
    ("a\n\"b", "Word a 1/, bad 2"),
    ("a @\"b\nc", "Word a 1, bad 1"),
    ("%\"", "bad 1"),
    ("$\"x", "bad 1"),
    ("\n\nc\"x", "bad 3"),
    ("ac\"x", "Word ac 1, bad 1"),
    ("!\"x", "Meta ! 1, bad 1"),
    ("a \u{7F} b", "Word a 1, bad 1"),
    ("a\n\u{1} b", "Word a 1/, bad 2"),
    ("a é", "Word a 1, bad 1"),
    ("\"é\" ; é\n", "Str \"é\" 1/, end 2"),
    // A name that holds a zero byte is no token, and a string may hold one.
    ("a @\"b\\00c\"", "Word a 1, bad 1"),
    ("%\"b\0\" c", "bad 1"),
    ("$\"\\00\"", "bad 1"),
    ("x\n\"a\n\\00\": c", "Word x 1/, bad 2"),
    (
        "\"a\\00\" c\"\0\" @\"b\\\\00\" @\"\\0\"",
        "Str \"a\\00\" 1, CStr c\"\0\" 1, Global @\"b\\\\00\" 1, Global @\"\\0\" 1/, end 1",
    ),
];

/// Texts, and the kinds of their tokens.
const CLASSES: [(&str, &[TokenKind]); 8] = [
    (
        "i0 i1 i7 i8 i32 i64 i65 i128 i032 i00 i i8x",
        &[
            TokenKind::RefusedInteger,
            TokenKind::RegisterInteger,
            TokenKind::RegisterInteger,
            TokenKind::MemoryInteger,
            TokenKind::MemoryInteger,
            TokenKind::MemoryInteger,
            TokenKind::RefusedInteger,
            TokenKind::RefusedInteger,
            TokenKind::Word,
            TokenKind::Word,
            TokenKind::Word,
            TokenKind::Word,
        ],
    ),
    (
        "@f @5 @\"5\" @llvm @llvmx @llvm.x",
        &[
            TokenKind::Global,
            TokenKind::NumberedGlobal,
            TokenKind::Global,
            TokenKind::ReservedGlobal,
            TokenKind::Global,
            TokenKind::ReservedGlobal,
        ],
    ),
    (
        "@llvm.lifetime.start.p0 @\"llvm.lifetime.end.p0\" @\"\\6clvm\" @\"llvm\\2Ey\" @\"llv\"",
        &[
            TokenKind::LifetimeMarker,
            TokenKind::LifetimeMarker,
            TokenKind::ReservedGlobal,
            TokenKind::ReservedGlobal,
            TokenKind::Global,
        ],
    ),
    (
        "@5 = internal @5=;c\nprivate @5 = global @5 = internal: @6",
        &[
            TokenKind::NumberedDefinition,
            TokenKind::Equals,
            TokenKind::Internal,
            TokenKind::NumberedDefinition,
            TokenKind::Equals,
            TokenKind::Private,
            TokenKind::NumberedGlobal,
            TokenKind::Equals,
            TokenKind::GlobalVariable,
            TokenKind::NumberedGlobal,
            TokenKind::Equals,
            TokenKind::Label,
            TokenKind::NumberedGlobal,
        ],
    ),
    (
        "#0 #dbg_value # x ... ^",
        &[
            TokenKind::Group,
            TokenKind::RefusedMark,
            TokenKind::Word,
            TokenKind::Mark,
            TokenKind::Times,
            TokenKind::RefusedMark,
            TokenKind::RefusedMark,
        ],
    ),
    (
        "! !0 !dbg $f comdat e:",
        &[
            TokenKind::Bang,
            TokenKind::Meta,
            TokenKind::Meta,
            TokenKind::ComdatName,
            TokenKind::Comdat,
            TokenKind::Label,
        ],
    ),
    (
        "x label %x 7 \"s\" c\"s\" ( ) [ ] { } < > , =",
        &[
            TokenKind::Times,
            TokenKind::LabelType,
            TokenKind::Local,
            TokenKind::Number,
            TokenKind::Str,
            TokenKind::CStr,
            TokenKind::OpenParen,
            TokenKind::CloseParen,
            TokenKind::OpenBracket,
            TokenKind::CloseBracket,
            TokenKind::OpenBrace,
            TokenKind::CloseBrace,
            TokenKind::OpenAngle,
            TokenKind::CloseAngle,
            TokenKind::Comma,
            TokenKind::Equals,
        ],
    ),
    (
        "undef null_pointer_is_valid token alwaysinline dereferenceable_or_null",
        &[
            TokenKind::RefusedWord,
            TokenKind::RefusedAttribute,
            TokenKind::RefusedType,
            TokenKind::Word,
            TokenKind::ParameterGroup,
        ],
    ),
];

#[test]
fn texts_are_cut(rt: HostRuntime) -> Result<(), AllocError> {
    for &(text, want) in &CUT {
        assert_eq!(rt; shown(rt.alloc(), text)?.as_str(), want);
    }
    Ok(())
}

#[test]
fn tokens_have_classes(rt: HostRuntime) -> Result<(), AllocError> {
    for &(text, want) in &CLASSES {
        assert_eq!(rt; (text, has_classes(rt.alloc(), text, want)?), (text, true));
    }
    Ok(())
}

/// Texts of one token, and the bytes that it stands for.
const CONTENTS: [(&str, &str); 12] = [
    ("%x", "x"),
    ("@\"a b\"", "a b"),
    ("@\"\\61\\5c\\5C\"", "a\\\\"),
    ("$\"\\\\41\"", "\\41"),
    ("@\"\\4\\g0\\\"", "\\4\\g0\\"),
    ("entry:", "entry"),
    ("\"a\\20b\":", "a b"),
    ("7:", "7"),
    ("\"\"", ""),
    ("c\"h\\69\"", "hi"),
    ("-12", "-12"),
    ("i32", "i32"),
];

/// Whether a text is one token, which stands for these bytes.
fn stands_for(alloc: Global, text: &str, want: &str) -> Result<bool, AllocError> {
    let lexed = lex(alloc, text.as_bytes())?;
    match lexed.tokens.as_slice() {
        [token] => Ok(token.content(alloc)?.as_slice() == want.as_bytes()),
        _ => Ok(false),
    }
}

#[test]
fn tokens_stand_for_bytes(rt: HostRuntime) -> Result<(), AllocError> {
    for &(text, want) in &CONTENTS {
        assert!(rt; stands_for(rt.alloc(), text, want)?, "{text}");
    }
    Ok(())
}

/// The kinds of the tokens of a text, or the line of its bad token.
fn kinds(alloc: Global, text: &[u8]) -> Result<String, AllocError> {
    let mut out = String::new(alloc);
    match tokens(alloc, text) {
        Ok(list) => {
            for token in &list {
                let _written = write!(out, "{:?} ", token.form);
            }
        }
        Err(LexError::Fault { line }) => {
            let _written = write!(out, "bad {}", line);
        }
        Err(LexError::NoMemory) => return Err(AllocError),
    }
    Ok(out)
}

#[test]
fn tokens_are_listed(rt: HostRuntime) -> Result<(), AllocError> {
    assert_eq!(rt; kinds(rt.alloc(), b"ret void\n")?.as_str(), "Word Word ");
    assert_eq!(rt; kinds(rt.alloc(), b"ret\n\"void")?.as_str(), "bad 2");
    Ok(())
}

#[test]
fn a_token_has_24_bytes(rt: HostRuntime) {
    assert_eq!(rt; size_of::<Token>(), 24);
}
