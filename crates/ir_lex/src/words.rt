//! The words that the grammar tells apart, each with its kind, by how many bytes they have.

ghost use Rattle.std.specs.Prelude.{◌≡◌, map};
ghost use Rattle.ir_lex.specs.TokenKinds.{class_in, listed_kind, words_1, words_2, words_3, words_4, words_5, words_6, words_7, words_8, words_9, words_10, words_11, words_12, words_13, words_14, words_15, words_18, words_20, words_21, words_22, words_23};

use crate::token_kind::TokenKind;

/// The words of one byte.
pub const WORDS_1: [(&[u8], TokenKind); 1] = [(b"x", TokenKind::Times)];

/// The words of two bytes.
pub const WORDS_2: [(&[u8], TokenKind); 7] = [
    (b"i8", TokenKind::MemoryInteger),
    (b"gc", TokenKind::RefusedWord),
    (b"or", TokenKind::Or),
    (b"eq", TokenKind::Eq),
    (b"ne", TokenKind::Ne),
    (b"to", TokenKind::To),
    (b"br", TokenKind::Br),
];

/// The words of three bytes.
pub const WORDS_3: [(&[u8], TokenKind); 25] = [
    (b"i16", TokenKind::MemoryInteger),
    (b"i32", TokenKind::MemoryInteger),
    (b"i64", TokenKind::MemoryInteger),
    (b"ptr", TokenKind::Ptr),
    (b"asm", TokenKind::RefusedWord),
    (b"any", TokenKind::Any),
    (b"ccc", TokenKind::CallingConvention),
    (b"nuw", TokenKind::Nuw),
    (b"nsw", TokenKind::Nsw),
    (b"add", TokenKind::Add),
    (b"sub", TokenKind::Sub),
    (b"mul", TokenKind::Mul),
    (b"shl", TokenKind::Shl),
    (b"and", TokenKind::And),
    (b"xor", TokenKind::Xor),
    (b"ugt", TokenKind::Ugt),
    (b"uge", TokenKind::Uge),
    (b"ult", TokenKind::Ult),
    (b"ule", TokenKind::Ule),
    (b"sgt", TokenKind::Sgt),
    (b"sge", TokenKind::Sge),
    (b"slt", TokenKind::Slt),
    (b"sle", TokenKind::Sle),
    (b"phi", TokenKind::Phi),
    (b"ret", TokenKind::Ret),
];

/// The words of four bytes.
pub const WORDS_4: [(&[u8], TokenKind); 29] = [
    (b"void", TokenKind::Void),
    (b"half", TokenKind::RefusedWord),
    (b"nest", TokenKind::RefusedWord),
    (b"fadd", TokenKind::RefusedWord),
    (b"fsub", TokenKind::RefusedWord),
    (b"fmul", TokenKind::RefusedWord),
    (b"fdiv", TokenKind::RefusedWord),
    (b"frem", TokenKind::RefusedWord),
    (b"fneg", TokenKind::RefusedWord),
    (b"fcmp", TokenKind::RefusedWord),
    (b"type", TokenKind::Type),
    (b"weak", TokenKind::Weak),
    (b"true", TokenKind::True),
    (b"null", TokenKind::Null),
    (b"nusw", TokenKind::Nusw),
    (b"nneg", TokenKind::Nneg),
    (b"udiv", TokenKind::Udiv),
    (b"sdiv", TokenKind::Sdiv),
    (b"lshr", TokenKind::Lshr),
    (b"ashr", TokenKind::Ashr),
    (b"urem", TokenKind::Urem),
    (b"srem", TokenKind::Srem),
    (b"icmp", TokenKind::Icmp),
    (b"zext", TokenKind::Zext),
    (b"sext", TokenKind::Sext),
    (b"load", TokenKind::Load),
    (b"tail", TokenKind::TailMark),
    (b"call", TokenKind::Call),
    (b"sret", TokenKind::ParameterGroup),
];

/// The words of five bytes.
pub const WORDS_5: [(&[u8], TokenKind); 21] = [
    (b"token", TokenKind::RefusedType),
    (b"naked", TokenKind::RefusedAttribute),
    (b"float", TokenKind::RefusedWord),
    (b"fp128", TokenKind::RefusedWord),
    (b"undef", TokenKind::RefusedWord),
    (b"fence", TokenKind::RefusedWord),
    (b"byval", TokenKind::RefusedWord),
    (b"byref", TokenKind::RefusedWord),
    (b"alias", TokenKind::RefusedWord),
    (b"ifunc", TokenKind::RefusedWord),
    (b"fpext", TokenKind::RefusedWord),
    (b"ghccc", TokenKind::RefusedWord),
    (b"false", TokenKind::False),
    (b"exact", TokenKind::Exact),
    (b"trunc", TokenKind::Trunc),
    (b"store", TokenKind::Store),
    (b"label", TokenKind::LabelType),
    (b"align", TokenKind::Align),
    (b"noext", TokenKind::ParameterWord),
    (b"inreg", TokenKind::ParameterWord),
    (b"range", TokenKind::ParameterGroup),
];

/// The words of six bytes.
pub const WORDS_6: [(&[u8], TokenKind); 32] = [
    (b"bfloat", TokenKind::RefusedWord),
    (b"double", TokenKind::RefusedWord),
    (b"atomic", TokenKind::RefusedWord),
    (b"invoke", TokenKind::RefusedWord),
    (b"resume", TokenKind::RefusedWord),
    (b"callbr", TokenKind::RefusedWord),
    (b"module", TokenKind::RefusedWord),
    (b"common", TokenKind::RefusedWord),
    (b"prefix", TokenKind::RefusedWord),
    (b"va_arg", TokenKind::RefusedWord),
    (b"fptoui", TokenKind::RefusedWord),
    (b"fptosi", TokenKind::RefusedWord),
    (b"uitofp", TokenKind::RefusedWord),
    (b"sitofp", TokenKind::RefusedWord),
    (b"coldcc", TokenKind::RefusedWord),
    (b"tailcc", TokenKind::RefusedWord),
    (b"target", TokenKind::Target),
    (b"triple", TokenKind::Triple),
    (b"opaque", TokenKind::Opaque),
    (b"comdat", TokenKind::Comdat),
    (b"define", TokenKind::Define),
    (b"global", TokenKind::GlobalVariable),
    (b"hidden", TokenKind::Visibility),
    (b"fastcc", TokenKind::CallingConvention),
    (b"poison", TokenKind::Poison),
    (b"select", TokenKind::Select),
    (b"freeze", TokenKind::Freeze),
    (b"alloca", TokenKind::Alloca),
    (b"notail", TokenKind::TailMark),
    (b"switch", TokenKind::Switch),
    (b"nofree", TokenKind::ParameterWord),
    (b"immarg", TokenKind::ParameterWord),
];

/// The words of seven bytes.
pub const WORDS_7: [(&[u8], TokenKind); 16] = [
    (b"x86_amx", TokenKind::RefusedWord),
    (b"cmpxchg", TokenKind::RefusedWord),
    (b"section", TokenKind::RefusedWord),
    (b"fptrunc", TokenKind::RefusedWord),
    (b"bitcast", TokenKind::RefusedWord),
    (b"swiftcc", TokenKind::RefusedWord),
    (b"largest", TokenKind::RefusedWord),
    (b"declare", TokenKind::Declare),
    (b"private", TokenKind::Private),
    (b"default", TokenKind::Visibility),
    (b"noundef", TokenKind::ParameterWord),
    (b"zeroext", TokenKind::ParameterWord),
    (b"signext", TokenKind::ParameterWord),
    (b"nonnull", TokenKind::ParameterWord),
    (b"noalias", TokenKind::ParameterWord),
    (b"optnone", TokenKind::Optnone),
];

/// The words of eight bytes.
pub const WORDS_8: [(&[u8], TokenKind); 26] = [
    (b"metadata", TokenKind::RefusedType),
    (b"x86_fp80", TokenKind::RefusedWord),
    (b"volatile", TokenKind::RefusedWord),
    (b"catchpad", TokenKind::RefusedWord),
    (b"catchret", TokenKind::RefusedWord),
    (b"musttail", TokenKind::RefusedWord),
    (b"inalloca", TokenKind::RefusedWord),
    (b"prologue", TokenKind::RefusedWord),
    (b"ptrtoint", TokenKind::RefusedWord),
    (b"inttoptr", TokenKind::RefusedWord),
    (b"samesize", TokenKind::RefusedWord),
    (b"constant", TokenKind::Constant),
    (b"internal", TokenKind::Internal),
    (b"external", TokenKind::External),
    (b"linkonce", TokenKind::Linkonce),
    (b"weak_odr", TokenKind::WeakOdr),
    (b"inbounds", TokenKind::Inbounds),
    (b"disjoint", TokenKind::Disjoint),
    (b"samesign", TokenKind::Samesign),
    (b"readonly", TokenKind::ParameterWord),
    (b"readnone", TokenKind::ParameterWord),
    (b"returned", TokenKind::ParameterWord),
    (b"allocptr", TokenKind::ParameterWord),
    (b"writable", TokenKind::ParameterWord),
    (b"captures", TokenKind::ParameterGroup),
    (b"noinline", TokenKind::Noinline),
];

/// The words of nine bytes.
pub const WORDS_9: [(&[u8], TokenKind); 12] = [
    (b"ppc_fp128", TokenKind::RefusedWord),
    (b"addrspace", TokenKind::RefusedWord),
    (b"atomicrmw", TokenKind::RefusedWord),
    (b"swiftself", TokenKind::RefusedWord),
    (b"partition", TokenKind::RefusedWord),
    (b"appending", TokenKind::RefusedWord),
    (b"dllimport", TokenKind::RefusedWord),
    (b"dllexport", TokenKind::RefusedWord),
    (b"dso_local", TokenKind::Visibility),
    (b"protected", TokenKind::Visibility),
    (b"nocapture", TokenKind::ParameterWord),
    (b"writeonly", TokenKind::ParameterWord),
];

/// The words of ten bytes.
pub const WORDS_10: [(&[u8], TokenKind); 10] = [
    (b"landingpad", TokenKind::RefusedWord),
    (b"cleanuppad", TokenKind::RefusedWord),
    (b"cleanupret", TokenKind::RefusedWord),
    (b"indirectbr", TokenKind::RefusedWord),
    (b"swifterror", TokenKind::RefusedWord),
    (b"swiftasync", TokenKind::RefusedWord),
    (b"exactmatch", TokenKind::RefusedWord),
    (b"datalayout", TokenKind::Datalayout),
    (b"attributes", TokenKind::Attributes),
    (b"allocalign", TokenKind::ParameterWord),
];

/// The words of 11 bytes.
pub const WORDS_11: [(&[u8], TokenKind); 7] = [
    (b"catchswitch", TokenKind::RefusedWord),
    (b"elementtype", TokenKind::RefusedWord),
    (b"extern_weak", TokenKind::RefusedWord),
    (b"personality", TokenKind::RefusedWord),
    (b"insertvalue", TokenKind::RefusedWord),
    (b"unreachable", TokenKind::Unreachable),
    (b"initializes", TokenKind::ParameterGroup),
];

/// The words of 12 bytes.
pub const WORDS_12: [(&[u8], TokenKind); 8] = [
    (b"blockaddress", TokenKind::RefusedWord),
    (b"preallocated", TokenKind::RefusedWord),
    (b"thread_local", TokenKind::RefusedWord),
    (b"extractvalue", TokenKind::RefusedWord),
    (b"uselistorder", TokenKind::RefusedWord),
    (b"noduplicates", TokenKind::RefusedWord),
    (b"linkonce_odr", TokenKind::LinkonceOdr),
    (b"unnamed_addr", TokenKind::UnnamedAddr),
];

/// The words of 13 bytes.
pub const WORDS_13: [(&[u8], TokenKind); 5] = [
    (b"insertelement", TokenKind::RefusedWord),
    (b"shufflevector", TokenKind::RefusedWord),
    (b"addrspacecast", TokenKind::RefusedWord),
    (b"nodeduplicate", TokenKind::RefusedWord),
    (b"getelementptr", TokenKind::GetElementPtr),
];

/// The words of 14 bytes.
pub const WORDS_14: [(&[u8], TokenKind); 2] = [
    (b"extractelement", TokenKind::RefusedWord),
    (b"dead_on_unwind", TokenKind::ParameterWord),
];

/// The words of 15 bytes.
pub const WORDS_15: [(&[u8], TokenKind); 5] = [
    (b"uselistorder_bb", TokenKind::RefusedWord),
    (b"source_filename", TokenKind::SourceFilename),
    (b"dso_preemptable", TokenKind::Visibility),
    (b"zeroinitializer", TokenKind::ZeroInitializer),
    (b"dereferenceable", TokenKind::ParameterGroup),
];

/// The words of 18 bytes.
pub const WORDS_18: [(&[u8], TokenKind); 1] = [(b"local_unnamed_addr", TokenKind::UnnamedAddr)];

/// The words of 20 bytes.
pub const WORDS_20: [(&[u8], TokenKind); 1] = [(
    b"available_externally",
    TokenKind::AvailableExternally,
)];

/// The words of 21 bytes.
pub const WORDS_21: [(&[u8], TokenKind); 1] = [(
    b"null_pointer_is_valid",
    TokenKind::RefusedAttribute,
)];

/// The words of 22 bytes.
pub const WORDS_22: [(&[u8], TokenKind); 1] = [(b"externally_initialized", TokenKind::RefusedWord)];

/// The words of 23 bytes.
pub const WORDS_23: [(&[u8], TokenKind); 1] = [(
    b"dereferenceable_or_null",
    TokenKind::ParameterGroup,
)];

/// The kind that these rows give to a word; `Word` where none of them has it.
fn class_in(mut rows: &[(&[u8], TokenKind)], text: &[u8]) -> TokenKind
    ensures { result ≡ class_in (map (λ row. (row.0.now, row.1)) rows.entry.now) text.now }
{
    while let [row, others @ ..] = rows {
        if text == row.0 {
            return row.1;
        }
        rows = others;
    }
    TokenKind::Word
}

#[tactic(auto, unfolding(crate::specs::TokenKinds::words_1))]
fn words_1(text: &[u8]) -> TokenKind
    ensures { result ≡ words_1 text.now }
{
    class_in(&WORDS_1, text)
}

#[tactic(auto, unfolding(crate::specs::TokenKinds::words_2))]
fn words_2(text: &[u8]) -> TokenKind
    ensures { result ≡ words_2 text.now }
{
    class_in(&WORDS_2, text)
}

#[tactic(auto, unfolding(crate::specs::TokenKinds::words_3))]
fn words_3(text: &[u8]) -> TokenKind
    ensures { result ≡ words_3 text.now }
{
    class_in(&WORDS_3, text)
}

#[tactic(auto, unfolding(crate::specs::TokenKinds::words_4))]
fn words_4(text: &[u8]) -> TokenKind
    ensures { result ≡ words_4 text.now }
{
    class_in(&WORDS_4, text)
}

#[tactic(auto, unfolding(crate::specs::TokenKinds::words_5))]
fn words_5(text: &[u8]) -> TokenKind
    ensures { result ≡ words_5 text.now }
{
    class_in(&WORDS_5, text)
}

#[tactic(auto, unfolding(crate::specs::TokenKinds::words_6))]
fn words_6(text: &[u8]) -> TokenKind
    ensures { result ≡ words_6 text.now }
{
    class_in(&WORDS_6, text)
}

#[tactic(auto, unfolding(crate::specs::TokenKinds::words_7))]
fn words_7(text: &[u8]) -> TokenKind
    ensures { result ≡ words_7 text.now }
{
    class_in(&WORDS_7, text)
}

#[tactic(auto, unfolding(crate::specs::TokenKinds::words_8))]
fn words_8(text: &[u8]) -> TokenKind
    ensures { result ≡ words_8 text.now }
{
    class_in(&WORDS_8, text)
}

#[tactic(auto, unfolding(crate::specs::TokenKinds::words_9))]
fn words_9(text: &[u8]) -> TokenKind
    ensures { result ≡ words_9 text.now }
{
    class_in(&WORDS_9, text)
}

#[tactic(auto, unfolding(crate::specs::TokenKinds::words_10))]
fn words_10(text: &[u8]) -> TokenKind
    ensures { result ≡ words_10 text.now }
{
    class_in(&WORDS_10, text)
}

#[tactic(auto, unfolding(crate::specs::TokenKinds::words_11))]
fn words_11(text: &[u8]) -> TokenKind
    ensures { result ≡ words_11 text.now }
{
    class_in(&WORDS_11, text)
}

#[tactic(auto, unfolding(crate::specs::TokenKinds::words_12))]
fn words_12(text: &[u8]) -> TokenKind
    ensures { result ≡ words_12 text.now }
{
    class_in(&WORDS_12, text)
}

#[tactic(auto, unfolding(crate::specs::TokenKinds::words_13))]
fn words_13(text: &[u8]) -> TokenKind
    ensures { result ≡ words_13 text.now }
{
    class_in(&WORDS_13, text)
}

#[tactic(auto, unfolding(crate::specs::TokenKinds::words_14))]
fn words_14(text: &[u8]) -> TokenKind
    ensures { result ≡ words_14 text.now }
{
    class_in(&WORDS_14, text)
}

#[tactic(auto, unfolding(crate::specs::TokenKinds::words_15))]
fn words_15(text: &[u8]) -> TokenKind
    ensures { result ≡ words_15 text.now }
{
    class_in(&WORDS_15, text)
}

#[tactic(auto, unfolding(crate::specs::TokenKinds::words_18))]
fn words_18(text: &[u8]) -> TokenKind
    ensures { result ≡ words_18 text.now }
{
    class_in(&WORDS_18, text)
}

#[tactic(auto, unfolding(crate::specs::TokenKinds::words_20))]
fn words_20(text: &[u8]) -> TokenKind
    ensures { result ≡ words_20 text.now }
{
    class_in(&WORDS_20, text)
}

#[tactic(auto, unfolding(crate::specs::TokenKinds::words_21))]
fn words_21(text: &[u8]) -> TokenKind
    ensures { result ≡ words_21 text.now }
{
    class_in(&WORDS_21, text)
}

#[tactic(auto, unfolding(crate::specs::TokenKinds::words_22))]
fn words_22(text: &[u8]) -> TokenKind
    ensures { result ≡ words_22 text.now }
{
    class_in(&WORDS_22, text)
}

#[tactic(auto, unfolding(crate::specs::TokenKinds::words_23))]
fn words_23(text: &[u8]) -> TokenKind
    ensures { result ≡ words_23 text.now }
{
    class_in(&WORDS_23, text)
}

/// The kind of a word but for integer types: its entry in the list of words.
#[tactic(auto, unfolding(crate::specs::TokenKinds::listed_kind))]
pub fn listed_kind(text: &[u8]) -> TokenKind
    ensures { result ≡ listed_kind text.now }
{
    match text.len() {
        1 => words_1(text),
        2 => words_2(text),
        3 => words_3(text),
        4 => words_4(text),
        5 => words_5(text),
        6 => words_6(text),
        7 => words_7(text),
        8 => words_8(text),
        9 => words_9(text),
        10 => words_10(text),
        11 => words_11(text),
        12 => words_12(text),
        13 => words_13(text),
        14 => words_14(text),
        15 => words_15(text),
        18 => words_18(text),
        20 => words_20(text),
        21 => words_21(text),
        22 => words_22(text),
        23 => words_23(text),
        _ => TokenKind::Word,
    }
}
