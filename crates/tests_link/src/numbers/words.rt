//! Operations on numbers: vectors computed outside, at widths 1, 7, 8, 33 and 64.
use lto_bits::{Answer, BinaryOp, DivisionCause, Flags, Predicate, binary, compare, narrow, widen};

const POISON: Answer = Answer::Poison;

const BY_ZERO: Answer = Answer::Undefined(DivisionCause::DivisionByZero);

const OVERFLOW: Answer = Answer::Undefined(DivisionCause::DivisionOverflow);

// An operation, a width, two operands, and what they give without flags and with all of them.
type Row = (BinaryOp, u8, u64, u64, Answer, Answer);

static OPERATIONS: [Row; 70] = [
    // Arithmetic.
    (BinaryOp::Add, 1, 1, 1, Answer::Value(0), POISON),
    (BinaryOp::Add, 7, 127, 1, Answer::Value(0), POISON),
    (
        BinaryOp::Add,
        8,
        57,
        24,
        Answer::Value(81),
        Answer::Value(81),
    ),
    (
        BinaryOp::Add,
        33,
        0xffffffff,
        1,
        Answer::Value(0x100000000),
        POISON,
    ),
    (
        BinaryOp::Add,
        64,
        0x7fffffffffffffff,
        1,
        Answer::Value(0x8000000000000000),
        POISON,
    ),
    (
        BinaryOp::Add,
        64,
        0xffffffffffffffff,
        2,
        Answer::Value(1),
        POISON,
    ),
    (BinaryOp::Sub, 1, 1, 1, Answer::Value(0), Answer::Value(0)),
    (BinaryOp::Sub, 7, 0, 1, Answer::Value(127), POISON),
    (
        BinaryOp::Sub,
        8,
        75,
        5,
        Answer::Value(70),
        Answer::Value(70),
    ),
    (
        BinaryOp::Sub,
        33,
        0x100000000,
        1,
        Answer::Value(0xffffffff),
        POISON,
    ),
    (
        BinaryOp::Sub,
        64,
        0x8000000000000000,
        1,
        Answer::Value(0x7fffffffffffffff),
        POISON,
    ),
    (
        BinaryOp::Sub,
        64,
        1,
        2,
        Answer::Value(0xffffffffffffffff),
        POISON,
    ),
    (BinaryOp::Mul, 1, 1, 1, Answer::Value(1), POISON),
    (BinaryOp::Mul, 7, 126, 3, Answer::Value(122), POISON),
    (BinaryOp::Mul, 8, 0, 7, Answer::Value(0), Answer::Value(0)),
    (
        BinaryOp::Mul,
        33,
        0x100000000,
        0x1ffffffff,
        Answer::Value(0x100000000),
        POISON,
    ),
    (
        BinaryOp::Mul,
        64,
        0xfffffffffffffffe,
        3,
        Answer::Value(0xfffffffffffffffa),
        POISON,
    ),
    // Divisions.
    (BinaryOp::Udiv, 1, 1, 1, Answer::Value(1), Answer::Value(1)),
    (BinaryOp::Udiv, 7, 12, 4, Answer::Value(3), Answer::Value(3)),
    (BinaryOp::Udiv, 8, 5, 0, BY_ZERO, BY_ZERO),
    (BinaryOp::Udiv, 8, 249, 2, Answer::Value(124), POISON),
    (
        BinaryOp::Udiv,
        33,
        0x1fffffff9,
        2,
        Answer::Value(0xfffffffc),
        POISON,
    ),
    (
        BinaryOp::Udiv,
        64,
        0xfffffffffffffff9,
        2,
        Answer::Value(0x7ffffffffffffffc),
        POISON,
    ),
    (BinaryOp::Sdiv, 1, 1, 1, OVERFLOW, OVERFLOW),
    (BinaryOp::Sdiv, 7, 100, 5, Answer::Value(123), POISON),
    (BinaryOp::Sdiv, 8, 5, 0, BY_ZERO, BY_ZERO),
    (BinaryOp::Sdiv, 8, 249, 2, Answer::Value(253), POISON),
    (
        BinaryOp::Sdiv,
        33,
        0x100000000,
        0x1ffffffff,
        OVERFLOW,
        OVERFLOW,
    ),
    (
        BinaryOp::Sdiv,
        64,
        0xfffffffffffffff9,
        2,
        Answer::Value(0xfffffffffffffffd),
        POISON,
    ),
    (BinaryOp::Urem, 1, 1, 1, Answer::Value(0), Answer::Value(0)),
    (BinaryOp::Urem, 7, 12, 4, Answer::Value(0), Answer::Value(0)),
    (
        BinaryOp::Urem,
        8,
        249,
        7,
        Answer::Value(4),
        Answer::Value(4),
    ),
    (
        BinaryOp::Urem,
        33,
        0x1fffffff9,
        2,
        Answer::Value(1),
        Answer::Value(1),
    ),
    (
        BinaryOp::Urem,
        64,
        0xfffffffffffffff9,
        2,
        Answer::Value(1),
        Answer::Value(1),
    ),
    (BinaryOp::Srem, 1, 1, 1, OVERFLOW, OVERFLOW),
    (
        BinaryOp::Srem,
        7,
        100,
        5,
        Answer::Value(125),
        Answer::Value(125),
    ),
    (BinaryOp::Srem, 8, 5, 0, BY_ZERO, BY_ZERO),
    (
        BinaryOp::Srem,
        8,
        249,
        2,
        Answer::Value(255),
        Answer::Value(255),
    ),
    (
        BinaryOp::Srem,
        33,
        0x100000000,
        0x1ffffffff,
        OVERFLOW,
        OVERFLOW,
    ),
    (
        BinaryOp::Srem,
        64,
        0xfffffffffffffff9,
        2,
        Answer::Value(0xffffffffffffffff),
        Answer::Value(0xffffffffffffffff),
    ),
    // Shifts.
    (BinaryOp::Shl, 1, 1, 0, Answer::Value(1), Answer::Value(1)),
    (BinaryOp::Shl, 7, 4, 2, Answer::Value(16), Answer::Value(16)),
    (BinaryOp::Shl, 8, 144, 4, Answer::Value(0), POISON),
    (BinaryOp::Shl, 33, 0x100000008, 33, POISON, POISON),
    (
        BinaryOp::Shl,
        64,
        4,
        2,
        Answer::Value(16),
        Answer::Value(16),
    ),
    (BinaryOp::Lshr, 1, 1, 0, Answer::Value(1), Answer::Value(1)),
    (BinaryOp::Lshr, 7, 16, 2, Answer::Value(4), Answer::Value(4)),
    (
        BinaryOp::Lshr,
        8,
        144,
        4,
        Answer::Value(9),
        Answer::Value(9),
    ),
    (BinaryOp::Lshr, 33, 0x100000008, 33, POISON, POISON),
    (
        BinaryOp::Lshr,
        64,
        12,
        2,
        Answer::Value(3),
        Answer::Value(3),
    ),
    (BinaryOp::Ashr, 1, 1, 0, Answer::Value(1), Answer::Value(1)),
    (BinaryOp::Ashr, 7, 16, 2, Answer::Value(4), Answer::Value(4)),
    (
        BinaryOp::Ashr,
        8,
        144,
        4,
        Answer::Value(249),
        Answer::Value(249),
    ),
    (BinaryOp::Ashr, 33, 0x100000008, 33, POISON, POISON),
    (
        BinaryOp::Ashr,
        64,
        28,
        2,
        Answer::Value(7),
        Answer::Value(7),
    ),
    // Bitwise operations.
    (BinaryOp::And, 1, 1, 1, Answer::Value(1), Answer::Value(1)),
    (BinaryOp::And, 7, 0, 54, Answer::Value(0), Answer::Value(0)),
    (
        BinaryOp::And,
        8,
        107,
        26,
        Answer::Value(10),
        Answer::Value(10),
    ),
    (
        BinaryOp::And,
        33,
        0x178511608,
        0x165bd9acb,
        Answer::Value(0x160111208),
        Answer::Value(0x160111208),
    ),
    (
        BinaryOp::And,
        64,
        0x563e9bed45100358,
        0x552454f14fab6f3e,
        Answer::Value(0x542410e145000318),
        Answer::Value(0x542410e145000318),
    ),
    (BinaryOp::Or, 1, 1, 1, Answer::Value(1), Answer::Value(1)),
    (
        BinaryOp::Or,
        7,
        104,
        30,
        Answer::Value(126),
        Answer::Value(126),
    ),
    (
        BinaryOp::Or,
        8,
        68,
        126,
        Answer::Value(126),
        Answer::Value(126),
    ),
    (
        BinaryOp::Or,
        33,
        0xb4ff00ae,
        0x2cdf2af,
        Answer::Value(0xb6fff2af),
        Answer::Value(0xb6fff2af),
    ),
    (
        BinaryOp::Or,
        64,
        0xcc099a1e77064c2c,
        0x21870f0bc4ff64de,
        Answer::Value(0xed8f9f1ff7ff6cfe),
        Answer::Value(0xed8f9f1ff7ff6cfe),
    ),
    (BinaryOp::Xor, 1, 1, 1, Answer::Value(0), Answer::Value(0)),
    (
        BinaryOp::Xor,
        7,
        98,
        29,
        Answer::Value(127),
        Answer::Value(127),
    ),
    (
        BinaryOp::Xor,
        8,
        202,
        215,
        Answer::Value(29),
        Answer::Value(29),
    ),
    (
        BinaryOp::Xor,
        33,
        0xfd741069,
        0x1001edc8e,
        Answer::Value(0x1fd6acce7),
        Answer::Value(0x1fd6acce7),
    ),
    (
        BinaryOp::Xor,
        64,
        0x97bdd982cdac6046,
        0xe286852cff769e37,
        Answer::Value(0x753b5cae32dafe71),
        Answer::Value(0x753b5cae32dafe71),
    ),
];

// A width, two operands, and whether each condition holds, in the order of `PREDICATES`.
static COMPARISONS: [(u8, u64, u64, [bool; 10]); 18] = [
    (
        1,
        0,
        1,
        [
            false, true, false, false, true, true, true, true, false, false,
        ],
    ),
    (
        1,
        1,
        1,
        [
            true, false, false, true, false, true, false, true, false, true,
        ],
    ),
    (
        7,
        64,
        63,
        [
            false, true, true, true, false, false, false, false, true, true,
        ],
    ),
    (
        7,
        126,
        127,
        [
            false, true, false, false, true, true, false, false, true, true,
        ],
    ),
    (
        7,
        43,
        43,
        [
            true, false, false, true, false, true, false, true, false, true,
        ],
    ),
    (
        7,
        3,
        78,
        [
            false, true, false, false, true, true, true, true, false, false,
        ],
    ),
    (
        8,
        128,
        127,
        [
            false, true, true, true, false, false, false, false, true, true,
        ],
    ),
    (
        8,
        254,
        255,
        [
            false, true, false, false, true, true, false, false, true, true,
        ],
    ),
    (
        8,
        252,
        252,
        [
            true, false, false, true, false, true, false, true, false, true,
        ],
    ),
    (
        8,
        3,
        143,
        [
            false, true, false, false, true, true, true, true, false, false,
        ],
    ),
    (
        33,
        0x100000000,
        0xffffffff,
        [
            false, true, true, true, false, false, false, false, true, true,
        ],
    ),
    (
        33,
        0x1fffffffe,
        0x1ffffffff,
        [
            false, true, false, false, true, true, false, false, true, true,
        ],
    ),
    (
        33,
        0x49952399,
        0x49952399,
        [
            true, false, false, true, false, true, false, true, false, true,
        ],
    ),
    (
        33,
        3,
        0x1bd0561e6,
        [
            false, true, false, false, true, true, true, true, false, false,
        ],
    ),
    (
        64,
        0x8000000000000000,
        0x7fffffffffffffff,
        [
            false, true, true, true, false, false, false, false, true, true,
        ],
    ),
    (
        64,
        0xfffffffffffffffe,
        0xffffffffffffffff,
        [
            false, true, false, false, true, true, false, false, true, true,
        ],
    ),
    (
        64,
        0x7f1b103cdf1582b0,
        0x7f1b103cdf1582b0,
        [
            true, false, false, true, false, true, false, true, false, true,
        ],
    ),
    (
        64,
        3,
        0xf2fdf2022a96fb1a,
        [
            false, true, false, false, true, true, true, true, false, false,
        ],
    ),
];

static PREDICATES: [Predicate; 10] = [
    Predicate::Eq,
    Predicate::Ne,
    Predicate::Ugt,
    Predicate::Uge,
    Predicate::Ult,
    Predicate::Ule,
    Predicate::Sgt,
    Predicate::Sge,
    Predicate::Slt,
    Predicate::Sle,
];

// Two widths, a number of the first, and what `zext` and `sext` make of it.
static WIDENED: [(u8, u8, u64, u64, u64); 25] = [
    (1, 1, 1, 1, 1),
    (1, 7, 1, 1, 127),
    (1, 8, 1, 1, 255),
    (1, 33, 1, 1, 0x1ffffffff),
    (1, 64, 1, 1, 0xffffffffffffffff),
    (7, 7, 65, 65, 65),
    (7, 7, 63, 63, 63),
    (7, 8, 65, 65, 193),
    (7, 8, 63, 63, 63),
    (7, 33, 65, 65, 0x1ffffffc1),
    (7, 33, 63, 63, 63),
    (7, 64, 65, 65, 0xffffffffffffffc1),
    (7, 64, 63, 63, 63),
    (8, 8, 129, 129, 129),
    (8, 8, 127, 127, 127),
    (8, 33, 129, 129, 0x1ffffff81),
    (8, 33, 127, 127, 127),
    (8, 64, 129, 129, 0xffffffffffffff81),
    (8, 64, 127, 127, 127),
    (33, 33, 0x100000001, 0x100000001, 0x100000001),
    (33, 33, 0xffffffff, 0xffffffff, 0xffffffff),
    (33, 64, 0x100000001, 0x100000001, 0xffffffff00000001),
    (33, 64, 0xffffffff, 0xffffffff, 0xffffffff),
    (
        64,
        64,
        0x8000000000000001,
        0x8000000000000001,
        0x8000000000000001,
    ),
    (
        64,
        64,
        0x7fffffffffffffff,
        0x7fffffffffffffff,
        0x7fffffffffffffff,
    ),
];

// A width, a number, and what `trunc` makes of it.
static NARROWED: [(u8, u64, u64); 5] = [
    (1, 0x8d8b5d76ef79e599, 1),
    (7, 0xe306343ece8bbaf0, 112),
    (8, 0xd09f17beaaa65a91, 145),
    (33, 0xdc0d536ee79d675f, 0xe79d675f),
    (64, 0x4665df2a0570fdb0, 0x4665df2a0570fdb0),
];

const NONE: Flags = Flags {
    nuw: false,
    nsw: false,
    exact: false,
};

const ALL: Flags = Flags {
    nuw: true,
    nsw: true,
    exact: true,
};

#[test]
fn operations_agree_with_outside_vectors(rt: HostRuntime) {
    for &(op, w, a, b, plain, flagged) in &OPERATIONS {
        assert!(rt; w >= 1 && w <= 64, "{w}");
        let (a, b) = (narrow(w, a), narrow(w, b));
        assert_eq!(rt; binary(op, NONE, w, a, b), plain, "{op:?} i{w} {a}, {b}");
        assert_eq!(rt;
            binary(op, ALL, w, a, b),
            flagged,
            "{op:?} i{w} {a}, {b} with flags"
        );
    }
}

#[test]
fn comparisons_agree_with_outside_vectors(rt: HostRuntime) {
    for &(w, a, b, holds) in &COMPARISONS {
        assert!(rt; w >= 1 && w <= 64, "{w}");
        let (a, b) = (narrow(w, a), narrow(w, b));
        for i in 0..10 {
            assert_eq!(rt;
                compare(PREDICATES[i], w, a, b),
                holds[i],
                "{i} i{w} {a}, {b}"
            );
        }
    }
}

#[test]
fn casts_agree_with_outside_vectors(rt: HostRuntime) {
    for &(from, to, a, zero_extended, sign_extended) in &WIDENED {
        assert!(rt; from >= 1 && from <= to && to <= 64, "{from} to {to}");
        let a = narrow(from, a);
        assert_eq!(rt;
            widen(false, from, to, a),
            zero_extended,
            "zext i{from} {a} to i{to}"
        );
        assert_eq!(rt;
            widen(true, from, to, a),
            sign_extended,
            "sext i{from} {a} to i{to}"
        );
    }
    for &(to, a, kept) in &NARROWED {
        assert!(rt; to >= 1 && to <= 64, "{to}");
        assert_eq!(rt; narrow(to, a), kept, "trunc {a} to i{to}");
    }
}
