// C's arithmetic at the edges of its types, by rows worked out on whole numbers by the rules of ISO/IEC 9899:1999.

use wf_num::{CTy, c_add, c_div, c_mul, c_rem, c_shl, c_shr, c_sub};

/// What int, unsigned int and unsigned long long answer.
type Answers = (Option<u64>, Option<u64>, Option<u64>);

/// Two operands, and the answers for int, unsigned int and unsigned long long.
type Row = (u64, u64, Answers);

const SUMS: &[Row] = &[
    (0, 0, (Some(0), Some(0), Some(0))),
    (0, 1, (Some(1), Some(1), Some(1))),
    (2147483647, 1, (None, Some(2147483648), Some(2147483648))),
    (
        2147483648,
        4294967295,
        (None, Some(2147483647), Some(6442450943)),
    ),
    (2147483648, 2147483648, (None, Some(0), Some(4294967296))),
    (4294967295, 1, (Some(0), Some(0), Some(4294967296))),
    (
        4294967295,
        4294967295,
        (Some(4294967294), Some(4294967294), Some(8589934590)),
    ),
    (
        9223372036854775808,
        9223372036854775808,
        (Some(0), Some(0), Some(0)),
    ),
    (18446744073709551615, 1, (Some(0), Some(0), Some(0))),
    (
        18446744073709551615,
        18446744073709551615,
        (
            Some(4294967294),
            Some(4294967294),
            Some(18446744073709551614),
        ),
    ),
];

const DIFFERENCES: &[Row] = &[
    (0, 0, (Some(0), Some(0), Some(0))),
    (
        0,
        1,
        (
            Some(4294967295),
            Some(4294967295),
            Some(18446744073709551615),
        ),
    ),
    (
        2147483647,
        2147483648,
        (None, Some(4294967295), Some(18446744073709551615)),
    ),
    (2147483648, 1, (None, Some(2147483647), Some(2147483647))),
    (2147483648, 2147483647, (None, Some(1), Some(1))),
    (
        4294967295,
        2147483648,
        (Some(2147483647), Some(2147483647), Some(2147483647)),
    ),
    (
        0,
        4294967295,
        (Some(1), Some(1), Some(18446744069414584321)),
    ),
    (
        9223372036854775808,
        1,
        (
            Some(4294967295),
            Some(4294967295),
            Some(9223372036854775807),
        ),
    ),
    (
        0,
        9223372036854775808,
        (Some(0), Some(0), Some(9223372036854775808)),
    ),
    (
        18446744073709551615,
        9223372036854775808,
        (
            Some(4294967295),
            Some(4294967295),
            Some(9223372036854775807),
        ),
    ),
];

const PRODUCTS: &[Row] = &[
    (0, 2147483648, (Some(0), Some(0), Some(0))),
    (
        1,
        2147483647,
        (Some(2147483647), Some(2147483647), Some(2147483647)),
    ),
    (65535, 65535, (None, Some(4294836225), Some(4294836225))),
    (46341, 46341, (None, Some(2147488281), Some(2147488281))),
    (
        2147483648,
        1,
        (Some(2147483648), Some(2147483648), Some(2147483648)),
    ),
    (
        2147483648,
        4294967295,
        (None, Some(2147483648), Some(9223372034707292160)),
    ),
    (
        4294967295,
        4294967295,
        (Some(1), Some(1), Some(18446744065119617025)),
    ),
    (
        2147483647,
        2147483647,
        (None, Some(1), Some(4611686014132420609)),
    ),
    (9223372036854775808, 2, (Some(0), Some(0), Some(0))),
    (
        18446744073709551615,
        18446744073709551615,
        (Some(1), Some(1), Some(1)),
    ),
];

const QUOTIENTS: &[Row] = &[
    (0, 0, (None, None, None)),
    (1, 0, (None, None, None)),
    (0, 1, (Some(0), Some(0), Some(0))),
    (
        2147483648,
        1,
        (Some(2147483648), Some(2147483648), Some(2147483648)),
    ),
    (2147483648, 4294967295, (None, Some(0), Some(0))),
    (2147483647, 4294967295, (Some(2147483649), Some(0), Some(0))),
    (4294967295, 2, (Some(0), Some(2147483647), Some(2147483647))),
    (7, 4294967294, (Some(4294967293), Some(0), Some(0))),
    (
        9223372036854775808,
        2147483648,
        (Some(0), Some(0), Some(4294967296)),
    ),
    (
        18446744073709551615,
        9223372036854775808,
        (None, None, Some(1)),
    ),
];

const REMAINDERS: &[Row] = &[
    (0, 0, (None, None, None)),
    (1, 0, (None, None, None)),
    (0, 1, (Some(0), Some(0), Some(0))),
    (2147483648, 1, (Some(0), Some(0), Some(0))),
    (
        2147483648,
        4294967295,
        (None, Some(2147483648), Some(2147483648)),
    ),
    (4294967295, 2, (Some(4294967295), Some(1), Some(1))),
    (4294967289, 2, (Some(4294967295), Some(1), Some(1))),
    (7, 4294967294, (Some(1), Some(7), Some(7))),
    (9223372036854775808, 2147483649, (Some(0), Some(0), Some(2))),
    (
        18446744073709551615,
        9223372036854775808,
        (None, None, Some(9223372036854775807)),
    ),
];

const LEFT_SHIFTS: &[Row] = &[
    (0, 0, (Some(0), Some(0), Some(0))),
    (
        1,
        30,
        (Some(1073741824), Some(1073741824), Some(1073741824)),
    ),
    (1, 31, (None, Some(2147483648), Some(2147483648))),
    (1, 32, (None, None, Some(4294967296))),
    (1, 63, (None, None, Some(9223372036854775808))),
    (1, 64, (None, None, None)),
    (2147483647, 1, (None, Some(4294967294), Some(4294967294))),
    (2147483648, 0, (None, Some(2147483648), Some(2147483648))),
    (4294967295, 1, (None, Some(4294967294), Some(8589934590))),
    (9223372036854775808, 1, (Some(0), Some(0), Some(0))),
    (0, 4294967296, (None, None, None)),
    (1, 18446744073709551615, (None, None, None)),
];

const RIGHT_SHIFTS: &[Row] = &[
    (0, 31, (Some(0), Some(0), Some(0))),
    (1, 1, (Some(0), Some(0), Some(0))),
    (2147483647, 30, (Some(1), Some(1), Some(1))),
    (2147483648, 31, (Some(4294967295), Some(1), Some(1))),
    (
        4294967295,
        1,
        (Some(4294967295), Some(2147483647), Some(2147483647)),
    ),
    (
        4294967289,
        1,
        (Some(4294967292), Some(2147483644), Some(2147483644)),
    ),
    (4294967295, 31, (Some(4294967295), Some(1), Some(1))),
    (4294967295, 32, (None, None, Some(0))),
    (9223372036854775808, 63, (None, None, Some(1))),
    (
        18446744073709551615,
        1,
        (
            Some(4294967295),
            Some(2147483647),
            Some(9223372036854775807),
        ),
    ),
    (1, 4294967296, (None, None, None)),
    (1, 18446744073709551615, (None, None, None)),
];

#[derive(Clone, Copy)]
enum Op {
    Add,
    Sub,
    Mul,
    Div,
    Rem,
    Shl,
    Shr,
}

fn answer(op: Op, ty: CTy, a: u64, b: u64) -> Option<u64> {
    match op {
        Op::Add => c_add(ty, a, b),
        Op::Sub => c_sub(ty, a, b),
        Op::Mul => c_mul(ty, a, b),
        Op::Div => c_div(ty, a, b),
        Op::Rem => c_rem(ty, a, b),
        Op::Shl => c_shl(ty, a, b),
        Op::Shr => c_shr(ty, a, b),
    }
}

fn hold(op: Op, rows: &[Row]) -> bool {
    for (a, b, expected) in rows {
        let came = (
            answer(op, CTy::Int, *a, *b),
            answer(op, CTy::U32, *a, *b),
            answer(op, CTy::U64, *a, *b),
        );
        if came != *expected {
            return false;
        }
    }
    true
}

fn operators_hold() -> bool {
    hold(Op::Add, SUMS)
        && hold(Op::Sub, DIFFERENCES)
        && hold(Op::Mul, PRODUCTS)
        && hold(Op::Div, QUOTIENTS)
        && hold(Op::Rem, REMAINDERS)
        && hold(Op::Shl, LEFT_SHIFTS)
        && hold(Op::Shr, RIGHT_SHIFTS)
}

#[test]
fn arithmetic_of_c(rt: HostRuntime) {
    assert!(rt; operators_hold());
}
