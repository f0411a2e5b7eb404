//! Relations over numbers at their bounds, by the program and by the evaluator. The trees are put
//! together by hand.

use crate::comparisons::compare;
use crate::same::same;
use filtergen::{Refusal, Verdict, compile, evaluate, need, weight};
use filterlang::{Comparison, Expr, Layer, Operator, Size, Value};
use std::process::Abort;

fn binary(rt: &(impl Abort + AllocGlobal), left: Value, operator: Operator, right: Value) -> Value {
    let left = Box::new(rt.alloc(), left).expect(rt, "there is memory");
    let right = Box::new(rt.alloc(), right).expect(rt, "there is memory");
    Value::Binary(operator, left, right)
}

fn accessor(rt: &(impl Abort + AllocGlobal), layer: Layer, index: Value, size: Size) -> Value {
    let index = Box::new(rt.alloc(), index).expect(rt, "there is memory");
    Value::Accessor(layer, index, size)
}

fn equal(left: Value, right: u32) -> Expr {
    Expr::Relation(Comparison::Equal, left, Value::Number(right))
}

// What an expression answers, by its program too.
fn answer(rt: &impl Abort, expr: &Expr, packet: &[u8], wire: u32) -> Verdict {
    let program = compile(expr, 96).expect(rt, "the expression compiles");
    compare(rt, expr, &program, packet, wire);
    evaluate(expr, packet, wire)
}

// A tree that no text reads as: len / 0 = 1, len % 0 = 1
fn by_zero(rt: &(impl Abort + AllocGlobal), operator: Operator) -> Expr {
    equal(binary(rt, Value::Length, operator, Value::Number(0)), 1)
}

fn negated(rt: &(impl Abort + AllocGlobal), expr: Expr) -> Expr {
    Expr::Not(Box::new(rt.alloc(), expr).expect(rt, "there is memory"))
}

// That an expression aborts on no byte.
fn aborts(rt: &impl Abort, expr: Expr) {
    same(rt, answer(rt, &expr, &[], 38), Verdict::Abort);
}

#[test]
fn a_divisor_of_zero_aborts_under_a_negation_too(rt: HostRuntime) {
    for operator in [Operator::Divide, Operator::Modulo] {
        aborts(&rt, by_zero(&rt, operator));
        aborts(&rt, negated(&rt, by_zero(&rt, operator)));
    }
}

/// Numbers at which an operator may slip.
static NUMBERS: [u32; 12] = [
    0,
    1,
    2,
    30,
    31,
    32,
    33,
    0x7fff_ffff,
    0x8000_0000,
    0x8000_0001,
    u32::MAX - 1,
    u32::MAX,
];

static OPERATORS: [Operator; 10] = [
    Operator::Plus,
    Operator::Minus,
    Operator::Times,
    Operator::Divide,
    Operator::Modulo,
    Operator::BitAnd,
    Operator::BitXor,
    Operator::BitOr,
    Operator::ShiftLeft,
    Operator::ShiftRight,
];

// What an operator makes of two numbers, by numbers of 128 bits.
fn made(operator: Operator, a: u32, b: u32) -> Option<u32> {
    let (x, y) = (u128::from(a), u128::from(b));
    let wide = match operator {
        Operator::Plus => x + y,
        Operator::Minus => x + (1 << 32) - y,
        Operator::Times => x * y,
        Operator::Divide => x.checked_div(y)?,
        Operator::Modulo => x.checked_rem(y)?,
        Operator::BitAnd => x & y,
        Operator::BitXor => (x | y).wrapping_sub(x & y),
        Operator::BitOr => x + y - (x & y),
        Operator::ShiftLeft => if b < 32 { x << b } else { 0 },
        Operator::ShiftRight => if b < 32 { x >> b } else { 0 },
    };
    Some((wide & 0xffff_ffff) as u32)
}

// A frame that begins with two numbers.
fn frame_of(a: u32, b: u32) -> [u8; 8] {
    let [p, q, r, s] = a.to_be_bytes();
    let [t, u, v, w] = b.to_be_bytes();
    [p, q, r, s, t, u, v, w]
}

// A number of the frame.
fn word(rt: &(impl Abort + AllocGlobal), index: u32) -> Value {
    accessor(rt, Layer::Ether, Value::Number(index), Size::Four)
}

// The operands as the frame's two numbers, as a literal, and as the wire length.
fn operands(rt: &(impl Abort + AllocGlobal), form: u32, a: u32, b: u32) -> (Value, Value) {
    match form {
        0 => (word(rt, 0), word(rt, 4)),
        1 => (word(rt, 0), Value::Number(b)),
        2 => (Value::Number(a), word(rt, 4)),
        3 => (Value::Length, word(rt, 4)),
        4 => (word(rt, 0), Value::Length),
        _ => (Value::Number(a), Value::Number(b)),
    }
}

fn is_expected(
    rt: &impl Abort,
    expr: &Expr,
    numbers: (u32, u32),
    verdict: Verdict,
    expected: Verdict,
) {
    assert_eq!(rt; verdict, expected, "{expr:?} of {numbers:?}");
}

// That a relation over operands in this form answers so of two numbers.
fn answers_of(rt: &impl Abort, expr: Expr, form: u32, a: u32, b: u32, expected: Verdict) {
    let wire = if form == 3 { a } else { b };
    let verdict = answer(rt, &expr, &frame_of(a, b), wire);
    is_expected(rt, &expr, (a, b), verdict, expected);
}

// An operator over two numbers, in each form of operands.
fn operator_of(rt: &(impl Abort + AllocGlobal), operator: Operator, a: u32, b: u32) {
    let (number, expected) = match made(operator, a, b) {
        Some(number) => (number, Verdict::Yes),
        None => (0, Verdict::Abort),
    };
    for form in 0..6u32 {
        let (left, right) = operands(rt, form, a, b);
        let expr = equal(binary(rt, left, operator, right), number);
        answers_of(rt, expr, form, a, b, expected);
    }
}

#[test]
fn every_operator_at_the_bounds(rt: HostRuntime) {
    for operator in OPERATORS.iter() {
        for a in NUMBERS.iter() {
            for b in NUMBERS.iter() {
                operator_of(&rt, *operator, *a, *b);
            }
        }
    }
}

// A comparison of two numbers, in each form of operands.
fn comparison_of(
    rt: &(impl Abort + AllocGlobal),
    comparison: Comparison,
    a: u32,
    b: u32,
    holds: bool,
) {
    let expected = if holds { Verdict::Yes } else { Verdict::No };
    for form in 0..6u32 {
        let (left, right) = operands(rt, form, a, b);
        let expr = Expr::Relation(comparison, left, right);
        answers_of(rt, expr, form, a, b, expected);
    }
}

fn comparisons_of(rt: &(impl Abort + AllocGlobal), a: u32, b: u32) {
    comparison_of(rt, Comparison::Equal, a, b, a == b);
    comparison_of(rt, Comparison::NotEqual, a, b, a != b);
    comparison_of(rt, Comparison::Less, a, b, a < b);
    comparison_of(rt, Comparison::Greater, a, b, a > b);
    comparison_of(rt, Comparison::LessOrEqual, a, b, a <= b);
    comparison_of(rt, Comparison::GreaterOrEqual, a, b, a >= b);
}

#[test]
fn every_comparison_at_the_bounds(rt: HostRuntime) {
    for a in NUMBERS.iter() {
        for b in NUMBERS.iter() {
            comparisons_of(&rt, *a, *b);
        }
    }
}

// udp[udp[.. udp[len] ..]], with this many accessors: more than a text may open.
fn accessors(rt: &(impl Abort + AllocGlobal), times: u32) -> Value {
    let mut value = Value::Length;
    for _ in 0..times {
        value = accessor(rt, Layer::Udp, value, Size::One);
    }
    value
}

/// An expression needs and weighs this much, and is too long.
fn is_too_long(rt: &impl Abort, expr: Expr, want: (u64, u64)) {
    same(rt, (need(&expr), weight(&expr)), want);
    same(rt, compile(&expr, 96).err(), Some(Refusal::TooLong));
}

#[test]
fn heavy_relations_are_too_long(rt: HostRuntime) {
    is_too_long(&rt, equal(accessors(&rt, 200), 0), (1, 4_010));
}
