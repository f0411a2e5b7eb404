//! Random relations, by their programs and by the evaluator, on frames that are cut at each byte.

use crate::comparisons::{Random, compare_cut, frames, program_of, wire_of};
use bpfvm::Program;
use filtergen::{Verdict, evaluate};
use filterlang::{Comparison, Expr, Layer, Operator, Size, Value};
use std::process::Abort;

static LAYERS: [Layer; 7] = [
    Layer::Ether,
    Layer::Ip,
    Layer::Arp,
    Layer::Rarp,
    Layer::Tcp,
    Layer::Udp,
    Layer::Icmp,
];

static SIZES: [Size; 3] = [Size::One, Size::Two, Size::Four];

static OPERATORS: [Operator; 10] = [
    Operator::Plus,
    Operator::Minus,
    Operator::Times,
    Operator::Divide,
    Operator::Modulo,
    Operator::BitAnd,
    Operator::BitXor,
    Operator::BitOr,
    Operator::ShiftLeft,
    Operator::ShiftRight,
];

static COMPARISONS: [Comparison; 6] = [
    Comparison::Equal,
    Comparison::NotEqual,
    Comparison::Less,
    Comparison::Greater,
    Comparison::LessOrEqual,
    Comparison::GreaterOrEqual,
];

/// Numbers that a frame has, and those at which a sum or a shift turns.
static NUMBERS: [u32; 12] = [
    0,
    1,
    4,
    12,
    20,
    32,
    53,
    0x0800,
    0x8000_0000,
    u32::MAX - 80,
    u32::MAX - 13,
    u32::MAX,
];

fn random_number(random: &mut Random) -> u32 {
    if random.below(2) == 0 {
        NUMBERS[random.below(12)]
    } else {
        random.below(60) as u32
    }
}

fn random_leaf(random: &mut Random) -> Value {
    if random.below(4) == 0 {
        Value::Length
    } else {
        Value::Number(random_number(random))
    }
}

fn boxed(rt: &(impl Abort + AllocGlobal), value: Value) -> Box<Value> {
    Box::new(rt.alloc(), value).expect(rt, "there is memory")
}

fn random_accessor(rt: &(impl Abort + AllocGlobal), random: &mut Random, index: Value) -> Value {
    let (layer, size) = (LAYERS[random.below(7)], SIZES[random.below(3)]);
    Value::Accessor(layer, boxed(rt, index), size)
}

// An operator over two values, in either order.
fn random_binary(
    rt: &(impl Abort + AllocGlobal),
    random: &mut Random,
    one: Value,
    other: Value,
) -> Value {
    let (one, other) = (boxed(rt, one), boxed(rt, other));
    let (left, right) = if random.below(2) == 0 {
        (one, other)
    } else {
        (other, one)
    };
    Value::Binary(OPERATORS[random.below(10)], left, right)
}

// A value under a sign.
fn random_sign(rt: &(impl Abort + AllocGlobal), random: &mut Random, value: Value) -> Value {
    match random.below(6) {
        0 => Value::Negation(boxed(rt, value)),
        1 | 2 => {
            let leaf = random_leaf(random);
            random_binary(rt, random, value, leaf)
        }
        _ => random_accessor(rt, random, value),
    }
}

// A leaf under up to three signs.
fn random_chain(rt: &(impl Abort + AllocGlobal), random: &mut Random) -> Value {
    let mut value = random_leaf(random);
    for _ in 0..random.below(4) {
        value = random_sign(rt, random, value);
    }
    value
}

// Up to three chains, joined by operators.
fn random_value(rt: &(impl Abort + AllocGlobal), random: &mut Random) -> Value {
    let mut value = random_chain(rt, random);
    for _ in 0..random.below(3) {
        let other = random_chain(rt, random);
        value = random_binary(rt, random, value, other);
    }
    value
}

pub(crate) fn random_relation(rt: &(impl Abort + AllocGlobal), random: &mut Random) -> Expr {
    let comparison = COMPARISONS[random.below(6)];
    let left = random_value(rt, random);
    let right = if random.below(2) == 0 {
        Value::Number(random_number(random))
    } else {
        random_value(rt, random)
    };
    Expr::Relation(comparison, left, right)
}

/// How often each answer came.
#[derive(Clone, Copy)]
pub(crate) struct Answers {
    pub yes: u32,
    pub no: u32,
    pub abort: u32,
}

impl Answers {
    fn count(&mut self, verdict: Verdict) {
        match verdict {
            Verdict::Yes => self.yes = self.yes.saturating_add(1),
            Verdict::No => self.no = self.no.saturating_add(1),
            Verdict::Abort => self.abort = self.abort.saturating_add(1),
        }
    }
}

// A relation compared on every frame, and its answers to whole ones counted.
fn counted(
    rt: &impl Abort,
    expr: &Expr,
    program: &Program,
    frames: &[Vec<u8>],
    answers: &mut Answers,
) {
    for frame in frames {
        let frame = frame.as_slice();
        compare_cut(rt, expr, program, frame);
        answers.count(evaluate(expr, frame, wire_of(frame)));
    }
}

// Compares a relation on every frame and counts its answers, unless its program is too long.
pub(crate) fn compared(rt: &impl Abort, expr: Expr, frames: &[Vec<u8>], answers: &mut Answers) {
    if let Some(program) = program_of(rt, &expr) {
        counted(rt, &expr, &program, frames, answers);
    }
}

#[test]
fn two_thousand_random_relations_on_frames_cut_at_each_byte(rt: HostRuntime) {
    let frames = frames(&rt);
    let mut random = Random { state: 1997 };
    let mut answers = Answers {
        yes: 0,
        no: 0,
        abort: 0,
    };
    for _ in 0..2000u32 {
        let expr = random_relation(&rt, &mut random);
        compared(&rt, expr, frames.as_slice(), &mut answers);
    }
    // Each answer comes often.
    let Answers { yes, no, abort } = answers;
    assert!(rt;
        yes > 2_000 && no > 8_000 && abort > 500,
        "{yes} {no} {abort}"
    );
}
