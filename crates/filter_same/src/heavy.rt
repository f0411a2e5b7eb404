//! What in a filter takes many nodes or the length of the IPv4 header, by its form.

use crate::filters::Filter;
use bpfvm::Insn;
use filter_diagrams::{Action, LoadSource, Operand, Register, action_of};
use filter_tree::headers::ETHER_HDR_LEN;
use filter_tree::{Expr, Layer, Operator, Primitive, Value};

/// An offset of a layer that is far from its first byte.
const FAR: u32 = 1 << 16;

/// Where the IPv4 header begins.
const NETWORK: u32 = ETHER_HDR_LEN as u32;

/// What takes many nodes. Nearly all bits of a product or a quotient rest on nearly all bits of
/// both operands.
#[derive(Clone, Copy, Debug, PartialEq, Eq)]
pub(crate) enum Heavy {
    /// A product of two numbers that are no constants.
    Product,
    /// A quotient or a remainder by a number that is no constant.
    Quotient,
    /// Bytes at an index that is no constant.
    Load,
}

/// What is heavy of an operator between two numbers that are no constants.
fn heavy_operator(operator: Operator) -> Option<Heavy> {
    match operator {
        Operator::Times => Some(Heavy::Product),
        Operator::Divide | Operator::Modulo => Some(Heavy::Quotient),
        _ => None,
    }
}

/// Whether a value is the same number of every packet.
fn is_constant(value: &Value) -> bool {
    match value {
        Value::Number(_) => true,
        Value::Length | Value::Accessor(_, _, _) => false,
        Value::Negation(operand) => is_constant(operand),
        Value::Binary(_, left, right) => is_constant(left) && is_constant(right),
    }
}

/// What is heavy of an operator between two values. A quotient of a constant is, and one by a
/// constant is not.
fn heavy_between(operator: Operator, left: &Value, right: &Value) -> Option<Heavy> {
    let heavy = heavy_operator(operator)?;
    let by_constant = is_constant(right) || heavy == Heavy::Product && is_constant(left);
    if by_constant { None } else { Some(heavy) }
}

/// The first of two that there is.
fn first_of(one: Option<Heavy>, other: Option<Heavy>) -> Option<Heavy> {
    if one.is_some() { one } else { other }
}

/// What is heavy in a value, its operators before their operands.
fn heavy_value(value: &Value) -> Option<Heavy> {
    match value {
        Value::Number(_) | Value::Length => None,
        Value::Negation(operand) => heavy_value(operand),
        Value::Binary(operator, left, right) => {
            let inner = first_of(heavy_value(left), heavy_value(right));
            first_of(heavy_between(*operator, left, right), inner)
        }
        Value::Accessor(_, index, _) => {
            let load = if is_constant(index) {
                None
            } else {
                Some(Heavy::Load)
            };
            first_of(heavy_value(index), load)
        }
    }
}

/// Whether a value looks at bytes that may be far from the first one.
fn looks_far(value: &Value) -> bool {
    match value {
        Value::Number(_) | Value::Length => false,
        Value::Negation(operand) => looks_far(operand),
        Value::Binary(_, left, right) => looks_far(left) || looks_far(right),
        Value::Accessor(_, index, _) => !is_near(index) || looks_far(index),
    }
}

/// Whether an index is a small number.
fn is_near(index: &Value) -> bool {
    match index {
        Value::Number(number) => *number < FAR,
        _ => false,
    }
}

/// Whether an expression looks at bytes that may be far from the first one.
fn expression_looks_far(expr: &Expr) -> bool {
    match expr {
        Expr::Everything | Expr::Test(_) => false,
        Expr::Relation(_, left, right) => looks_far(left) || looks_far(right),
        Expr::Not(operand) => expression_looks_far(operand),
        Expr::And(left, right) | Expr::Or(left, right) => {
            expression_looks_far(left) || expression_looks_far(right)
        }
    }
}

/// Whether a value has bytes after the IPv4 header.
fn value_asks_header(value: &Value) -> bool {
    match value {
        Value::Number(_) | Value::Length => false,
        Value::Negation(operand) => value_asks_header(operand),
        Value::Binary(_, left, right) => value_asks_header(left) || value_asks_header(right),
        Value::Accessor(layer, index, _) => {
            matches!(layer, Layer::Tcp | Layer::Udp | Layer::Icmp) || value_asks_header(index)
        }
    }
}

/// Whether an expression asks for the length of the IPv4 header.
fn expression_asks_header(expr: &Expr) -> bool {
    match expr {
        Expr::Everything => false,
        Expr::Test(asked) => matches!(asked, Primitive::Ports { .. }),
        Expr::Relation(_, left, right) => value_asks_header(left) || value_asks_header(right),
        Expr::Not(operand) => expression_asks_header(operand),
        Expr::And(left, right) | Expr::Or(left, right) => {
            expression_asks_header(left) || expression_asks_header(right)
        }
    }
}

/// Whether an instruction looks at bytes that may be far from the first one.
fn instruction_looks_far(insn: &Insn) -> bool {
    match action_of(insn.code) {
        Some(Action::Load(_, LoadSource::Indirect(_))) => true,
        Some(Action::Load(_, LoadSource::Absolute(_) | LoadSource::HeaderLength)) => insn.k >= FAR,
        _ => false,
    }
}

/// What is heavy in an expression, from the left.
fn heavy_expression(expr: &Expr) -> Option<Heavy> {
    match expr {
        Expr::Everything | Expr::Test(_) => None,
        Expr::Relation(_, left, right) => first_of(heavy_value(left), heavy_value(right)),
        Expr::Not(operand) => heavy_expression(operand),
        Expr::And(left, right) | Expr::Or(left, right) => {
            first_of(heavy_expression(left), heavy_expression(right))
        }
    }
}

/// The bit of a cell.
fn bit_of(cell: u32) -> u16 {
    1 << (cell % 16)
}

/// Which numbers of a program are constants, its instructions taken in turn.
#[derive(Clone, Copy, Debug, PartialEq, Eq)]
struct Constants {
    accumulator: bool,
    index: bool,
    /// Bit N is cell N of the scratch memory.
    memory: u16,
}

impl Constants {
    /// As a run begins. The cells that are not written count as no constants.
    const INITIAL: Constants = Constants {
        accumulator: true,
        index: true,
        memory: 0,
    };

    /// Whether a register holds one.
    fn has(self, register: Register) -> bool {
        match register {
            Register::Accumulator => self.accumulator,
            Register::Index => self.index,
        }
    }

    /// Whether an instruction loads one from a source. `cell` is the instruction's number.
    fn loads(self, source: LoadSource, cell: u32) -> bool {
        match source {
            LoadSource::Immediate => true,
            LoadSource::Memory => self.memory & bit_of(cell) > 0,
            LoadSource::Register(from) => self.has(from),
            LoadSource::Negated | LoadSource::Calculated(_, Operand::Constant) => self.accumulator,
            LoadSource::Calculated(_, Operand::InIndex) => self.accumulator && self.index,
            _ => false,
        }
    }

    /// The same, once a register was loaded.
    fn loaded(self, to: Register, constant: bool) -> Constants {
        let accumulator = match to {
            Register::Accumulator => constant,
            Register::Index => self.accumulator,
        };
        let index = match to {
            Register::Accumulator => self.index,
            Register::Index => constant,
        };
        Constants {
            accumulator,
            index,
            memory: self.memory,
        }
    }

    /// The same, once a register was stored.
    fn stored(self, from: Register, cell: u32) -> Constants {
        let others = self.memory & !bit_of(cell);
        let memory = if self.has(from) {
            others | bit_of(cell)
        } else {
            others
        };
        Constants {
            accumulator: self.accumulator,
            index: self.index,
            memory,
        }
    }

    /// The same, once an instruction is done.
    fn after(self, insn: &Insn) -> Constants {
        match action_of(insn.code) {
            Some(Action::Load(to, source)) => self.loaded(to, self.loads(source, insn.k)),
            Some(Action::Store(from)) => self.stored(from, insn.k),
            _ => self,
        }
    }

    /// Whether an instruction asks for the length of the IPv4 header: it loads that, or bytes at an
    /// offset that is no constant, of which most are ones if the length is given.
    fn asks_header(self, insn: &Insn) -> bool {
        match action_of(insn.code) {
            Some(Action::Load(_, LoadSource::HeaderLength)) => insn.k == NETWORK,
            Some(Action::Load(_, LoadSource::Indirect(_))) => !self.index,
            _ => false,
        }
    }

    /// What is heavy of an instruction between the two registers.
    fn heavy_instruction(self, insn: &Insn) -> Option<Heavy> {
        match action_of(insn.code) {
            Some(Action::Load(_, LoadSource::Calculated(operator, Operand::InIndex))) => {
                let heavy = heavy_operator(operator)?;
                let by_constant = self.index || heavy == Heavy::Product && self.accumulator;
                if by_constant { None } else { Some(heavy) }
            }
            _ => None,
        }
    }
}

/// Whether a program asks for the header length, its instructions taken in turn as if none jumped.
fn program_asks_header(insns: &[Insn]) -> bool {
    let mut constants = Constants::INITIAL;
    for insn in insns {
        if constants.asks_header(insn) {
            return true;
        }
        constants = constants.after(insn);
    }
    false
}

/// What is heavy in a program, its instructions taken in turn as if none jumped.
fn heavy_program(insns: &[Insn]) -> Option<Heavy> {
    let mut constants = Constants::INITIAL;
    for insn in insns {
        let heavy = constants.heavy_instruction(insn);
        if heavy.is_some() {
            return heavy;
        }
        constants = constants.after(insn);
    }
    None
}

impl Filter<'_> {
    /// What is heavy in the filter, if something is known to be.
    pub(crate) fn heavy(self) -> Option<Heavy> {
        match self {
            Filter::Expression(expr) => heavy_expression(expr),
            Filter::Program(program) => heavy_program(program.insns()),
        }
    }

    /// Whether the filter asks for the length of the IPv4 header. An expression does if this says
    /// so; of a program it is a guess.
    pub(crate) fn asks_header(self) -> bool {
        match self {
            Filter::Expression(expr) => expression_asks_header(expr),
            Filter::Program(program) => program_asks_header(program.insns()),
        }
    }

    /// Whether the filter looks at bytes that may be far from the first one.
    pub(crate) fn looks_far(self) -> bool {
        match self {
            Filter::Expression(expr) => expression_looks_far(expr),
            Filter::Program(program) => program.insns().iter().any(instruction_looks_far),
        }
    }
}
