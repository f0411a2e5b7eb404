//! The order in which the bits of a packet are asked for, by what two filters do with them.

use crate::filters::Filter;
use crate::shape::Shape;
use crate::standings::{Standings, WIRE};
use bpfvm::Insn;
use filter_bdd::{BitOrder, Stop};
use filter_diagrams::{Action, LoadSource, Operand, Register, action_of};
use filter_tree::headers::ETHER_HDR_LEN;
use filter_tree::{Expr, Layer, Operator, Size, Value};
use std::alloc::Global;

/// Where what comes after the Ethernet header begins.
const NETWORK: u32 = ETHER_HDR_LEN as u32;

/// How many bytes a size is.
fn bytes_of(size: Size) -> u32 {
    match size {
        Size::One => 1,
        Size::Two => 2,
        Size::Four => 4,
    }
}

/// Finds which fields are compared with one another. If `header` is given, the IPv4 header of the
/// packets has that many words.
#[derive(Drop)]
struct Survey {
    standings: Standings,
    header: Option<u32>,
}

/// What the registers and the scratch memory are made of.
#[derive(Drop)]
struct Shapes {
    accumulator: Shape,
    index: Shape,
    memory: [Shape; 16],
}

impl Shapes {
    /// As a run begins.
    fn new() -> Shapes {
        let zero = Shape::number(0);
        Shapes {
            accumulator: zero,
            index: zero,
            memory: [zero; 16],
        }
    }

    /// What a register holds.
    fn register(&self, register: Register) -> Shape {
        match register {
            Register::Accumulator => self.accumulator,
            Register::Index => self.index,
        }
    }

    /// The operand of an instruction.
    fn operand(&self, operand: Operand, constant: u32) -> Shape {
        match operand {
            Operand::Constant => Shape::number(constant),
            Operand::InIndex => self.index,
        }
    }

    /// A register holds another number.
    fn set_register(&mut self, register: Register, shape: Shape) {
        match register {
            Register::Accumulator => self.accumulator = shape,
            Register::Index => self.index = shape,
        }
    }

    /// A cell holds another number, if there is such a cell.
    fn set_cell(&mut self, cell: u32, shape: Shape) {
        if let Some(entry) = self.memory.get_mut(cell as usize) {
            *entry = shape;
        }
    }
}

impl Survey {
    /// Bytes of a packet at an offset and an index.
    #[inline(never)]
    fn load(&mut self, offset: u32, index: &Shape, size: Size) -> Result<Shape, Stop> {
        match index.number {
            Some(number) => {
                let first = offset.wrapping_add(number);
                Ok(Shape::field(first.saturating_add(WIRE), bytes_of(size)))
            }
            None => {
                self.standings.index(index)?;
                Ok(Shape::UNKNOWN)
            }
        }
    }

    /// What an operator makes of two numbers. By how much one is shifted, and the smaller factor of
    /// a product, comes first: then the rest is a shift or a product by a constant.
    #[inline(never)]
    fn calculated(
        &mut self,
        operator: Operator,
        first: Shape,
        second: Shape,
    ) -> Result<Shape, Stop> {
        if let Some((ahead, rest)) = ahead_of(operator, first, second) {
            self.standings.index(&ahead)?;
            self.standings.stand(&rest);
            return Ok(rest);
        }
        let whole = Shape::calculated(operator, first, second);
        self.standings.join(&whole);
        Ok(whole)
    }

    /// A value.
    fn value(&mut self, value: &Value) -> Result<Shape, Stop> {
        match value {
            Value::Number(number) => Ok(Shape::number(*number)),
            Value::Length => Ok(Shape::field(0, WIRE)),
            Value::Negation(operand) => {
                let negated = self.value(operand)?;
                self.calculated(Operator::Minus, Shape::number(0), negated)
            }
            Value::Binary(operator, left, right) => {
                let first = self.value(left)?;
                let second = self.value(right)?;
                self.calculated(*operator, first, second)
            }
            Value::Accessor(layer, index, size) => {
                let place = self.value(index)?;
                self.load(self.base(*layer), &place, *size)
            }
        }
    }

    /// Where a layer begins.
    fn base(&self, layer: Layer) -> u32 {
        match layer {
            Layer::Ether => 0,
            Layer::Ip | Layer::Arp | Layer::Rarp => NETWORK,
            Layer::Tcp | Layer::Udp | Layer::Icmp => {
                NETWORK + 4 * self.header.unwrap_or(5).min(15)
            }
        }
    }

    /// The relations of an expression.
    fn expression(&mut self, alloc: Global, expr: &Expr) -> Result<(), Stop> {
        let mut waiting = Vec::new(alloc);
        let mut next = Some(expr);
        for _ in 0..u64::MAX {
            let Some(part) = next else {
                return Ok(());
            };
            match part {
                Expr::Everything | Expr::Test(_) => {}
                Expr::Relation(_, left, right) => {
                    let first = self.value(left)?;
                    let second = self.value(right)?;
                    self.standings.join(&first.with(second));
                }
                Expr::Not(operand) => wait(&mut waiting, operand)?,
                Expr::And(left, right) | Expr::Or(left, right) => {
                    wait(&mut waiting, right)?;
                    wait(&mut waiting, left)?;
                }
            }
            next = waiting.pop();
        }
        Ok(())
    }

    /// What a load gives.
    fn source(&mut self, shapes: &Shapes, insn: &Insn, source: LoadSource) -> Result<Shape, Stop> {
        match source {
            LoadSource::Absolute(size) => self.load(0, &Shape::number(insn.k), size),
            LoadSource::Indirect(size) => self.load(insn.k, &shapes.index, size),
            LoadSource::Immediate => Ok(Shape::number(insn.k)),
            LoadSource::Memory => Ok(
                shapes
                    .memory
                    .get(insn.k as usize)
                    .copied()
                    .unwrap_or(Shape::UNKNOWN),
            ),
            LoadSource::Length => Ok(Shape::field(0, WIRE)),
            LoadSource::HeaderLength => match self.header {
                Some(words) if insn.k == NETWORK => Ok(Shape::number(words.wrapping_mul(4))),
                _ => Ok(Shape::field(insn.k.saturating_add(WIRE), 1).moved(2)),
            },
            LoadSource::Calculated(operator, operand) => {
                let second = shapes.operand(operand, insn.k);
                self.calculated(operator, shapes.accumulator, second)
            }
            LoadSource::Negated => {
                self.calculated(Operator::Minus, Shape::number(0), shapes.accumulator)
            }
            LoadSource::Register(from) => Ok(shapes.register(from)),
        }
    }

    /// An instruction.
    fn instruction(
        &mut self,
        shapes: &mut Shapes,
        insn: &Insn,
        action: Action,
    ) -> Result<(), Stop> {
        match action {
            Action::Load(to, source) => {
                let loaded = self.source(shapes, insn, source)?;
                shapes.set_register(to, loaded);
            }
            Action::Store(from) => shapes.set_cell(insn.k, shapes.register(from)),
            Action::Branch(_, operand) => {
                let second = shapes.operand(operand, insn.k);
                self.standings.join(&shapes.accumulator.with(second));
            }
            Action::ReturnAccumulator => self.standings.join(&shapes.accumulator),
            Action::Jump | Action::ReturnConstant => {}
        }
        Ok(())
    }

    /// Goes over the instructions of a program in order. It follows no jump.
    fn program(&mut self, insns: &[Insn]) -> Result<(), Stop> {
        let mut shapes = Shapes::new();
        for insn in insns {
            if let Some(action) = action_of(insn.code) {
                self.instruction(&mut shapes, insn, action)?;
            }
        }
        Ok(())
    }

    /// A filter.
    fn filter(&mut self, alloc: Global, filter: Filter<'_>) -> Result<(), Stop> {
        match filter {
            Filter::Expression(expr) => self.expression(alloc, expr),
            Filter::Program(program) => self.program(program.insns()),
        }
    }
}

/// The number whose bits come first if an operator goes between two that are no constants, and the
/// other one.
fn ahead_of(operator: Operator, first: Shape, second: Shape) -> Option<(Shape, Shape)> {
    if second.number.is_some() {
        return None;
    }
    match operator {
        Operator::ShiftLeft | Operator::ShiftRight => Some((second, first.unknown())),
        Operator::Times if first.number.is_none() => {
            if first.bits() < second.bits() {
                Some((first, second))
            } else {
                Some((second, first))
            }
        }
        _ => None,
    }
}

/// Puts off a part of an expression.
fn wait<'a>(waiting: &mut Vec<&'a Expr>, part: &'a Expr) -> Result<(), Stop> {
    if waiting.push(part).is_err() {
        return Err(Stop::Memory);
    }
    Ok(())
}

/// The order in which the bits of packets of a header length are best asked for, to compare two
/// filters.
#[inline(never)]
pub(crate) fn order_of(
    alloc: Global,
    header: Option<u32>,
    first: Filter<'_>,
    second: Filter<'_>,
) -> Result<BitOrder, Stop> {
    let mut survey = Survey {
        standings: Standings::new(alloc)?,
        header,
    };
    survey.filter(alloc, first)?;
    survey.filter(alloc, second)?;
    survey.standings.order(alloc)
}
