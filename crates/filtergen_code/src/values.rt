//! Values. Code is written from its end, so what a run does last is emitted first.

ghost use Rattle.std.specs.Prelude.{◌≡◌, ℕ, ◌+◌, ◌<◌, ◌≤◌, ◌^◌, ◌∷◌, length, max, None, Some, IfSome};
ghost use Rattle.std.specs.Bool.{OnTrue};
ghost use Rattle.filtergen_trim.specs.declared.unreached.TheConstants.{MAX_CODE};
ghost use Rattle.bpfvm.specs.Codes.{Accumulator, Index};
ghost use Rattle.filter_tree.specs.Trees.{amount_of};
ghost use Rattle.filter_meaning.specs.Meaning.{Packet, bytes_of, value};
ghost use Rattle.filtergen_facts.specs.Weights.{value_need};
ghost use Rattle.filtergen_code.specs.Insns.{plain_insn, calculation_insn, indirect_code};
ghost use Rattle.filtergen_code.specs.Parts.{constant_of, IsLeaf, leaf_value, IsValidConstant, MayBeOperand, base_of, read_from, farthest, value_cost, pair_cost};
ghost use Rattle.filtergen_code.specs.Emission.{field_of, Loads, Applies, Computes, Pairs, OrFull};

use crate::code::{Code, Full};
use crate::constants::constant;
use crate::insns::{
    Field, NETWORK, Operand, absolute_code, calculation_code, constant_of, indirect_code,
};
use bpfvm::code;
use filter_tree::{Layer, Operator, Size, Value};

/// A value that one instruction loads into either register.
#[derive(Clone, Copy)]
pub(crate) enum Leaf {
    Number(u32),
    /// The length on the wire.
    Length,
}

/// Where the index of an accessor counts from.
#[derive(Clone, Copy)]
pub(crate) enum Base {
    Frame,
    /// The end of the Ethernet header.
    Network,
    /// The end of the IPv4 header.
    Transport,
}

/// Where the indices of a layer count from.
pub(crate) fn base_of(layer: Layer) -> Base
    ensures { result ≡ base_of layer }
{
    match layer {
        Layer::Ether => Base::Frame,
        Layer::Ip | Layer::Arp | Layer::Rarp => Base::Network,
        Layer::Tcp | Layer::Udp | Layer::Icmp => Base::Transport,
    }
}

/// How far a base can be from the start of the frame.
fn farthest(base: Base) -> u32
    ensures { result ≡ farthest base }
{
    match base {
        Base::Frame => 0,
        Base::Network => NETWORK,
        Base::Transport => NETWORK + 60,
    }
}

fn leaf_of(amount: &Value) -> Option<Leaf>
    ensures { IfSome result (λ leaf. IsLeaf leaf (amount_of amount.now)) }
{
    match amount {
        Value::Length => Some(Leaf::Length),
        _ => Some(Leaf::Number(constant(amount)?)),
    }
}

/// Whether an instruction of this operator may have this constant: none divides by 0.
fn is_valid_constant(operator: Operator, n: u32) -> bool
    ensures { OnTrue result (IsValidConstant operator n) }
{
    match operator {
        Operator::Divide | Operator::Modulo => n > 0,
        _ => true,
    }
}

/// The right operand as the constant of its operator's instruction, if it can be one.
fn constant_operand(operator: Operator, right: &Value) -> Option<u32>
    ensures { IfSome result (λ n. (constant_of (amount_of right.now) ≡ Some n) × IsValidConstant operator n) }
{
    match constant(right) {
        Some(n) if is_valid_constant(operator, n) => Some(n),
        _ => None,
    }
}

/// The index of an accessor, if it is a constant so low that the address cannot wrap.
fn constant_index(base: Base, index: &Value) -> Option<u32>
    ensures { IfSome result (λ n. (constant_of (amount_of index.now) ≡ Some n) × (farthest base + n < 2 ^ 32)) }
{
    let n = constant(index)?;
    farthest(base).checked_add(n)?;
    Some(n)
}

/// The field at an index, if one instruction loads it.
fn field_at(base: Base, size: Size, index: u32) -> Option<Field>
    requires near { farthest base + index < 2 ^ 32 }
    ensures { IfSome result (λ field. (p : Packet) → field_of field p ≡ read_from base (bytes_of size) p index) }
{
    let offset = match base {
        Base::Frame => index,
        Base::Network => NETWORK + index,
        Base::Transport => return None,
    };
    Some(match size {
        Size::One => Field::Byte(offset),
        Size::Two => Field::Half(offset),
        Size::Four => Field::Word(offset),
    })
}

/// The field that a value is, if one instruction loads it.
pub(crate) fn field_of(amount: &Value) -> Option<Field>
    ensures { IfSome result (λ field. (p : Packet) → field_of field p ≡ value (amount_of amount.now) p) }
{
    match amount {
        Value::Length => Some(Field::Length),
        Value::Accessor(layer, index, size) => {
            let base = base_of(*layer);
            let n = constant_index(base, index)?;
            field_at(base, *size, n)
        }
        _ => None,
    }
}

impl Code {
    /// Emits the load of a leaf into the accumulator.
    #[tactic(auto, unfolding(bpfvm::specs::Validity::fault_of, bpfvm::specs::Codes::operation_of))]
    fn emit_leaf(&mut self, leaf: Leaf)
        requires { length self.old < MAX_CODE }
        ensures { Loads Accumulator (leaf_value leaf) self.old self.new }
    {
        match leaf {
            Leaf::Number(n) => self.emit_plain(code::LD_IMM, n),
            Leaf::Length => self.emit_plain(code::LD_LEN, 0),
        }
    }

    /// Emits the load of a leaf into the index register.
    #[tactic(auto, unfolding(bpfvm::specs::Validity::fault_of, bpfvm::specs::Codes::operation_of))]
    fn emit_index_leaf(&mut self, leaf: Leaf)
        requires { length self.old < MAX_CODE }
        ensures { Loads Index (leaf_value leaf) self.old self.new }
    {
        match leaf {
            Leaf::Number(n) => self.emit_plain(code::LDX_IMM, n),
            Leaf::Length => self.emit_plain(code::LDX_LEN, 0),
        }
    }

    /// Emits a calculation with the accumulator and an operand.
    #[tactic(auto, using(crate::proofs::Growing::calculation_sound))]
    fn emit_calculation(&mut self, operator: Operator, operand: Operand)
        requires room { length self.old < MAX_CODE }
        requires operand { MayBeOperand operator operand }
        ensures { self.new ≡ calculation_insn operator operand ∷ self.old }
    {
        self.emit_plain(calculation_code(operator, operand), constant_of(operand));
    }

    /// Emits the load of bytes at an offset from the accumulator.
    #[tactic(auto, unfolding(bpfvm::specs::Validity::fault_of, bpfvm::specs::Codes::operation_of))]
    fn emit_indirect_load(&mut self, size: Size, offset: u32)
        requires { length self.old + 2 ≤ MAX_CODE }
        ensures { self.new ≡ plain_insn 0x07 0 ∷ plain_insn (indirect_code size) offset ∷ self.old }
    {
        self.emit_plain(indirect_code(size), offset);
        self.emit_plain(code::TAX, 0);
    }

    /// Emits the load of an accessor's bytes; the accumulator has its index.
    #[tactic(auto, unfolding(bpfvm::specs::Validity::fault_of, bpfvm::specs::Codes::operation_of))]
    fn emit_access(&mut self, base: Base, size: Size)
        requires { length self.old + 4 ≤ MAX_CODE }
        ensures { Applies 4 (read_from base (bytes_of size)) self.old self.new }
    {
        match base {
            Base::Frame => self.emit_indirect_load(size, 0),
            Base::Network => self.emit_indirect_load(size, NETWORK),
            Base::Transport => {
                self.emit_indirect_load(size, NETWORK);
                self.emit_plain(code::ADD_X, 0);
                self.emit_plain(code::LDX_MSH, NETWORK);
            }
        }
    }

    /// Emits the load of an accessor's bytes at an index that is a number and cannot wrap.
    #[tactic(auto, unfolding(bpfvm::specs::Validity::fault_of, bpfvm::specs::Codes::operation_of))]
    pub fn emit_access_at(&mut self, base: Base, size: Size, index: u32)
        requires room { length self.old + 2 ≤ MAX_CODE }
        requires near { farthest base + index < 2 ^ 32 }
        ensures { (cell : ℕ) → Computes 2 (λ p. read_from base (bytes_of size) p index) cell self.old self.new }
    {
        match base {
            Base::Frame => self.emit_plain(absolute_code(size), index),
            Base::Network => self.emit_plain(absolute_code(size), NETWORK + index),
            Base::Transport => {
                self.emit_plain(indirect_code(size), NETWORK + index);
                self.emit_plain(code::LDX_MSH, NETWORK);
            }
        }
    }

    /// Emits the computation of a value. It changes no cell of the scratch memory below `cell`.
    #[tactic(auto, using(crate::proofs::Bounds::value_positive))]
    #[cycle(value)]
    pub fn emit_value(&mut self, amount: &Value, cell: u32) -> Result<(), Full>
        requires { cell + value_need (amount_of amount.now) ≤ 16 }
        ensures { OrFull (value_cost (amount_of amount.now)) self.old result
            (λ _. Computes (value_cost (amount_of amount.now)) (value (amount_of amount.now)) cell self.old self.new) }
    {
        if let Some(n) = constant(amount) {
            self.room(1)?;
            self.emit_leaf(Leaf::Number(n));
            return Ok(());
        }
        self.emit_variable(amount, cell)
    }

    /// Emits the computation of a value that is no constant, or divides by 0.
    #[tactic(auto, unfolding(bpfvm::specs::Validity::fault_of, bpfvm::specs::Codes::operation_of))]
    #[cycle(value)]
    fn emit_variable(&mut self, amount: &Value, cell: u32) -> Result<(), Full>
        requires { cell + value_need (amount_of amount.now) ≤ 16 }
        ensures { OrFull (value_cost (amount_of amount.now)) self.old result
            (λ _. Computes (value_cost (amount_of amount.now)) (value (amount_of amount.now)) cell self.old self.new) }
    {
        match amount {
            Value::Number(n) => {
                self.room(1)?;
                self.emit_leaf(Leaf::Number(*n));
                Ok(())
            }
            Value::Length => {
                self.room(1)?;
                self.emit_leaf(Leaf::Length);
                Ok(())
            }
            Value::Negation(operand) => {
                self.room(1)?;
                self.emit_plain(code::NEG, 0);
                self.emit_variable(operand, cell)
            }
            Value::Binary(operator, left, right) => {
                self.room(1)?;
                if let Some(n) = constant_operand(*operator, right) {
                    self.emit_calculation(*operator, Operand::Constant(n));
                    return self.emit_variable(left, cell);
                }
                self.emit_calculation(*operator, Operand::Index);
                self.emit_pair(left, right, cell)
            }
            Value::Accessor(layer, index, size) => {
                self.room(4)?;
                let base = base_of(*layer);
                if let Some(n) = constant_index(base, index) {
                    self.emit_access_at(base, *size, n);
                    return Ok(());
                }
                self.emit_access(base, *size);
                self.emit_value(index, cell)
            }
        }
    }

    /// Emits the computation of two values, the left one into the accumulator and the right one
    /// into the index register.
    #[tactic(auto, unfolding(bpfvm::specs::Validity::fault_of, bpfvm::specs::Codes::operation_of))]
    #[cycle(value)]
    pub fn emit_pair(&mut self, left: &Value, right: &Value, cell: u32) -> Result<(), Full>
        requires { cell + max (value_need (amount_of left.now)) (1 + value_need (amount_of right.now)) ≤ 16 }
        ensures { OrFull (pair_cost (amount_of left.now) (amount_of right.now)) self.old result
            (λ _. Pairs (pair_cost (amount_of left.now) (amount_of right.now)) (value (amount_of left.now))
            (value (amount_of right.now)) cell self.old self.new) }
    {
        self.room(2)?;
        if let Some(leaf) = leaf_of(right) {
            self.emit_index_leaf(leaf);
            return self.emit_value(left, cell);
        }
        if let Some(leaf) = leaf_of(left) {
            self.emit_leaf(leaf);
            self.emit_plain(code::TAX, 0);
            return self.emit_variable(right, cell);
        }
        self.emit_plain(code::LD_MEM, cell);
        self.emit_plain(code::TAX, 0);
        self.emit_variable(right, cell + 1)?;
        self.room(1)?;
        self.emit_plain(code::ST, cell);
        self.emit_variable(left, cell)
    }
}
