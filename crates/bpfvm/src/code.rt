//! The codes of the instructions, as bpf(4) composes them of class, size, mode and operand.
//!
//! A is the accumulator, X the index register, M the scratch memory, P the captured bytes and pc
//! the place of the next instruction; k, jt and jf are the instruction's own fields.

/// A ← P[k:4]
pub const LD_W_ABS: u16 = 0x20;
/// A ← P[k:2]
pub const LD_H_ABS: u16 = 0x28;
/// A ← P[k:1]
pub const LD_B_ABS: u16 = 0x30;
/// A ← P[X+k:4]
pub const LD_W_IND: u16 = 0x40;
/// A ← P[X+k:2]
pub const LD_H_IND: u16 = 0x48;
/// A ← P[X+k:1]
pub const LD_B_IND: u16 = 0x50;
/// A ← k
pub const LD_IMM: u16 = 0x00;
/// X ← k
pub const LDX_IMM: u16 = 0x01;
/// A ← M[k]
pub const LD_MEM: u16 = 0x60;
/// X ← M[k]
pub const LDX_MEM: u16 = 0x61;
/// A ← the length on the wire
pub const LD_LEN: u16 = 0x80;
/// X ← the length on the wire
pub const LDX_LEN: u16 = 0x81;
/// X ← 4*(P[k:1]&0xf)
pub const LDX_MSH: u16 = 0xb1;
/// M[k] ← A
pub const ST: u16 = 0x02;
/// M[k] ← X
pub const STX: u16 = 0x03;
/// A ← A + k
pub const ADD_K: u16 = 0x04;
/// A ← A + X
pub const ADD_X: u16 = 0x0c;
/// A ← A - k
pub const SUB_K: u16 = 0x14;
/// A ← A - X
pub const SUB_X: u16 = 0x1c;
/// A ← A * k
pub const MUL_K: u16 = 0x24;
/// A ← A * X
pub const MUL_X: u16 = 0x2c;
/// A ← A / k
pub const DIV_K: u16 = 0x34;
/// A ← A / X
pub const DIV_X: u16 = 0x3c;
/// A ← A | k
pub const OR_K: u16 = 0x44;
/// A ← A | X
pub const OR_X: u16 = 0x4c;
/// A ← A & k
pub const AND_K: u16 = 0x54;
/// A ← A & X
pub const AND_X: u16 = 0x5c;
/// A ← A << k
pub const LSH_K: u16 = 0x64;
/// A ← A << X
pub const LSH_X: u16 = 0x6c;
/// A ← A >> k
pub const RSH_K: u16 = 0x74;
/// A ← A >> X
pub const RSH_X: u16 = 0x7c;
/// A ← A % k
pub const MOD_K: u16 = 0x94;
/// A ← A % X
pub const MOD_X: u16 = 0x9c;
/// A ← A ^ k
pub const XOR_K: u16 = 0xa4;
/// A ← A ^ X
pub const XOR_X: u16 = 0xac;
/// A ← -A
pub const NEG: u16 = 0x84;
/// pc += k
pub const JA: u16 = 0x05;
/// pc += (A = k) ? jt : jf
pub const JEQ_K: u16 = 0x15;
/// pc += (A = X) ? jt : jf
pub const JEQ_X: u16 = 0x1d;
/// pc += (A > k) ? jt : jf
pub const JGT_K: u16 = 0x25;
/// pc += (A > X) ? jt : jf
pub const JGT_X: u16 = 0x2d;
/// pc += (A >= k) ? jt : jf
pub const JGE_K: u16 = 0x35;
/// pc += (A >= X) ? jt : jf
pub const JGE_X: u16 = 0x3d;
/// pc += (A & k) ? jt : jf
pub const JSET_K: u16 = 0x45;
/// pc += (A & X) ? jt : jf
pub const JSET_X: u16 = 0x4d;
/// accept k bytes
pub const RET_K: u16 = 0x06;
/// accept A bytes
pub const RET_A: u16 = 0x16;
/// X ← A
pub const TAX: u16 = 0x07;
/// A ← X
pub const TXA: u16 = 0x87;

// Programs from elsewhere have these numbers.
const _: () = prove!(LD_W_ABS == 0x20 && LD_H_ABS == 0x28 && LD_B_ABS == 0x30);

const _: () = prove!(LD_W_IND == 0x40 && LD_H_IND == 0x48 && LD_B_IND == 0x50);

const _: () = prove!(LD_IMM == 0x00 && LDX_IMM == 0x01);

const _: () = prove!(LD_MEM == 0x60 && LDX_MEM == 0x61);

const _: () = prove!(LD_LEN == 0x80 && LDX_LEN == 0x81 && LDX_MSH == 0xb1);

const _: () = prove!(ST == 0x02 && STX == 0x03);

const _: () = prove!(ADD_K == 0x04 && ADD_X == 0x0c);

const _: () = prove!(SUB_K == 0x14 && SUB_X == 0x1c);

const _: () = prove!(MUL_K == 0x24 && MUL_X == 0x2c);

const _: () = prove!(DIV_K == 0x34 && DIV_X == 0x3c);

const _: () = prove!(OR_K == 0x44 && OR_X == 0x4c);

const _: () = prove!(AND_K == 0x54 && AND_X == 0x5c);

const _: () = prove!(LSH_K == 0x64 && LSH_X == 0x6c);

const _: () = prove!(RSH_K == 0x74 && RSH_X == 0x7c);

const _: () = prove!(MOD_K == 0x94 && MOD_X == 0x9c);

const _: () = prove!(XOR_K == 0xa4 && XOR_X == 0xac);

const _: () = prove!(NEG == 0x84);

const _: () = prove!(JA == 0x05);

const _: () = prove!(JEQ_K == 0x15 && JEQ_X == 0x1d);

const _: () = prove!(JGT_K == 0x25 && JGT_X == 0x2d);

const _: () = prove!(JGE_K == 0x35 && JGE_X == 0x3d);

const _: () = prove!(JSET_K == 0x45 && JSET_X == 0x4d);

const _: () = prove!(RET_K == 0x06 && RET_A == 0x16);

const _: () = prove!(TAX == 0x07 && TXA == 0x87);
