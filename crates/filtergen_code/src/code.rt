//! Code that is written from its end: what a jump leads to is there before the jump, so no jump is
//! patched.
//!
//! Methods named `emit` put instructions in front. Those of a test return the place where it is
//! entered.

ghost use Rattle.std.specs.Prelude.{◌≡◌, ℕ, ◌+◌, ◌-◌, ◌<◌, ◌≤◌, List, [], ◌∷◌, length, Some, None, reverse, bit_and, MatchResult, IfOk, IsErr, slice_get};
ghost use Rattle.std.specs.Bool.{OnTrue};
ghost use Rattle.bpfvm.specs.declared.program.TheConstants.{MAX_INSNS};
ghost use Rattle.bpfvm.specs.declared.insn.Insn.{Insn};
ghost use Rattle.bpfvm.specs.Validity.{fault_of};
ghost use Rattle.bpfvm.specs.Machine.{holds, verdict};
ghost use Rattle.filter_meaning.specs.Meaning.{check, within};
ghost use Rattle.filtergen_trim.specs.Reaching.{IsAllReached};
ghost use Rattle.filtergen_code.specs.Insns.{plain_insn};
ghost use Rattle.filtergen_code.specs.ValueLists.{in_ranges, IgnoresAccumulator, GoesOnAs, FailsTo, Skips};
ghost use Rattle.filtergen_code.specs.Emission.{IsPlace, AreExits, comparison_of, condition, field_of, Passes, GoesOnAt, IsRelay, Chooses, Decides, CanEmit};

use crate::insns::{Field, Jump, Operand, branch_insn, load_insn, plain_insn};
use crate::value_lists::has_number;
use arrayvec::ArrayVec;
use bpfvm::{Insn, Program, code};
use filtergen_facts::ValueRange;
use filtergen_trim::{MAX_CODE, trim_unreached};
use std::marker::Model;

/// How many instructions a conditional jump can pass: its offsets have 8 bits.
pub(crate) const REACH: usize = 255;

/// Where a test goes on: two places of the code, counted from its end, so that they stay valid as
/// the code grows.
#[derive(Clone, Copy)]
pub(crate) struct Exits {
    pub yes: usize,
    pub no: usize,
}

impl Exits {
    pub fn opposite(self) -> Exits
        ensures { result ≡ record { yes = self.no; no = self.yes } }
    {
        let (yes, no) = (self.no, self.yes);
        Exits { yes, no }
    }
}

/// There is no room for more instructions.
#[derive(Drop)]
pub(crate) struct Full;

/// The end of a program. It is a valid program at each moment, except for its size: it has room for
/// more instructions than a program, since a part asks for the most that it may take.
#[derive(Drop)]
pub(crate) struct Code {
    /// The last instruction comes first.
    insns: ArrayVec<Insn, MAX_CODE>,
}

impl Model for Code {
    ghost use Rattle.std.specs.Prelude.{List, reverse};
    ghost use Rattle.bpfvm.specs.declared.insn.Insn.{Insn};
    ghost use Rattle.filtergen_trim.specs.Sound.{IsSoundCode};

    ghost Value = { List Insn };

    ghost view = { λ c. reverse c.insns.items };

    ghost invariant = { λ c. IsSoundCode (reverse c.insns.items) };
}

impl Code {
    /// The two returns: the snapshot length at place 2, and 0 at place 1.
    pub fn new(snap: u32) -> Code
        ensures { result ≡ plain_insn 6 snap ∷ plain_insn 6 0 ∷ [] }
    {
        let mut insns = ArrayVec::new();
        insns.push(plain_insn(code::RET_K, 0));
        insns.push(plain_insn(code::RET_K, snap));
        Code { insns }
    }

    /// How many instructions there are. This is also the place of the one at the front.
    pub fn len(&self) -> usize
        ensures value { result ≡ length self.now }
        ensures within { result ≤ MAX_CODE }
    {
        self.insns.len()
    }

    /// `Full` if there is no room for `more` instructions.
    pub fn room(&self, more: usize) -> Result<(), Full>
        requires { more ≤ 40 }
        ensures { MatchResult result (λ _. length self.now + more ≤ MAX_CODE) (λ _. MAX_CODE < length self.now + more) }
    {
        if self.len() + more <= MAX_CODE {
            Ok(())
        } else {
            Err(Full)
        }
    }

    /// Puts an instruction in front.
    pub fn emit(&mut self, insn: Insn)
        requires room { length self.old < MAX_CODE }
        requires sound { fault_of (length self.old + 1) 0 insn ≡ None }
        ensures { self.new ≡ insn ∷ self.old }
    {
        self.insns.push(insn);
    }

    /// Puts an instruction in front that does not jump.
    pub fn emit_plain(&mut self, code: u16, k: u32)
        requires room { length self.old < MAX_CODE }
        requires sound { fault_of 1 0 (plain_insn code k) ≡ None }
        ensures { self.new ≡ plain_insn code k ∷ self.old }
    {
        self.emit(plain_insn(code, k));
    }

    /// The instruction that goes on at a place: a copy of the return that is there, or a jump.
    fn jump_to(&self, place: usize) -> Insn
        requires { IsPlace self.now place }
        ensures { GoesOnAt result place self.now }
    {
        let insn = self.insn_at(place);
        if insn == plain_insn(code::RET_K, insn.k) {
            insn
        } else {
            plain_insn(code::JA, (self.len() - place) as u32)
        }
    }

    /// The place if it is in reach, or a relay of it: an equal return in reach, or else an
    /// instruction that is put in front.
    pub fn emit_relay(&mut self, place: usize, reach: usize) -> usize
        requires room { length self.old < MAX_CODE }
        requires place { IsPlace self.old place }
        ensures { IsRelay place reach result self.old self.new }
    {
        let found = self.nearest_return(place, reach);
        if self.len() - found <= reach {
            found
        } else {
            let insn = self.jump_to(place);
            self.emit(insn);
            self.len()
        }
    }

    /// Emits a comparison of the accumulator that goes to an exit.
    pub fn emit_branch(&mut self, jump: Jump, operand: Operand, exits: Exits)
        requires { CanEmit 3 exits self.old }
        ensures { Chooses 3 (condition jump operand) exits self.old self.new }
    {
        // The jump to `yes` may need an instruction in front of the one to `no`.
        let reach = if self.len() - exits.yes > REACH {
            REACH - 1
        } else {
            REACH
        };
        let no = self.emit_relay(exits.no, reach);
        let yes = self.emit_relay(exits.yes, REACH);
        let jt = (self.len() - yes) as u8;
        let jf = (self.len() - no) as u8;
        self.emit(branch_insn(jump, operand, jt, jf));
    }

    /// Emits the comparison of the accumulator with the numbers from low to high.
    pub fn emit_range_branch(&mut self, low: u32, high: u32, exits: Exits)
        requires { CanEmit 6 exits self.old }
        ensures { Chooses 6 (λ r. within low high r.accumulator) exits self.old self.new }
    {
        if low == high {
            self.emit_branch(Jump::Equal, Operand::Constant(low), exits);
        } else {
            self.emit_branch(Jump::Greater, Operand::Constant(high), exits.opposite());
            let yes = self.len();
            let exits = Exits { yes, ..exits };
            self.emit_branch(Jump::GreaterOrEqual, Operand::Constant(low), exits);
        }
    }

    /// The place, or the next one if this instruction is there: for a run in which it would
    /// change nothing. If a jump reaches only the place itself, it stays.
    fn place_after(&self, insn: Insn, place: usize) -> usize
        requires { IsPlace self.now place }
        ensures { Passes insn place result self.now }
    {
        let distance = self.len() - place;
        let reached_alone = distance == REACH || distance == REACH - 1;
        if place > 1 && !reached_alone && self.insn_at(place) == insn {
            place - 1
        } else {
            place
        }
    }

    /// The exits, each moved past this instruction if it is there.
    pub fn exits_after(&self, insn: Insn, exits: Exits) -> Exits
        requires { AreExits self.now exits }
        ensures yes { Passes insn exits.yes result.yes self.now }
        ensures no { Passes insn exits.no result.no self.now }
    {
        let yes = self.place_after(insn, exits.yes);
        let no = self.place_after(insn, exits.no);
        Exits { yes, no }
    }

    fn insn_at(&self, place: usize) -> Insn
        requires { IsPlace self.now place }
        ensures here { slice_get self.now (length self.now - place) ≡ Some result }
        ensures jump { result.code ≡ 0x15 → 1 + result.jf < place }
    {
        self.insns.as_slice()[place - 1]
    }

    /// Whether a run goes on at a place in the same way whatever the accumulator is.
    fn ignores_accumulator(&self, place: usize) -> bool
        requires { IsPlace self.now place }
        ensures { OnTrue result (IgnoresAccumulator place self.now) }
    {
        matches!(
            self.insn_at(place).code,
            code::LD_W_ABS | code::LD_H_ABS | code::LD_B_ABS | code::LD_LEN | code::RET_K
        )
    }

    /// The place, or the one to which its comparisons lead that fail if the accumulator is one of
    /// these numbers.
    fn place_after_mismatches(&self, ranges: &[ValueRange], place: usize) -> usize
        requires { IsPlace self.now place }
        ensures { FailsTo (in_ranges ranges.now) place result self.now }
    {
        let mut at = place;
        loop {
            let insn = self.insn_at(at);
            if insn.code != code::JEQ_K || has_number(ranges, insn.k) {
                return at;
            }
            at -= 1 + usize::from(insn.jf);
        }
    }

    /// The place, or the nearest equal return if it is a return out of reach.
    fn nearest_return(&self, place: usize, reach: usize) -> usize
        requires { IsPlace self.now place }
        ensures leads { GoesOnAs place result self.now }
        ensures within { length self.now - place ≤ reach → result ≡ place }
    {
        let wanted = self.insn_at(place);
        let mut found = place;
        if self.len() - place > reach && wanted == plain_insn(code::RET_K, wanted.k) {
            for at in place..self.len() + 1 {
                if self.insn_at(at) == wanted {
                    found = at;
                }
            }
        }
        found
    }

    /// Whether a jump reaches a place, or a return is there, of which all later jumps can share
    /// a copy.
    fn is_in_reach(&self, place: usize) -> bool
        requires { IsPlace self.now place }
    {
        self.len() - place < REACH || self.insn_at(place).code == code::RET_K
    }

    /// The place, or the one after its comparisons that fail if this field is one of these numbers,
    /// if that is in reach.
    pub fn place_past_comparisons(&self, field: Field, ranges: &[ValueRange], place: usize) -> usize
        requires { IsPlace self.now place }
        ensures { Skips field (in_ranges ranges.now) place result self.now }
    {
        let after_load = self.place_after(load_insn(field), place);
        let others = self.place_after_mismatches(ranges, after_load);
        let beyond = self.nearest_return(others, REACH - 1);
        if self.is_in_reach(beyond)
            && self.ignores_accumulator(place)
            && self.ignores_accumulator(beyond)
        {
            beyond
        } else {
            place
        }
    }

    /// Emits the comparison of a field. An exit that begins with the same load is entered after it:
    /// the number is still in the accumulator.
    pub fn emit_test(&mut self, field: Field, jump: Jump, value: u32, exits: Exits) -> usize
        requires { CanEmit 4 exits self.old }
        ensures { Decides 4 (λ p. check (λ n. holds (comparison_of jump) n value) (field_of field p)) exits result
            self.old self.new }
    {
        let load = load_insn(field);
        let exits = self.exits_after(load, exits);
        self.emit_branch(jump, Operand::Constant(value), exits);
        self.emit(load);
        self.len()
    }

    /// Emits the comparison of the bits of a field under a mask.
    pub fn emit_masked_test(&mut self, field: Field, mask: u32, bits: u32, exits: Exits) -> usize
        requires { CanEmit 5 exits self.old }
        ensures { Decides 5 (λ p. check (λ n. holds (comparison_of Jump.Equal) (bit_and n mask) bits) (field_of field p)) exits
            result self.old self.new }
    {
        self.emit_branch(Jump::Equal, Operand::Constant(bits), exits);
        self.emit(plain_insn(code::AND_K, mask));
        self.emit(load_insn(field));
        self.len()
    }

    /// The program, without the instructions that nothing reaches. `Full` if more than 512 are
    /// left.
    pub fn into_program(mut self) -> Result<Program, Full>
        ensures same { IfOk result (λ program. (packet : List ℕ) (wire : ℕ) → verdict program packet wire ≡ verdict self packet wire) }
        ensures reached { IfOk result IsAllReached }
        ensures full { IsErr result → MAX_INSNS < length self }
    {
        self.insns.reverse();
        let reached = trim_unreached(self.insns.as_slice());
        match Program::new(reached.as_slice()) {
            Ok(program) => Ok(program),
            Err(_) => Err(Full),
        }
    }
}
