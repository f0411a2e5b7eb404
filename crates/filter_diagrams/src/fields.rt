//! Tests of numbers: bytes at an offset of the frame, and the length on the wire.

ghost use Rattle.std.specs.Prelude.{◌≡◌, ℕ, ◌+◌, ◌*◌, ◌^◌, ◌<◌, ◌≤◌, ◌==◌, Bool, bit_and, length, IfOk};
ghost use Rattle.bpfvm.specs.Machine.{number_at};
ghost use Rattle.filter_meaning.specs.Meaning.{check, decided, within, half};
ghost use Rattle.filter_bdd.specs.Fields.{by_order};
ghost use Rattle.filter_bdd.specs.declared.answer.Answer.TheVariants.{Final};
ghost use Rattle.filter_symbols.specs.Symbols.{SaysOf, Extends};

use crate::builder::Builder;
use filter_bdd::{Answer, ByOrder, Field, Stop};

/// Bytes of the frame that are a number in network order, under a mask.
#[derive(Clone, Copy, Debug, PartialEq, Eq, Hash)]
pub(crate) struct Bytes {
    pub offset: u32,
    pub size: u32,
    pub mask: u64,
}

/// A comparison that holds of equal numbers.
pub(crate) const EQUAL: ByOrder<bool> = ByOrder {
    less: false,
    equal: true,
    greater: false,
};

/// One that holds of a number that is not less.
pub(crate) const AT_LEAST: ByOrder<bool> = ByOrder {
    less: false,
    equal: true,
    greater: true,
};

/// One that holds of a number that is not greater.
pub(crate) const AT_MOST: ByOrder<bool> = ByOrder {
    less: true,
    equal: true,
    greater: false,
};

/// One that holds of a greater number: of any but 0, beside 0.
pub(crate) const GREATER: ByOrder<bool> = ByOrder {
    less: false,
    equal: false,
    greater: true,
};

/// The answers that need N captured bytes, by how two numbers compare.
fn answers(need: u32, holds: ByOrder<bool>) -> ByOrder<Answer>
    ensures less { result.less ≡ Final need holds.less }
    ensures equal { result.equal ≡ Final need holds.equal }
    ensures greater { result.greater ≡ Final need holds.greater }
{
    ByOrder {
        less: Answer::Final(need, holds.less),
        equal: Answer::Final(need, holds.equal),
        greater: Answer::Final(need, holds.greater),
    }
}

impl Builder {
    /// Whether bytes of the frame compare with a number in this way.
    pub(crate) fn bytes_test(
        &mut self,
        bytes: Bytes,
        number: u64,
        holds: ByOrder<bool>,
    ) -> Result<u32, Stop>
        requires offset { bytes.offset < 2 ^ 16 }
        requires size { bytes.size ≤ 8 }
        requires number { number < 2 ^ (8 * bytes.size) }
        ensures means { IfOk result (λ i. (f : ℕ → Bool)
            → ((x : ℕ) → x < 2 ^ (8 * bytes.size) → by_order (bit_and x bytes.mask) number holds.less holds.equal holds.greater ≡ f x)
            → SaysOf self.new.symbols (λ p. check f (number_at p.captured bytes.offset bytes.size)) i) }
        ensures inside { IfOk result (λ i. i < length self.new.symbols.words.diagrams) }
        ensures extends { Extends self.old.symbols self.new.symbols }
    {
        let need = bytes.offset + bytes.size;
        let field = Field {
            last: 31 + 8 * need,
            width: 8 * bytes.size,
            mask: bytes.mask,
        };
        self.symbols
            .words
            .diagrams
            .compare(field, number, answers(need, holds))
    }

    /// Whether the length on the wire compares with a number in this way.
    pub(crate) fn wire_test(&mut self, number: u32, holds: ByOrder<bool>) -> Result<u32, Stop>
        ensures means { IfOk result (λ i. (f : ℕ → Bool) → ((x : ℕ) → by_order x number holds.less holds.equal holds.greater ≡ f x) → SaysOf self.new.symbols (λ p. decided (f p.wire)) i) }
        ensures extends { Extends self.old.symbols self.new.symbols }
    {
        let field = Field {
            last: 31,
            width: 32,
            mask: u64::MAX,
        };
        self.symbols
            .words
            .diagrams
            .compare(field, u64::from(number), answers(0, holds))
    }

    /// Whether bytes of the frame are a number, under a mask.
    pub(crate) fn masked(&mut self, bytes: Bytes, number: u64) -> Result<u32, Stop>
        requires offset { bytes.offset < 2 ^ 16 }
        requires size { bytes.size ≤ 8 }
        requires number { number < 2 ^ (8 * bytes.size) }
        ensures means { IfOk result (SaysOf self.new.symbols (λ p. check (λ x. bit_and x bytes.mask == number) (number_at p.captured bytes.offset bytes.size))) }
        ensures extends { Extends self.old.symbols self.new.symbols }
    {
        self.bytes_test(bytes, number, EQUAL)
    }

    /// Whether bytes of the frame are a number.
    pub(crate) fn equals(&mut self, offset: u32, size: u32, number: u64) -> Result<u32, Stop>
        requires offset { offset < 2 ^ 16 }
        requires size { size ≤ 8 }
        requires number { number < 2 ^ (8 * size) }
        ensures means { IfOk result (SaysOf self.new.symbols (λ p. check (λ x. x == number) (number_at p.captured offset size))) }
        ensures extends { Extends self.old.symbols self.new.symbols }
    {
        let bytes = Bytes {
            offset,
            size,
            mask: u64::MAX,
        };
        self.bytes_test(bytes, number, EQUAL)
    }
}
