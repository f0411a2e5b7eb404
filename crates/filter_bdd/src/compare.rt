//! Numbers that some bits are, compared.

ghost use Rattle.std.specs.Prelude.{◌≡◌, ℕ, ◌+◌, ◌%◌, ◌^◌, ◌<◌, ◌≤◌, ◌&&◌, Bool, length, IfOk};
ghost use Rattle.filter_bdd.specs.Diagrams.{answer, Gives, Grew};
ghost use Rattle.filter_bdd.specs.Fields.{is_set, number_of, by_order, by_bits};

use crate::answer::Answer;
use crate::diagrams::Diagrams;
use crate::table::Stop;

/// Bits that are a number, under a mask.
#[derive(Clone, Copy, Debug)]
pub struct Field {
    /// The lowest bit. The next one is named before it.
    pub last: u32,
    /// How many bits there are.
    pub width: u32,
    /// Which of them count.
    pub mask: u64,
}

/// One of three, by how a number compares with another one.
#[derive(Clone, Copy, Debug)]
pub struct ByOrder<T> {
    pub less: T,
    pub equal: T,
    pub greater: T,
}

/// A bit of a number, the lowest being bit 0.
fn is_set(number: u64, bit: u32) -> bool
    requires { bit < 64 }
    ensures { result ≡ is_set number bit }
{
    (number >> bit) % 2 == 1
}

impl Diagrams {
    /// Puts a bit before what the bits below it answer. The bit counts as 0 if the mask leaves it
    /// out.
    #[tactic(auto, using(crate::proofs::Tables::grown_more, crate::proofs::Tables::grown_same, crate::proofs::Tables::grown_inside))]
    fn compare_bit(
        &mut self,
        bit: u32,
        counts: bool,
        one: bool,
        places: ByOrder<u32>,
    ) -> Result<u32, Stop>
        requires less { places.less < length self.old }
        requires equal { places.equal < length self.old }
        requires greater { places.greater < length self.old }
        ensures gives { IfOk result (Gives self.new (λ v. by_bits (counts && v bit) one (answer self.old v places.less) (answer self.old v places.equal) (answer self.old v places.greater))) }
        ensures grew { Grew self.old self.new }
    {
        match (counts, one) {
            (false, false) => Ok(places.equal),
            (false, true) => Ok(places.less),
            (true, false) => self.by_bit(bit, places.equal, places.greater),
            (true, true) => self.by_bit(bit, places.less, places.equal),
        }
    }

    /// Goes on at one of three nodes, by how a field compares with a number.
    #[tactic(auto, using(crate::proofs::Tables::grown_more, crate::proofs::Tables::grown_same, crate::proofs::Tables::grown_inside))]
    fn compare_at(&mut self, field: Field, number: u64, places: ByOrder<u32>) -> Result<u32, Stop>
        requires width { field.width ≤ 64 }
        requires last { field.width ≤ field.last + 1 }
        requires less { places.less < length self.old }
        requires equal { places.equal < length self.old }
        requires greater { places.greater < length self.old }
        ensures gives { IfOk result (Gives self.new (λ v. by_order (number_of v field.last field.mask field.width) (number % 2 ^ field.width)
            (answer self.old v places.less) (answer self.old v places.equal) (answer self.old v places.greater))) }
        ensures grew { Grew self.old self.new }
    {
        let ByOrder {
            less,
            mut equal,
            greater,
        } = places;
        for bit in 0..field.width {
            let counts = is_set(field.mask, bit);
            let one = is_set(number, bit);
            let below = ByOrder {
                less,
                equal,
                greater,
            };
            let next = self.compare_bit(field.last - bit, counts, one, below)?;
            equal = next;
        }
        Ok(equal)
    }

    /// A node that gives one of three answers, by how a field compares with a number.
    #[tactic(auto, using(crate::proofs::Tables::grown_more, crate::proofs::Tables::grown_same, crate::proofs::Tables::grown_inside))]
    pub fn compare(
        &mut self,
        field: Field,
        number: u64,
        answers: ByOrder<Answer>,
    ) -> Result<u32, Stop>
        requires width { field.width ≤ 64 }
        requires last { field.width ≤ field.last + 1 }
        ensures gives { IfOk result (Gives self.new (λ v. by_order (number_of v field.last field.mask field.width) (number % 2 ^ field.width) answers.less answers.equal answers.greater)) }
        ensures grew { Grew self.old self.new }
    {
        let less = self.leaf(answers.less)?;
        let equal = self.leaf(answers.equal)?;
        let greater = self.leaf(answers.greater)?;
        self.compare_at(
            field,
            number,
            ByOrder {
                less,
                equal,
                greater,
            },
        )
    }
}
