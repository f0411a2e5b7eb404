//! Words shifted.

ghost use Rattle.std.specs.Prelude.{◌≡◌, ℕ, ◌<◌, Bool, nat_lt, if◌then◌else◌, slice_index, IfOk};
ghost use Rattle.bpfvm.specs.Codes.{ShiftLeft, ShiftRight};
ghost use Rattle.filter_bdd.specs.Diagrams.{Grew};
ghost use Rattle.filter_words.specs.Words.{number, word_bit, value, IsWord, HasValue, Calculates};
ghost use Rattle.filter_words.specs.Steps.{moved, shifted};

use crate::word::{Word, Words};
use filter_bdd::Stop;

/// Where bits go.
#[derive(Clone, Copy, Debug, PartialEq, Eq)]
pub(crate) enum Shift {
    /// To the higher places.
    Left,
    /// To the lower places.
    Right,
}

impl Word {
    /// The node at a place of the word that is moved by `count` places, or `no` if none comes.
    fn moved(&self, shift: Shift, no: u32, count: usize, place: usize) -> u32
        requires place { place < 32 }
        requires count { count < 32 }
        ensures { result ≡ moved shift (slice_index self.now.bits) no count place }
    {
        match shift {
            Shift::Left if place >= count => self.bits[place - count],
            Shift::Right if place + count < 32 => self.bits[place + count],
            _ => no,
        }
    }
}

impl Words {
    /// A word moved by `count` places, less than 32.
    #[tactic(auto, using(crate::proofs::Nodes::grew_more, crate::proofs::Nodes::grew_same, crate::proofs::Nodes::is_bit_grown, crate::proofs::Nodes::word_grown))]
    pub(crate) fn shift_by(&mut self, shift: Shift, word: Word, count: usize) -> Result<Word, Stop>
        requires word { IsWord self.old.diagrams word }
        requires count { count < 32 }
        ensures value { IfOk result (HasValue self.new.diagrams (λ v. shifted shift (value self.old.diagrams v word) count)) }
        ensures grew { Grew self.old.diagrams self.new.diagrams }
    {
        let no = self.fixed(false)?;
        let mut bits = [0; 32];
        for i in 0..32 {
            bits[i] = word.moved(shift, no, count, i);
        }
        Ok(Word { bits })
    }

    /// A word moved by the number that the low five bits of another one are.
    #[tactic(auto, using(crate::proofs::Nodes::grew_more, crate::proofs::Nodes::grew_same, crate::proofs::Nodes::is_bit_grown, crate::proofs::Nodes::word_grown))]
    fn shift_low(&mut self, shift: Shift, word: Word, by: Word) -> Result<Word, Stop>
        requires word { IsWord self.old.diagrams word }
        requires by { IsWord self.old.diagrams by }
        ensures value { IfOk result (HasValue self.new.diagrams (λ v. shifted shift (value self.old.diagrams v word) (number (word_bit self.old.diagrams v by) 5))) }
        ensures grew { Grew self.old.diagrams self.new.diagrams }
    {
        let mut moved = word;
        for stage in 0..5 {
            let next = self.shift_by(shift, moved, 1 << stage)?;
            let chosen = self.select(by.bits[stage], next, moved)?;
            moved = chosen;
        }
        Ok(moved)
    }

    /// A word moved by the number that another one is. By 32 or more it is 0.
    #[tactic(auto, using(crate::proofs::Nodes::grew_more, crate::proofs::Nodes::grew_same, crate::proofs::Nodes::is_bit_grown, crate::proofs::Nodes::word_grown))]
    fn shift(&mut self, shift: Shift, word: Word, by: Word) -> Result<Word, Stop>
        requires word { IsWord self.old.diagrams word }
        requires by { IsWord self.old.diagrams by }
        ensures value { IfOk result (HasValue self.new.diagrams (λ v. if nat_lt (value self.old.diagrams v by) 32 then shifted shift (value self.old.diagrams v word) (value self.old.diagrams v by) else 0)) }
        ensures grew { Grew self.old.diagrams self.new.diagrams }
    {
        let low = self.shift_low(shift, word, by)?;
        let most = self.constant(31)?;
        let zero = self.constant(0)?;
        let far = self.is_greater(by, most)?;
        self.select(far, zero, low)
    }

    /// A word shifted to the left, by the number that another one is. By 32 or more it is 0.
    #[tactic(auto, using(crate::proofs::Nodes::grew_more, crate::proofs::Nodes::grew_same, crate::proofs::Nodes::is_bit_grown, crate::proofs::Nodes::word_grown))]
    pub fn shift_left(&mut self, word: Word, by: Word) -> Result<Word, Stop>
        requires word { IsWord self.old.diagrams word }
        requires by { IsWord self.old.diagrams by }
        ensures calculates { IfOk result (Calculates self.old.diagrams self.new.diagrams ShiftLeft word by) }
        ensures grew { Grew self.old.diagrams self.new.diagrams }
    {
        self.shift(Shift::Left, word, by)
    }

    /// A word shifted to the right, by the number that another one is. By 32 or more it is 0.
    #[tactic(auto, using(crate::proofs::Nodes::grew_more, crate::proofs::Nodes::grew_same, crate::proofs::Nodes::is_bit_grown, crate::proofs::Nodes::word_grown))]
    pub fn shift_right(&mut self, word: Word, by: Word) -> Result<Word, Stop>
        requires word { IsWord self.old.diagrams word }
        requires by { IsWord self.old.diagrams by }
        ensures calculates { IfOk result (Calculates self.old.diagrams self.new.diagrams ShiftRight word by) }
        ensures grew { Grew self.old.diagrams self.new.diagrams }
    {
        self.shift(Shift::Right, word, by)
    }
}
