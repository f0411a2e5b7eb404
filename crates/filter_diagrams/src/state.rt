//! What the registers and the scratch memory hold on a way through a program.

ghost use Rattle.std.specs.Prelude.{◌≡◌, ℕ, ◌<◌, List, IsTrue, IfOk, IfSome, Some};
ghost use Rattle.filter_words.specs.declared.word.Word.{Word};
ghost use Rattle.filter_diagrams.specs.States.{cell, word_in, HasWord, HasCell, IsKept, IsPart};

use crate::actions::Register;
use crate::live::Live;
use crate::refusal::Refusal;
use filter_words::Word;

/// The numbers that the registers and the cells of the scratch memory hold, as words. What is not
/// read again has none.
#[derive(Clone, Copy, Debug, PartialEq, Eq)]
pub(crate) struct State {
    pub accumulator: Option<Word>,
    pub index: Option<Word>,
    pub memory: [Option<Word>; 16],
}

/// A word that is kept.
pub(crate) fn kept(word: Option<Word>) -> Result<Word, Refusal>
    ensures { IfOk result (λ w. word ≡ Some w) }
{
    match word {
        Some(word) => Ok(word),
        None => Err(Refusal::Places),
    }
}

/// A word, if it is read again.
fn read_again(word: Option<Word>, live: bool) -> Option<Word>
    ensures { IsKept word result }
{
    if live { word } else { None }
}

/// One number of two, which is seldom the same of others.
fn mixed(hash: u64, number: u32) -> u64 {
    let sum = (hash ^ u64::from(number)).wrapping_mul(0x9e37_79b9_7f4a_7c15);
    sum ^ (sum >> 29)
}

/// The same of a number and a word.
fn mixed_word(hash: u64, word: Option<Word>) -> u64 {
    let Some(word) = word else {
        return mixed(hash, u32::MAX);
    };
    let mut sum = hash;
    for bit in word.bits {
        sum = mixed(sum, bit);
    }
    sum
}

impl State {
    /// Each register and each cell holds this word.
    pub fn of(word: Word) -> State
        ensures accumulator { result.accumulator ≡ Some word }
        ensures index { result.index ≡ Some word }
        ensures memory { (k : ℕ) → k < 16 → cell result k ≡ Some word }
    {
        State {
            accumulator: Some(word),
            index: Some(word),
            memory: [Some(word); 16],
        }
    }

    /// The word in a register, if it is kept.
    pub fn register(&self, register: Register) -> Option<Word>
        ensures { result ≡ word_in register self.now }
    {
        match register {
            Register::Accumulator => self.accumulator,
            Register::Index => self.index,
        }
    }

    /// The word in a cell, if it is kept.
    pub fn cell(&self, place: u32) -> Option<Word>
        ensures { IfSome result (λ w. (place < 16) × (cell self.now place ≡ Some w)) }
    {
        if place >= 16 {
            return None;
        }
        self.memory[place as usize]
    }

    /// The same, and this word in a register.
    pub fn with_register(&self, register: Register, word: Word) -> State
        ensures { HasWord self.now register word result }
    {
        let mut next = *self;
        match register {
            Register::Accumulator => next.accumulator = Some(word),
            Register::Index => next.index = Some(word),
        }
        next
    }

    /// The same, and this word in a cell. An error if there is no such cell.
    pub fn with_cell(&self, place: u32, word: Word) -> Result<State, Refusal>
        ensures { IfOk result (HasCell self.now place word) }
    {
        if place >= 16 {
            return Err(Refusal::Places);
        }
        let mut next = *self;
        next.memory[place as usize] = Some(word);
        Ok(next)
    }

    /// The same, without what is not read again.
    pub fn live(&self, live: Live) -> State
        ensures { IsPart self.now result }
    {
        let mut memory = self.memory;
        for place in 0..16 {
            memory[place] = read_again(self.memory[place], live.has_cell(place as u32));
        }
        State {
            accumulator: read_again(self.accumulator, live.accumulator),
            index: read_again(self.index, live.index),
            memory,
        }
    }

    /// A number that is the same of equal states, and seldom of others.
    pub fn digest(&self, place: usize) -> u64 {
        let registers = mixed_word(mixed_word(place as u64, self.accumulator), self.index);
        let mut sum = registers;
        for word in self.memory {
            sum = mixed_word(sum, word);
        }
        sum
    }
}
