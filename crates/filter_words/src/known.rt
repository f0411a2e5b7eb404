//! What is known of words: bits that are the same at every assignment.

ghost use Rattle.std.specs.Prelude.{◌≡◌, ℕ, ◌+◌, ◌*◌, ◌^◌, ◌<◌, Bool, IfSome};
ghost use Rattle.filter_bdd.specs.Fields.{digit};
ghost use Rattle.filter_words.specs.Words.{bit, value, IsBit, IsWord};

use crate::word::{Word, Words};
use filter_bdd::Answer;

/// A number with one more bit, if it is still below 2^32.
fn with_bit(number: u32, bit: usize, one: bool) -> Option<u32>
    requires { bit < 32 }
    ensures { IfSome result (λ n. n ≡ number + 2 ^ bit * digit one) }
{
    if one {
        number.checked_add(1 << bit)
    } else {
        Some(number)
    }
}

impl Words {
    /// What a node says, if it is a constant.
    fn known_bit(&self, node: u32) -> Option<bool>
        requires { IsBit self.now.diagrams node }
        ensures { IfSome result (λ b. (v : ℕ → Bool) → bit self.now.diagrams v node ≡ b) }
    {
        if self.diagrams.is(node, Answer::Final(0, true)) {
            return Some(true);
        }
        if self.diagrams.is(node, Answer::Final(0, false)) {
            return Some(false);
        }
        None
    }

    /// How many bits of a word are no constants.
    pub(crate) fn free_bits(&self, word: Word) -> usize
        requires { IsWord self.now.diagrams word }
    {
        let mut free = 0usize;
        for i in 0..32 {
            if self.known_bit(word.bits[i]).is_none() {
                free = free.saturating_add(1);
            }
        }
        free
    }

    /// The number that a word is, if all its bits are constants.
    pub fn known(&self, word: Word) -> Option<u32>
        requires { IsWord self.now.diagrams word }
        ensures { IfSome result (λ n. (v : ℕ → Bool) → value self.now.diagrams v word ≡ n) }
    {
        let mut number = 0;
        for i in 0..32 {
            let one = self.known_bit(word.bits[i])?;
            number = with_bit(number, i, one)?;
        }
        Some(number)
    }
}
