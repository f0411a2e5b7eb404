//! The caller that the page of `filter_words` shows, crates/filter_words/README.md.

ghost use Rattle.std.specs.Prelude.{ℕ, ◌<◌, length, IfOk};
ghost use Rattle.filter_words.specs.Words.{IsWord};

use filter_bdd::{Answer, Budget, Stop};
use filter_words::{Word, Words};

/// A node that says whether the sum of two words is above a number.
pub fn sum_is_above(words: &mut Words, first: Word, second: Word, most: u32) -> Result<u32, Stop>
    requires first { IsWord words.old.diagrams first }
    requires second { IsWord words.old.diagrams second }
    ensures { IfOk result (λ i. i < length words.new.diagrams) }
{
    let most = words.constant(most)?;
    let sum = words.add(first, second)?;
    words.is_greater(sum, most)
}

/// Whether the sum of two numbers is above another one.
fn is_above(words: &mut Words, first: u32, second: u32, most: u32) -> Result<bool, Stop> {
    let first = words.constant(first)?;
    let second = words.constant(second)?;
    let node = sum_is_above(words, first, second, most)?;
    Ok(words.diagrams.is(node, Answer::Final(0, true)))
}

#[test]
fn sums_are_compared(rt: HostRuntime) {
    let budget = Budget {
        nodes: 1000,
        steps: 1000,
    };
    let mut words = Words::new(rt.alloc(), budget);
    let above = is_above(&mut words, 520, 60, 579);
    let equal = is_above(&mut words, 520, 60, 580);
    let wraps = is_above(&mut words, u32::MAX, 60, 100);
    assert_eq!(&rt; above, Ok(true));
    assert_eq!(&rt; equal, Ok(false));
    assert_eq!(&rt; wraps, Ok(false));
}
