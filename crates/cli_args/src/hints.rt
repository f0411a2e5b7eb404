//! The option `--hints`, which may come before or after the command.

use std::alloc::{AllocError, Global};

/// The word that asks for hints.
const HINTS: &str = "--hints";

/// The word after which no option comes.
const END_OF_OPTIONS: &str = "--";

/// The words that a program is called with, its name first.
#[derive(Drop)]
pub struct CalledWords {
    /// All but those that ask for hints.
    pub words: Vec<String>,
    /// Whether one asks for hints.
    pub asks_hints: bool,
}

/// Takes `--hints` out of the words, wherever it comes before the word `--`.
pub fn called_words(alloc: Global, all: Vec<String>) -> Result<CalledWords, AllocError> {
    let mut words = Vec::with_capacity(alloc, all.len())?;
    let (mut asks_hints, mut is_ended) = (false, false);
    for word in all {
        is_ended = is_ended || word.as_str() == END_OF_OPTIONS;
        if !is_ended && word.as_str() == HINTS {
            asks_hints = true;
        } else {
            words.push(word)?;
        }
    }
    Ok(CalledWords { words, asks_hints })
}
