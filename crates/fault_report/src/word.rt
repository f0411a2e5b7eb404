//! The words of a fault.

ghost use Rattle.std.specs.Prelude.{◌≡◌, Some};
ghost use Rattle.fault_report.specs.Words.{further_name, further_names, numbers_text, place_word, word_text, words_text};
ghost use Rattle.fault_report.specs.declared.word.Word.TheVariants.{Number};

use std::fmt;
use std::fmt::{Display, Formatter};

/// A word of a fault after its first name.
#[derive(Clone, Copy, Debug, PartialEq, Eq)]
pub enum Word {
    /// The name of a fault inside the one before.
    Name(&'static str),
    /// A number of the fault before.
    Number(u64),
    /// No word, as the place of a fault that has none.
    Nothing,
}

impl Word {
    /// A number that counts.
    pub fn count(number: usize) -> Word
        ensures { result ≡ Number number }
    {
        Word::Number(number as u64)
    }

    /// The place of a fault, if it has one.
    pub fn place(place: Option<usize>) -> Word
        ensures { result ≡ place_word place }
    {
        match place {
            Some(place) => Word::count(place),
            None => Word::Nothing,
        }
    }

    /// The place of a record, if a fault has one.
    pub fn record(place: Option<u64>) -> Word
        ensures { result ≡ place_word place }
    {
        match place {
            Some(place) => Word::Number(place),
            None => Word::Nothing,
        }
    }
}

/// Prints a word as it stands in a line.
impl Display for Word {
    ghost output = { λ word. Some (word_text word) };

    fn fmt<W: fmt::Write>(&self, f: &mut Formatter<W>) -> fmt::Result {
        match self {
            Word::Name(name) => write!(f, " {name}"),
            Word::Number(number) => write!(f, " {number}"),
            Word::Nothing => Ok(()),
        }
    }
}

/// Prints words as they stand in a line.
#[derive(Clone, Copy)]
pub(crate) struct Words<'a>(pub &'a [Word]);

impl Display for Words<'_> {
    ghost output = { λ words. Some (words_text words.0.now) };

    fn fmt<W: fmt::Write>(&self, f: &mut Formatter<W>) -> fmt::Result {
        for word in self.0 {
            write!(f, "{word}")?;
        }
        Ok(())
    }
}

/// Prints a word that is a name, after a blank.
#[derive(Clone, Copy)]
struct FurtherName(Word);

impl Display for FurtherName {
    ghost output = { λ word. Some (further_name word.0) };

    fn fmt<W: fmt::Write>(&self, f: &mut Formatter<W>) -> fmt::Result {
        match self.0 {
            Word::Name(name) => write!(f, " {name}"),
            Word::Number(_) | Word::Nothing => Ok(()),
        }
    }
}

/// Prints the names among words, each after a blank.
#[derive(Clone, Copy)]
pub(crate) struct FurtherNames<'a>(pub &'a [Word]);

impl Display for FurtherNames<'_> {
    ghost output = { λ words. Some (further_names words.0.now) };

    fn fmt<W: fmt::Write>(&self, f: &mut Formatter<W>) -> fmt::Result {
        for word in self.0 {
            write!(f, "{}", FurtherName(*word))?;
        }
        Ok(())
    }
}

/// Prints the numbers among words, with a comma between.
#[derive(Clone, Copy)]
pub(crate) struct Numbers<'a>(pub &'a [Word]);

impl Display for Numbers<'_> {
    ghost output = { λ words. Some (numbers_text words.0.now) };

    fn fmt<W: fmt::Write>(&self, f: &mut Formatter<W>) -> fmt::Result {
        let mut is_first = true;
        for word in self.0 {
            if let Word::Number(number) = word {
                if !is_first {
                    f.write_str(",")?;
                }
                write!(f, "{number}")?;
                is_first = false;
            }
        }
        Ok(())
    }
}
