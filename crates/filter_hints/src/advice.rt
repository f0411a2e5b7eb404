//! What helps to fix an expression.

ghost use Rattle.std.specs.Prelude.{◌≡◌, IfNone, IfSome, None, Some};
ghost use Rattle.filter_hints.specs.Advising.{second_line, sentence, way_line};

use crate::addresses::EthernetAdvice;
use crate::instead::Instead;
use crate::left_sides::SideAdvice;
use display_filters::DisplayAdvice;
use std::alloc::AllocError;
use std::fmt;
use std::fmt::{Display, Formatter};
use visible_text::Shown;

/// What is said of an expression whose program is too long.
const LONG_PROGRAM: &str =
    "its program may have more than 512 instructions: cut it into parts, with a `bpftap cut` for each,";

/// What helps to fix an expression: it prints as a sentence.
#[derive(Clone, Copy)]
pub enum Advice<'a> {
    /// A sentence that is the same for each such fault.
    Said(&'static str),
    /// A sentence around a word in backquotes.
    Round(&'static str, &'a [u8], &'static str),
    /// A sentence around a word that libpcap's compiler may read.
    Elsewhere(&'static str, &'a [u8], &'static str),
    /// What is written in place of a part of the expression, and that part.
    Instead(Instead<'a>, &'a [u8]),
    /// What is written for a test of a display filter of Wireshark.
    Display(DisplayAdvice<'a>),
    /// What accepts the usual port of a protocol, and its name.
    Service(&'static str, &'a [u8]),
    /// An Ethernet address that is written otherwise.
    Ethernet(EthernetAdvice<'a>),
    /// A comparison that lacks a side.
    Side(SideAdvice<'a>),
    /// An expression whose program is too long; libpcap's compiler may find a shorter one.
    LongProgram,
}

impl<'a> Advice<'a> {
    /// The word is meant to be this one, in small letters.
    pub(crate) fn small_letters(backslash: bool, word: &'static str) -> Advice<'a> {
        let before = if backslash {
            "words are in small letters: `\\"
        } else {
            "words are in small letters: `"
        };
        Advice::Round(before, word.as_bytes(), "`")
    }

    /// The name of a host or a net.
    pub(crate) fn host(name: &'a [u8]) -> Advice<'a> {
        Advice::Elsewhere(
            "names of hosts and nets are not supported: write the address of `",
            name,
            "`",
        )
    }

    /// The way over libpcap's compiler, if that may make a program where this one does not: a
    /// second line below the sentence.
    pub fn by_libpcap(&self) -> Option<ByLibpcap>
        ensures some { IfSome result (λ way. second_line self.now ≡ Some (way_line way)) }
        ensures none { IfNone result (second_line self.now ≡ None) }
    {
        match self {
            Advice::Elsewhere(_, _, _) => Some(ByLibpcap("libpcap may read that")),
            Advice::LongProgram => Some(ByLibpcap("or try whether libpcap finds a shorter one")),
            _ => None,
        }
    }

    /// The word that may be meant.
    pub(crate) fn did_you_mean(backslash: bool, word: &'static str) -> Advice<'a> {
        let before = if backslash {
            "did you mean `\\"
        } else {
            "did you mean `"
        };
        Advice::Round(before, word.as_bytes(), "`?")
    }
}

/// The way to a program that this compiler does not make: it prints as a line.
#[derive(Clone, Copy)]
pub struct ByLibpcap(&'static str);

impl Display for ByLibpcap {
    ghost output = { λ way. Some (way_line way) };

    fn fmt<W: fmt::Write>(&self, f: &mut Formatter<W>) -> fmt::Result {
        write!(
            f,
            "{}: tcpdump -y EN10MB -ddd EXPR > f.bpf, then -f f.bpf with cut, check or explain",
            self.0
        )
    }
}

impl Display for Advice<'_> {
    ghost output = { λ advice. sentence advice };

    fn fmt<W: fmt::Write>(&self, f: &mut Formatter<W>) -> fmt::Result {
        match self {
            Advice::Said(sentence) => f.write_str(*sentence),
            Advice::LongProgram => f.write_str(LONG_PROGRAM),
            Advice::Round(before, word, after) | Advice::Elsewhere(before, word, after) => {
                write!(f, "{before}{}{after}", Shown(*word))
            }
            Advice::Instead(instead, part) => {
                write!(f, "write `{instead}` for `{}`", Shown(*part))
            }
            Advice::Display(advice) => write!(f, "{advice}"),
            Advice::Service(written, word) => write!(
                f,
                "`{}` is no word of the language: its usual port is `{written}`",
                Shown(*word)
            ),
            Advice::Ethernet(advice) => write!(f, "{advice}"),
            Advice::Side(advice) => write!(f, "{advice}"),
        }
    }
}

/// What helps, if something does; or that memory was refused.
pub(crate) type Found<'a> = Result<Option<Advice<'a>>, AllocError>;
