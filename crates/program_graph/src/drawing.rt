//! The text for Graphviz.

use crate::known::{Known, known_places};
use crate::questions::Question;
use crate::ways::{Way, way_from};
use bpfvm::{Executed, Insn, NoMemory, Program, code};
use std::alloc::{AllocError, Global};

/// What is drawn: the instructions, what is known at each, and the run whose way is marked.
#[derive(Clone, Copy)]
struct Drawing<'a> {
    insns: &'a [Insn],
    known: &'a [Option<Known>],
    run: &'a [Executed],
}

/// What marks a box or an arrow that the run came along.
const MARK: &str = ", penwidth=3";

impl Drawing<'_> {
    /// Whether a box begins at a place.
    fn begins(&self, place: usize) -> bool {
        match self.known.get(place) {
            Some(Some(known)) => known.begins,
            _ => false,
        }
    }

    /// The place of the last instruction of the box that begins at a place: one that asks or
    /// returns, or the one before another box.
    fn last_of(&self, first: usize) -> usize {
        let mut place = first;
        for _ in 0..self.insns.len() {
            match way_from(self.insns, place) {
                Way::To(next) if !self.begins(next) => place = next,
                _ => return place,
            }
        }
        place
    }

    /// Whether the run came to the box that begins at a place.
    fn is_on_way(&self, first: usize) -> bool {
        self.run.iter().any(|step| step.place == first)
    }

    /// The place that the run's next box begins at, after the instruction at a place.
    fn next_box(&self, last: usize) -> Option<usize> {
        let mut is_past = false;
        for step in self.run {
            if is_past && self.begins(step.place) {
                return Some(step.place);
            }
            is_past = is_past || step.place == last;
        }
        None
    }

    /// What the box says that ends at a place.
    fn question_at(&self, last: usize) -> Option<Question<'_>> {
        let insn = self.insns.get(last)?;
        let known = self.known.get(last).copied()??;
        Some(Question {
            insn,
            held: known.after(insn).held,
        })
    }

    /// Appends the box that begins at a place.
    fn put_box(&self, text: &mut String, first: usize, last: usize) -> Result<(), AllocError> {
        let Some(question) = self.question_at(last) else {
            return Ok(());
        };
        let is_end = question.insn.code == code::RET_K || question.insn.code == code::RET_A;
        let shape = if is_end { ", style=rounded" } else { "" };
        let mark = if self.is_on_way(first) { MARK } else { "" };
        write!(text, "  n{first} [label=\"{question}\"{shape}{mark}];\n")
    }

    /// Appends an arrow from the box between two places to another box.
    fn put_arrow(
        &self,
        text: &mut String,
        first: usize,
        last: usize,
        next: usize,
        word: &str,
    ) -> Result<(), AllocError> {
        let mark = if self.next_box(last) == Some(next) {
            MARK
        } else {
            ""
        };
        write!(text, "  n{first} -> n{next} [label=\"{word}\"{mark}];\n")
    }

    /// Appends the box that begins at a place, and the arrows from it.
    fn put_place(&self, text: &mut String, first: usize) -> Result<(), AllocError> {
        if !self.begins(first) {
            return Ok(());
        }
        let last = self.last_of(first);
        self.put_box(text, first, last)?;
        match way_from(self.insns, last) {
            Way::End => Ok(()),
            Way::To(next) => self.put_arrow(text, first, last, next, ""),
            Way::Test(yes, no) => {
                self.put_arrow(text, first, last, yes, "yes")?;
                self.put_arrow(text, first, last, no, "no")
            }
        }
    }
}

/// The graph of a program as a text in the language of Graphviz: `digraph filter {` .. `}`. A box
/// is named after the place of its first instruction, `n0`, and says what its last one asks, as
/// `destination port = 443?`; two arrows go from it, `yes` and `no`. What the run came along is
/// drawn with thicker lines; an empty run marks nothing.
pub fn write_graph(alloc: Global, program: &Program, run: &[Executed]) -> Result<String, NoMemory> {
    let insns = program.insns();
    let known = known_places(alloc, insns)?;
    let drawing = Drawing {
        insns,
        known: known.as_slice(),
        run,
    };
    let mut text = String::new(alloc);
    text.push_str("digraph filter {\n  node [shape=box];\n")?;
    for place in 0..insns.len() {
        drawing.put_place(&mut text, place)?;
    }
    text.push_str("}\n")?;
    Ok(text)
}
