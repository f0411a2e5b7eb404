//! The tap's texts: what the files LISTENERS and SCRIPT ask for, and what is printed of a replay,
//! as text and as JSON Lines.
//!
//! [`read_plan`](plan::read_plan) reads the two files.
//! [`print_reports_in`](report::print_reports_in) prints what each listener got, and
//! [`AnswerPrinter`](answers::AnswerPrinter) a line for each step, with what each listener answered
//! and why.
#![tactic(auto)]

pub mod answers;
pub mod buffer;
pub mod laws;
pub mod listeners;
mod members;
pub mod objects;
pub mod plan;
pub mod reasons;
pub mod rejections;
pub mod report;
pub mod script;
