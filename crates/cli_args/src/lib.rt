//! The words of the command line, by `clap`.
#![tactic(auto)]

mod arguments;
pub mod check;
pub mod command_line;
pub mod compare;
pub mod counting;
pub mod cut;
pub mod explain;
pub mod hints;
pub mod info;
pub mod join;
pub mod parts;
pub mod places;
pub mod refusal;
pub mod report;
pub mod run;
mod snap;
pub mod split;
pub mod steps;
mod subcommand;
mod topics;
