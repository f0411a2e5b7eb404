//! `bpftap check --dot`: the program of a filter as a graph for Graphviz, with the way of a packet
//! marked.
#![tactic(auto)]

pub mod command;
mod run;
