//! A capture cut by a filter: what `bpftap cut` and `bpftap split` write.
#![tactic(auto)]

pub mod cut;
