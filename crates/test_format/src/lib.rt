//! Tests of `savefile` and `bpfvm`: savefiles that are read and written, programs of the filter
//! machine and their listings.
#![tactic(auto)]

#[cfg(test)]
mod machine;
#[cfg(test)]
mod same;
#[cfg(test)]
mod savefiles;
