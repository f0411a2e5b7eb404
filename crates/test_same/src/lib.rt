//! Tests of `filter_same`: the caller of its page, pairs of expressions that it decides, pairs that
//! it may not call the same, and programs. The caller of the page of `filter_diagrams`.
#![tactic(auto)]

#[cfg(test)]
mod arithmetic;
#[cfg(test)]
mod diagrams;
#[cfg(test)]
mod kinds;
#[cfg(test)]
mod pairs;
#[cfg(test)]
mod programs;
#[cfg(test)]
mod relations;
#[cfg(test)]
mod same;
