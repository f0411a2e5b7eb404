//! Tests of `filtergen` and `filter_explain` that no command shows: trees that no text reads as and
//! random trees, whose programs are compared with the evaluator, what trees weigh and need, and the
//! callers of the pages.
#![tactic(auto)]

#[cfg(test)]
mod asking;
#[cfg(test)]
mod caller;
#[cfg(test)]
mod comparisons;
#[cfg(test)]
mod explained;
#[cfg(test)]
mod random_lists;
#[cfg(test)]
mod random_relations;
#[cfg(test)]
mod relations;
#[cfg(test)]
mod same;
#[cfg(test)]
mod weights;
