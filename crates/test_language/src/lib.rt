//! Tests of `filterlang`, `filter_print` and `filter_hints`, of what no contract says and the
//! program does not show: which tokens a text has, that memory suffices, and the callers of their
//! pages.
#![tactic(auto)]

#[cfg(test)]
mod canonical_page;
#[cfg(test)]
mod hints_page;
#[cfg(test)]
mod lengths;
#[cfg(test)]
mod page;
#[cfg(test)]
mod same;
#[cfg(test)]
mod tokens;
