//! Tests of `filter_words`, by the caller of its page, and of `filter_symbols`.
#![tactic(auto)]

#[cfg(test)]
mod caller;
#[cfg(test)]
mod symbols;
