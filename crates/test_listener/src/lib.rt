//! Tests of `listener` and `handover`: buffers of records, listeners beside their plain list, and
//! pairs in one thread and in two.
#![tactic(auto)]

#[cfg(test)]
mod listeners;
#[cfg(test)]
mod pairs;
#[cfg(test)]
mod same;
#[cfg(test)]
mod shown;
