//! Tests of the commands over captures that the program does not show: devices that break, files
//! over a made-up system, what is reported of each, and the callers of the pages.
#![tactic(auto)]

#[cfg(test)]
mod compare_memory;
#[cfg(test)]
mod compared;
#[cfg(test)]
mod cut;
#[cfg(test)]
mod decided;
#[cfg(test)]
mod explain_memory;
#[cfg(test)]
mod explained;
#[cfg(test)]
mod files_told;
#[cfg(test)]
mod in_memory;
#[cfg(test)]
mod in_time;
#[cfg(test)]
mod late;
#[cfg(test)]
mod paths;
#[cfg(test)]
mod printer;
#[cfg(test)]
mod same;
#[cfg(test)]
mod sought;
#[cfg(test)]
mod split;
#[cfg(test)]
#[cfg(test)]
mod surveyed;
#[cfg(test)]
mod system;
#[cfg(test)]
mod telling;
#[cfg(test)]
mod unflushed;
#[cfg(test)]
mod watched;
