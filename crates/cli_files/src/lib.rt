//! Files as a command uses them: each opened or created once, when it is first needed, and none
//! instead of another.
#![tactic(auto)]

pub mod captures;
pub mod late;
pub mod paths;
pub mod piped;
pub mod reading;
pub mod retried;
pub mod streams;
