//! A feeder and a drain, each in a thread of its own, hand a listener's packets over without a
//! lock: the calls of a pair that is settled have one legal history.
#![tactic(auto)]

mod atomic_words;
mod calls;
mod drain;
mod feeder;
pub mod laws;
mod link;
mod stand;
mod view;

pub use calls::{EndStep, Feed, Take, Word, WordStep};
pub use drain::{Drain, DrainEnd, Read};
pub use feeder::{BareEnd, FeedEnd, Feeder};
pub use link::{BareSettled, Link, Past, Settled, pair, pair_as, settle, settle_bare};
pub use view::{Profile, Role, Sight, View};
