//! Steps, played over opened listeners and the packets of captures.
//!
//! [`read_playlist`] reads the packets of captures in order, [`play`] plays steps over them, and
//! [`report_all`] and [`trace_all`] report what each listener got. `tap` opens the listeners:
//! nothing here knows what an expression means, so this crate is proved beside the compiler and
//! need not wait for it.
#![tactic(auto)]

mod answer;
mod fault;
mod filters;
mod playing;
mod playlist;
mod report;
mod reporting;
mod step;
mod watched;

pub use answer::{Answer, Answered};
pub use fault::PlaylistFault;
pub use filters::{Filter, MAX_LISTENERS, Spec};
pub use playing::{first_without_listener, play};
pub use playlist::{MAX_CAPTURES, PlacedPacket, Playlist, read_playlist};
pub use report::{Report, Trace};
pub use reporting::{report_all, trace_all};
pub use step::Step;
pub use watched::Watched;
