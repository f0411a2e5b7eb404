//! What holds of the definitions of both ways of replaying: in threads and step by step.
#![tactic(auto)]

ghost use Rattle.tap_laws.specs.Laws.{GiveOnePlaylist};

use savefile::Source;

/// Threads give the playlist that steps do. If the sources know their bytes, and each capture ends
/// for what is in it (its end, or a torn or bad record), then what arrived at an interface is the
/// playlist of the captures, with the same record fault. This does nothing: its contract is the
/// law.
pub fn one_playlist<S: Source>(_source: &S)
    ensures { GiveOnePlaylist S.left S.failures }
{}
