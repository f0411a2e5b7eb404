//! The packets of several captures, in order.

ghost use Rattle.std.specs.Prelude.{◌≡◌, ◌++◌, ◌≤◌, ◌<◌, ℕ, List, [], ◌∷◌, map, length, IfOk, IfErr, OnOk, ◌⊎◌, option_map};
ghost use Rattle.std.specs.List.{AllByRecursion};
ghost use Rattle.savefile.specs.Savefile.{RefusesHeader, IsCapture};
ghost use Rattle.tap_steps.specs.Playlist.{IsPlaylist, NoHeaderIsRefused, RefusesCapture, placed, RefusesCapture};
ghost use Rattle.tap_steps.specs.Watching.{AllPackets};
ghost use Rattle.tap_steps.specs.declared.fault.PlaylistFault.TheVariants.{NoMemory, Capture};

use crate::fault::PlaylistFault;
use savefile::{Packet, header_of, read_all};
use std::alloc::{AllocError, Global};

/// A packet with the number of its capture and its place there, both from 0.
#[derive(Debug, Drop)]
pub struct PlacedPacket {
    pub capture: u32,
    pub place: u64,
    pub packet: Packet,
}

/// The packets of captures, and the record fault that ended them, with the number of its capture.
#[derive(Debug, Drop)]
pub struct Playlist {
    pub arrivals: Vec<PlacedPacket>,
    pub record_fault: Option<(u32, savefile::Fault)>,
}

impl Playlist {
    /// Reads the next capture. After one with a record fault only the header is read: it gives no
    /// packets.
    fn read_next(&mut self, alloc: Global, n: u32, text: &[u8]) -> Result<(), PlaylistFault>
        ensures packets { OnOk result (AllPackets self.old.arrivals.items → AllPackets self.new.arrivals.items) }
        ensures more { OnOk result ((texts : List (List ℕ)) → length texts ≡ n → IsPlaylist 0 texts self.old.arrivals.items self.old.record_fault →
            IsPlaylist 0 (texts ++ text.now ∷ []) self.new.arrivals.items self.new.record_fault) }
        ensures stands { OnOk result ((fault : _) → RefusesHeader text.now fault → ⊥) }
        ensures err { IfErr result (λ f. (f ≡ NoMemory) ⊎ ((fault : _) × (f ≡ Capture n fault) × RefusesHeader text.now fault)) }
    {
        if self.record_fault.is_some() {
            return look_at_header(n, text);
        }
        let (packets, fault) = read_one(alloc, n, text)?;
        place(&mut self.arrivals, n, packets)?;
        self.record_fault = record_fault_at(n, fault);
        Ok(())
    }
}

fn record_fault_at(n: u32, fault: Option<savefile::Fault>) -> Option<(u32, savefile::Fault)>
    ensures { result ≡ option_map (λ f. (n, f)) fault }
{
    match fault {
        Some(fault) => Some((n, fault)),
        None => None,
    }
}

/// Appends packets with their places.
fn place(to: &mut Vec<PlacedPacket>, capture: u32, packets: Vec<Packet>) -> Result<(), AllocError>
    ensures items { OnOk result (to.new.items ≡ to.old.items ++ placed capture 0 packets.items) }
    ensures packets { OnOk result (AllPackets to.old.items → AllPackets to.new.items) }
{
    let mut place = 0;
    for packet in packets {
        are_bytes(packet.bytes.as_slice());
        to.push(PlacedPacket {
            capture,
            place,
            packet,
        })?;
        place += 1;
    }
    Ok(())
}

/// What the type says of bytes.
fn are_bytes(bytes: &[u8])
    ensures { AllByRecursion (λ b. b < 256) bytes.now }
{}

/// The packets of a capture.
fn read_one(
    alloc: Global,
    n: u32,
    text: &[u8],
) -> Result<(Vec<Packet>, Option<savefile::Fault>), PlaylistFault>
    ensures reads { IfOk result (λ r. IsCapture text.now r.0.items r.1) }
    ensures stands { OnOk result ((fault : _) → RefusesHeader text.now fault → ⊥) }
    ensures err { IfErr result (λ f. (f ≡ NoMemory) ⊎ ((fault : _) × (f ≡ Capture n fault) × RefusesHeader text.now fault)) }
{
    match read_all(alloc, text) {
        Ok((_header, packets, fault)) => Ok((packets, fault)),
        Err(savefile::Fault::NoMemory) => Err(PlaylistFault::NoMemory),
        Err(fault) => Err(PlaylistFault::Capture(n, fault)),
    }
}

/// Looks at the header of a capture, and takes no memory.
fn look_at_header(n: u32, text: &[u8]) -> Result<(), PlaylistFault>
    ensures stands { OnOk result ((fault : _) → RefusesHeader text.now fault → ⊥) }
    ensures err { IfErr result (λ f. (fault : _) × (f ≡ Capture n fault) × RefusesHeader text.now fault) }
{
    match header_of(text) {
        Ok(_header) => Ok(()),
        Err(fault) => Err(PlaylistFault::Capture(n, fault)),
    }
}

/// The most captures of a replay.
pub const MAX_CAPTURES: usize = 65_536;

// Clauses and definitions name the constant: it is this number.
const _: () = prove!(MAX_CAPTURES == 65_536);

/// Reads all captures. Those after one with a record fault give no packets, but their headers
/// count.
pub fn read_playlist(alloc: Global, captures: &[&[u8]]) -> Result<Playlist, PlaylistFault>
    requires { length captures.now ≤ 65536 }
    ensures ok { IfOk result (λ p. IsPlaylist 0 (map (λ c. c.now) captures.now) p.arrivals.items p.record_fault) }
    ensures packets { IfOk result (λ p. AllPackets p.arrivals.items) }
    ensures stand { OnOk result (NoHeaderIsRefused (map (λ c. c.now) captures.now)) }
    ensures err { IfErr result (λ f. (f ≡ NoMemory) ⊎ RefusesCapture (map (λ c. c.now) captures.now) f) }
{
    let mut playlist = Playlist {
        arrivals: Vec::new(alloc),
        record_fault: None,
    };
    for (n, text) in captures.iter().enumerate() {
        playlist.read_next(alloc, n as u32, text)?;
    }
    Ok(playlist)
}
