//! Entries and targets: where code is entered, by what is known of the packet, and where a test
//! goes on.

ghost use Rattle.std.specs.Prelude.{◌≡◌, ◌+◌, ◌≤◌, ◌⊎◌, length, None};
ghost use Rattle.std.specs.Bool.{OnTrue};
ghost use Rattle.filtergen_trim.specs.declared.unreached.TheConstants.{MAX_CODE};
ghost use Rattle.filtergen_code.specs.Emission.{IsPlace, Extends};
ghost use Rattle.filtergen_code.specs.Entries.{IsEntry, for_answer, IsFor, AreOther, with_other_protocol, Relays, RelaysBoth, CanEmitBy};

use crate::code::{Code, Exits, REACH};
use filter_meaning::protocol_number;
use filter_tree::Transport;
use filtergen_facts::PacketFacts;

/// The entry of a piece of code: the place for any packet, and places for packets of which a test
/// before has shown something, which need not be tested for it again. If that spares nothing, the
/// places are the same.
#[derive(Clone, Copy)]
pub(crate) struct Entry {
    /// For any packet.
    pub any: usize,
    /// For a packet of IPv4.
    pub ip: usize,
    /// For a packet of another type.
    pub other: usize,
    /// For a first fragment of IPv4 of the protocol `transport`.
    pub first_fragment: usize,
    /// `None` is any protocol with ports.
    pub transport: Option<Transport>,
}

impl Entry {
    /// One place for all packets.
    pub fn at(place: usize) -> Entry
        ensures { result ≡ record { any = place; ip = place; other = place; first_fragment = place; transport = None } }
    {
        Entry {
            any: place,
            ip: place,
            other: place,
            first_fragment: place,
            transport: None,
        }
    }

    /// The entry of a list of ports of one protocol, made to lead first fragments of another
    /// protocol to where the list's No leads them.
    pub fn with_other_protocol(self, asked: Option<Transport>, next: Entry) -> Entry
        ensures { (result ≡ self) ⊎ (AreOther asked next.transport × (result ≡ with_other_protocol self next)) }
    {
        match (asked, next.transport) {
            (Some(own), Some(other)) if protocol_number(own) != protocol_number(other) => Entry {
                first_fragment: next.first_fragment,
                transport: next.transport,
                ..self
            },
            _ => self,
        }
    }

    /// The place for a first fragment of this protocol.
    fn first_fragment_of(self, transport: Option<Transport>) -> usize
        ensures { IsFor transport result self }
    {
        match (self.transport, transport) {
            (None, _) => self.first_fragment,
            (Some(own), Some(wanted)) if own == wanted => self.first_fragment,
            _ => self.ip,
        }
    }
}

/// Where the test of an expression goes on: the entry of the code that follows for each answer.
#[derive(Clone, Copy)]
pub(crate) struct Targets {
    pub yes: Entry,
    pub no: Entry,
}

/// What is known of a packet at a test, and where the test goes on.
#[derive(Clone, Copy)]
pub(crate) struct Context {
    pub known: PacketFacts,
    pub targets: Targets,
}

impl Targets {
    pub fn opposite(self) -> Targets
        ensures { result ≡ record { yes = self.no; no = self.yes } }
    {
        let (yes, no) = (self.no, self.yes);
        Targets { yes, no }
    }

    pub fn for_answer(self, holds: bool) -> Entry
        ensures { result ≡ for_answer holds self }
    {
        if holds { self.yes } else { self.no }
    }

    pub fn any_exits(self) -> Exits
        ensures { result ≡ record { yes = self.yes.any; no = self.no.any } }
    {
        let (yes, no) = (self.yes.any, self.no.any);
        Exits { yes, no }
    }

    pub fn ip_exits(self) -> Exits
        ensures { result ≡ record { yes = self.yes.ip; no = self.no.ip } }
    {
        let (yes, no) = (self.yes.ip, self.no.ip);
        Exits { yes, no }
    }

    /// The exits for a packet of another type.
    pub fn other_exits(self) -> Exits
        ensures { result ≡ record { yes = self.yes.other; no = self.no.other } }
    {
        let (yes, no) = (self.yes.other, self.no.other);
        Exits { yes, no }
    }

    /// Whether a packet of IPv4 goes on at the same places as one of another type.
    pub fn is_one_for_all_types(self) -> bool
        ensures { OnTrue result ((self.yes.other ≡ self.yes.ip) × (self.no.other ≡ self.no.ip)) }
    {
        self.yes.other == self.yes.ip && self.no.other == self.no.ip
    }

    /// The exits for a first fragment of this protocol; `None` is any protocol with ports.
    pub fn first_fragment_exits(self, transport: Option<Transport>) -> Exits
        ensures yes { IsFor transport result.yes self.yes }
        ensures no { IsFor transport result.no self.no }
    {
        let yes = self.yes.first_fragment_of(transport);
        let no = self.no.first_fragment_of(transport);
        Exits { yes, no }
    }
}

impl Code {
    /// The place, or the one for any packet if a jump at the front does not reach it.
    fn place_in_reach(&self, place: usize, any: usize) -> usize
        requires { IsPlace self.now place }
        ensures { (result ≡ place) ⊎ (result ≡ any) }
    {
        if self.len() - place <= REACH {
            place
        } else {
            any
        }
    }

    /// Emits a relay of the place for any packet, if a jump at the front does not reach it. It then
    /// also serves for the other places that are out of reach.
    fn emit_entry_relays(&mut self, entry: Entry) -> Entry
        requires room { length self.old + 1 ≤ MAX_CODE }
        requires entry { IsEntry self.old entry }
        ensures extends { Extends 1 self.old self.new }
        ensures relays { Relays entry result self.old self.new }
    {
        let any = self.emit_relay(entry.any, REACH);
        Entry {
            any,
            ip: self.place_in_reach(entry.ip, any),
            other: self.place_in_reach(entry.other, any),
            first_fragment: self.place_in_reach(entry.first_fragment, any),
            transport: entry.transport,
        }
    }

    /// Emits relays of the targets that a jump at the front does not reach. All tests that come in
    /// front share them, so a long chain takes few of them.
    pub fn emit_relays(&mut self, targets: Targets) -> Targets
        requires { CanEmitBy 2 targets self.old }
        ensures extends { Extends 2 self.old self.new }
        ensures relays { RelaysBoth targets result self.old self.new }
    {
        let no = self.emit_entry_relays(targets.no);
        let yes = self.emit_entry_relays(targets.yes);
        Targets { yes, no }
    }
}
