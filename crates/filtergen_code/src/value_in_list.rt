//! Lookups: whether a number of the packet is one of a list's.
//!
//! The jumps that compare the accumulator with each member are the list's comparisons; with the
//! load in front of them they are a lookup. Code is written from its end, so what a run does last
//! is emitted first.

ghost use Rattle.std.specs.Prelude.{◌≡◌, ◌+◌, ◌-◌, ◌<◌, ◌≤◌, length, bit_and, option_map};
ghost use Rattle.filtergen_trim.specs.declared.unreached.TheConstants.{MAX_CODE};
ghost use Rattle.bpfvm.specs.Machine.{Registers};
ghost use Rattle.filter_tree.specs.declared.tree.Direction.TheVariants.{SrcOrDst};
ghost use Rattle.filter_meaning.specs.Meaning.{Packet, HasBytes, check, word, by_direction, bytes_of, accessed};
ghost use Rattle.filtergen_facts.specs.Lists.{any_of, direction_of, in_range, has_tail, addresses_test, header_ports_test, ether_host_test};
ghost use Rattle.filtergen_code.specs.ValueLists.{in_ranges, comparisons_cost, lookup_cost, sides_cost, sides_before_cost, port_sides_cost, tails_cost, ethernet_cost, location_value, found_at, LoadsLocation, PassesLocation, AreComparisons, EmitsComparisons, EmitsLookup, EmitsGroupLookup};
ghost use Rattle.filtergen_code.specs.Emission.{AreExits, Extends, Emits, OrFull};

use crate::code::{Code, Exits, Full, REACH};
use crate::insns::{Field, Jump, NETWORK, load_insn, plain_insn};
use crate::values::base_of;
use bpfvm::code;
use filter_tree::headers::{ETHER_DST, ETHER_SRC};
use filtergen_facts::{Group, Sides, ValueRange};

/// The reach of a list's exit for its jumps: the code of one more member fits between.
const LIST_REACH: usize = REACH - 6;

/// Where a list looks for its numbers.
#[derive(Clone, Copy)]
pub(crate) enum Location {
    At(Field),
    /// The bits of a word of the frame under a mask.
    Masked { offset: u32, mask: u32 },
    /// Two bytes at this offset from the index register.
    Indirect(u32),
}

impl Location {
    /// An IPv4 address under a mask. A mask of ones takes no instruction.
    fn of_address(offset: u32, mask: u32) -> Location
        ensures { (p : Packet) (r : Registers) → HasBytes p → location_value result r p ≡ option_map (λ w. bit_and w mask) (word offset p) }
    {
        if mask == u32::MAX {
            Location::At(Field::Word(offset))
        } else {
            Location::Masked { offset, mask }
        }
    }
}

/// Whether a group is of two hosts, as source or destination.
pub(crate) fn are_two_hosts(group: &Group) -> bool {
    group.kind.sides == Sides::Either && group.kind.mask == u32::MAX && group.ranges.len() == 2
}

impl Code {
    /// Emits the comparisons of the accumulator with each range. The first range is compared last.
    /// An exit that gets out of reach gets one relay, which all comparisons in front of it share.
    /// If both exits are one place, nothing is compared.
    fn emit_comparisons(&mut self, ranges: &[ValueRange], exits: Exits) -> Result<usize, Full>
        requires exits { AreExits self.old exits }
        ensures { EmitsComparisons ranges.now exits self.old self.new result }
    {
        if exits.yes == exits.no && ranges.len() > 0 {
            self.room(1)?;
            return Ok(self.emit_relay(exits.no, 0));
        }
        let Exits { mut yes, mut no } = exits;
        for range in ranges {
            self.room(7)?;
            yes = self.emit_relay(yes, LIST_REACH);
            self.emit_range_branch(range.low, range.high, Exits { yes, no });
            no = self.len();
        }
        Ok(no)
    }

    fn emit_load(&mut self, location: Location)
        requires room { length self.old + 2 ≤ MAX_CODE }
        ensures { LoadsLocation location self.old self.new }
    {
        match location {
            Location::At(field) => self.emit(load_insn(field)),
            Location::Masked { offset, mask } => {
                self.emit(plain_insn(code::AND_K, mask));
                self.emit(load_insn(Field::Word(offset)));
            }
            Location::Indirect(offset) => self.emit(plain_insn(code::LD_H_IND, offset)),
        }
    }

    /// The exits, each moved past a load of this location if one is there: its number is still
    /// in the accumulator.
    fn exits_after_load(&self, location: Location, exits: Exits) -> Exits
        requires { AreExits self.now exits }
        ensures { PassesLocation location exits result self.now }
    {
        match location {
            Location::At(field) => self.exits_after(load_insn(field), exits),
            _ => exits,
        }
    }

    /// Emits a load and the comparisons after it. An exit that begins with the same load is entered
    /// after it.
    pub fn emit_lookup(
        &mut self,
        location: Location,
        ranges: &[ValueRange],
        exits: Exits,
    ) -> Result<usize, Full>
        requires some { 0 < length ranges.now }
        requires exits { AreExits self.old exits }
        ensures { EmitsLookup (lookup_cost (length ranges.now)) (λ r. any_of (found_at location r) ranges.now) exits self.old self.new result }
    {
        let exits = self.exits_after_load(location, exits);
        self.emit_comparisons(ranges, exits)?;
        self.room(2)?;
        self.emit_load(location);
        Ok(self.len())
    }

    /// Emits the lookups of the source, of the destination, or of either. For either, the first
    /// member's source is looked up by itself, as in its own test. Then the destination is loaded;
    /// after that no load can abort, so all members share the lookup of the destination, and all
    /// but the first that of the source.
    fn emit_side_lookups(
        &mut self,
        source: Location,
        destination: Location,
        group: &Group,
        exits: Exits,
    ) -> Result<usize, Full>
        requires many { 2 ≤ length group.now.ranges.items }
        requires exits { AreExits self.old exits }
        ensures { EmitsLookup (sides_cost (length group.now.ranges.items)) (λ r. any_of
            (λ x. by_direction (direction_of group.now.kind.sides) (found_at source r x) (found_at destination r x)) group.now.ranges.items)
            exits self.old self.new result }
    {
        let ranges = group.ranges.as_slice();
        match group.kind.sides {
            Sides::Source => self.emit_lookup(source, ranges, exits),
            Sides::Destination => self.emit_lookup(destination, ranges, exits),
            Sides::Either => {
                let others = ranges.len() - 1;
                let last = self.emit_lookup(source, &ranges[..others], exits)?;
                let next = self.emit_lookup(destination, ranges, Exits { no: last, ..exits })?;
                self.emit_lookup(source, &ranges[others..], Exits { no: next, ..exits })
            }
        }
    }

    /// Emits the lookup of bytes of a layer, for a packet that has the layer.
    pub fn emit_bytes_lookup(&mut self, group: &Group, exits: Exits) -> Result<usize, Full>
        requires some { 0 < length group.now.ranges.items }
        requires exits { AreExits self.old exits }
        ensures { let bytes = group.now.kind.bytes in Emits (lookup_cost (length group.now.ranges.items))
            (λ p. check (in_ranges group.now.ranges.items) (accessed bytes.layer (bytes_of bytes.size) p bytes.index)) exits self.old self.new result }
    {
        self.emit_comparisons(group.ranges.as_slice(), exits)?;
        self.room(2)?;
        let bytes = group.kind.bytes;
        let index = u32::from(group.kind.bytes.index);
        self.emit_access_at(base_of(bytes.layer), bytes.size, index);
        Ok(self.len())
    }

    /// Emits the comparisons with which the lookup of a list of addresses ends: with all members,
    /// of one side or of the destination.
    pub fn emit_last_comparisons(&mut self, group: &Group, exits: Exits) -> Result<usize, Full>
        requires some { 0 < length group.now.ranges.items }
        requires exits { AreExits self.old exits }
        ensures { OrFull (comparisons_cost (length group.now.ranges.items)) self.old result (λ entry.
            Extends (comparisons_cost (length group.now.ranges.items)) self.old self.new
            × AreComparisons group.now.ranges.items exits (length self.new) self.new
            × (entry ≡ length self.new)) }
    {
        self.emit_comparisons(group.ranges.as_slice(), exits)
    }

    /// Emits the load of one address in front of its comparisons.
    fn emit_address_load(&mut self, offset: u32, group: &Group, exits: Exits) -> Result<usize, Full>
        requires some { 0 < length group.now.ranges.items }
        requires exits { AreExits self.old exits }
        requires last { AreComparisons group.now.ranges.items exits (length self.old) self.old }
        ensures { EmitsGroupLookup (λ n. 2) (λ k x. in_range x k.mask offset) group.now exits self.old self.new result }
    {
        self.room(2)?;
        self.emit_load(Location::of_address(offset, group.kind.mask));
        Ok(self.len())
    }

    /// Emits the lookup of either address in front of the last comparisons, those of the
    /// destination. The first member's source is looked up by itself. Then a load of the index
    /// register at the destination's last byte shows that the destination is there, and leaves the
    /// source in the accumulator; after that no load can abort, so all other members share the
    /// lookup of the source.
    fn emit_either_address(
        &mut self,
        offsets: (u32, u32),
        group: &Group,
        exits: Exits,
    ) -> Result<usize, Full>
        requires destination { offsets.1 ≤ 40 }
        requires many { 2 ≤ length group.now.ranges.items }
        requires exits { AreExits self.old exits }
        requires last { AreComparisons group.now.ranges.items exits (length self.old) self.old }
        ensures { EmitsGroupLookup sides_before_cost (λ k. addresses_test SrcOrDst k.mask offsets.0 offsets.1) group.now exits self.old self.new result }
    {
        let ranges = group.ranges.as_slice();
        let others = ranges.len() - 1;
        self.room(2)?;
        self.emit_load(Location::of_address(offsets.1, group.kind.mask));
        let last = self.len();
        self.emit_comparisons(&ranges[..others], Exits { no: last, ..exits })?;
        self.room(1)?;
        self.emit(plain_insn(code::LDX_MSH, offsets.1 + 3));
        let no = self.len();
        self.emit_comparisons(&ranges[others..], Exits { no, ..exits })?;
        self.room(2)?;
        self.emit_load(Location::of_address(offsets.0, group.kind.mask));
        Ok(self.len())
    }

    /// Emits the lookup of addresses at these offsets of the frame in front of the last
    /// comparisons.
    pub fn emit_address_lookup_before(
        &mut self,
        offsets: (u32, u32),
        group: &Group,
        exits: Exits,
    ) -> Result<usize, Full>
        requires destination { offsets.1 ≤ 40 }
        requires many { 2 ≤ length group.now.ranges.items }
        requires exits { AreExits self.old exits }
        requires last { AreComparisons group.now.ranges.items exits (length self.old) self.old }
        ensures { EmitsGroupLookup sides_before_cost (λ k. addresses_test (direction_of k.sides) k.mask offsets.0 offsets.1) group.now exits self.old self.new result }
    {
        match group.kind.sides {
            Sides::Source => self.emit_address_load(offsets.0, group, exits),
            Sides::Destination => self.emit_address_load(offsets.1, group, exits),
            Sides::Either => self.emit_either_address(offsets, group, exits),
        }
    }

    /// Emits the lookup of addresses at these offsets of the frame. Two hosts are looked up as
    /// ports are, which takes less when one of them is the destination. Of two nets one often has
    /// the source as well.
    pub fn emit_address_lookup(
        &mut self,
        offsets: (u32, u32),
        group: &Group,
        exits: Exits,
    ) -> Result<usize, Full>
        requires destination { offsets.1 ≤ 40 }
        requires many { 2 ≤ length group.now.ranges.items }
        requires exits { AreExits self.old exits }
        ensures { EmitsGroupLookup sides_cost (λ k. addresses_test (direction_of k.sides) k.mask offsets.0 offsets.1) group.now exits self.old self.new result }
    {
        if are_two_hosts(group) {
            let source = Location::of_address(offsets.0, group.kind.mask);
            let destination = Location::of_address(offsets.1, group.kind.mask);
            return self.emit_side_lookups(source, destination, group, exits);
        }
        self.emit_last_comparisons(group, exits)?;
        self.emit_address_lookup_before(offsets, group, exits)
    }

    /// Emits the lookup of Ethernet hosts that share their first two bytes, at an offset of the
    /// frame. The last four bytes are loaded first: if they are there, all six are. If they match
    /// and the first two do not, what comes next is entered after its own comparisons of other last
    /// four bytes.
    fn emit_tail_lookup(&mut self, offset: u32, group: &Group, exits: Exits) -> Result<usize, Full>
        requires offset { offset ≤ 40 }
        requires some { 0 < length group.now.ranges.items }
        requires exits { AreExits self.old exits }
        ensures { EmitsGroupLookup tails_cost (λ k x. has_tail k.head x offset) group.now exits self.old self.new result }
    {
        self.room(4)?;
        let (head, tail) = (Field::Half(offset), Field::Word(offset + 2));
        let ranges = group.ranges.as_slice();
        let no = self.place_past_comparisons(tail, ranges, exits.no);
        let number = u32::from(group.kind.head);
        let yes = self.emit_test(head, Jump::Equal, number, Exits { no, ..exits });
        let load = load_insn(tail);
        let exits = self.exits_after(load, Exits { yes, ..exits });
        self.emit_comparisons(ranges, exits)?;
        self.room(1)?;
        self.emit(load);
        Ok(self.len())
    }

    /// Emits the lookups of Ethernet hosts that share their first two bytes. In the frame the
    /// destination comes before the source, so it is there if the source is: all members share the
    /// lookup of the source, which comes first.
    pub fn emit_ethernet_lookup(&mut self, group: &Group, exits: Exits) -> Result<usize, Full>
        requires some { 0 < length group.now.ranges.items }
        requires exits { AreExits self.old exits }
        ensures { EmitsGroupLookup ethernet_cost (λ k. ether_host_test (direction_of k.sides) k.head) group.now exits self.old self.new result }
    {
        match group.kind.sides {
            Sides::Source => self.emit_tail_lookup(ETHER_SRC as u32, group, exits),
            Sides::Destination => self.emit_tail_lookup(ETHER_DST as u32, group, exits),
            Sides::Either => {
                let next = self.emit_tail_lookup(ETHER_DST as u32, group, exits)?;
                self.emit_tail_lookup(ETHER_SRC as u32, group, Exits { no: next, ..exits })
            }
        }
    }

    /// Emits the lookup of ports after the IPv4 header, whose length it loads. An exit that begins
    /// with the same load is entered after it.
    pub fn emit_port_lookup(&mut self, group: &Group, exits: Exits) -> Result<usize, Full>
        requires many { 2 ≤ length group.now.ranges.items }
        requires exits { AreExits self.old exits }
        ensures { EmitsGroupLookup port_sides_cost (λ k. header_ports_test (direction_of k.sides)) group.now exits self.old self.new result }
    {
        let header = plain_insn(code::LDX_MSH, NETWORK);
        let exits = self.exits_after(header, exits);
        let (source, destination) = (Location::Indirect(NETWORK), Location::Indirect(NETWORK + 2));
        self.emit_side_lookups(source, destination, group, exits)?;
        self.room(1)?;
        self.emit(header);
        Ok(self.len())
    }
}
