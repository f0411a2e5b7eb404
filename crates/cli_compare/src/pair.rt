//! Two filters that are compared.

ghost use Rattle.std.specs.Prelude.{◌≡◌};
ghost use Rattle.cli_compare.specs.Pairs.{agreement, differs, is_different};

use cli_answers::AskedFilter;
use cli_answers::seek::PacketTest;
use savefile::PacketRef;

/// Two filters that are compared.
#[derive(Drop)]
pub struct FilterPair {
    pub first: AskedFilter,
    pub second: AskedFilter,
}

/// Whether two filters treat a packet alike: both accept it, or neither does.
#[derive(Clone, Copy, Debug, PartialEq, Eq)]
pub enum Agreement {
    /// Both accept the packet, or neither does.
    Same,
    /// Only the first filter accepts it.
    FirstOnly,
    /// Only the second filter accepts it.
    SecondOnly,
}

impl Agreement {
    /// Whether one filter accepts the packet and the other does not.
    pub fn is_different(self) -> bool
        ensures { result ≡ is_different self }
    {
        match self {
            Agreement::Same => false,
            Agreement::FirstOnly | Agreement::SecondOnly => true,
        }
    }
}

impl FilterPair {
    /// Asks both filters whether they accept a packet. No and Abort are the same here: the packet is rejected.
    pub fn compare(&self, packet: &PacketRef<'_>) -> Agreement
        ensures { result ≡ agreement self.now packet.now }
    {
        match (self.first.passes(packet), self.second.passes(packet)) {
            (true, false) => Agreement::FirstOnly,
            (false, true) => Agreement::SecondOnly,
            (true, true) | (false, false) => Agreement::Same,
        }
    }
}

/// A packet passes if the filters treat it differently.
impl PacketTest for FilterPair {
    ghost passed = { λ pair p. differs pair p };

    fn passes(&self, packet: &PacketRef<'_>) -> bool {
        self.compare(packet).is_different()
    }
}
