//! The three answers to a test.

ghost use Rattle.std.specs.Prelude.{◌≡◌};
ghost use Rattle.filter_meaning.specs.Meaning.{opposite, decided};

/// What a filter expression, or a part of it, answers to a packet.
#[derive(Clone, Copy, Debug, PartialEq, Eq)]
pub enum Verdict {
    Yes,
    No,
    /// A byte past the captured ones was wanted, or a division or modulo was by 0. The whole
    /// expression then rejects the packet, also under a `not`.
    Abort,
}

impl Verdict {
    /// The verdict of a condition.
    pub(crate) fn of(holds: bool) -> Verdict
        ensures { result ≡ decided holds }
    {
        if holds { Verdict::Yes } else { Verdict::No }
    }

    /// What `not` makes of it: an Abort stays one.
    pub fn opposite(self) -> Verdict
        ensures { result ≡ opposite self }
    {
        match self {
            Verdict::Yes => Verdict::No,
            Verdict::No => Verdict::Yes,
            Verdict::Abort => Verdict::Abort,
        }
    }
}
