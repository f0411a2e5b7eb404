//! Exit statuses.

ghost use Rattle.std.specs.Prelude.{◌≡◌};
ghost use Rattle.cli_text.specs.Status.{code, greater};

/// How a command ended: its exit status.
#[derive(Clone, Copy, Debug, PartialEq, Eq)]
pub enum Status {
    /// All was done: 0.
    Clean,
    /// The answer is no: 4. No fault came up, so a fault goes before it.
    Negative,
    /// What was asked is not decided: 5. No fault came up either.
    Undecided,
    /// Bad usage, refused input, or out of memory: 1.
    Refused,
    /// A torn or bad record, after the packets before it: 2.
    Damaged,
    /// A file or a device failed: 3.
    Failed,
}

impl Status {
    /// The exit status as the number that a process ends with, 0 to 5.
    pub fn code(self) -> u8
        ensures { result ≡ code self }
    {
        match self {
            Status::Clean => 0,
            Status::Refused => 1,
            Status::Damaged => 2,
            Status::Failed => 3,
            Status::Negative => 4,
            Status::Undecided => 5,
        }
    }

    /// The status if both apply: the worse one, in the order of the variants.
    pub fn max(self, other: Status) -> Status
        ensures { result ≡ greater self other }
    {
        match (self, other) {
            (Status::Failed, _) | (_, Status::Failed) => Status::Failed,
            (Status::Damaged, _) | (_, Status::Damaged) => Status::Damaged,
            (Status::Refused, _) | (_, Status::Refused) => Status::Refused,
            (Status::Undecided, _) | (_, Status::Undecided) => Status::Undecided,
            (Status::Negative, _) | (_, Status::Negative) => Status::Negative,
            (Status::Clean, Status::Clean) => Status::Clean,
        }
    }
}
