//! The tokens of a line.

/// The most bytes of a label.
pub(crate) const MAX_LABEL: usize = 32;

// Clauses and definitions name the constant: it is this number.
const _: () = prove!(MAX_LABEL == 32);

/// A label: its bytes, and zeros up to the most that it may have.
#[derive(Clone, Copy, Debug, PartialEq, Eq)]
pub(crate) struct Label {
    pub bytes: [u8; MAX_LABEL],
}

/// How many bytes of a packet are loaded.
#[derive(Clone, Copy, Debug, PartialEq, Eq)]
pub(crate) enum Size {
    Word,
    Half,
    Byte,
}

/// The name of an instruction.
#[derive(Clone, Copy, Debug, PartialEq, Eq)]
pub(crate) enum Name {
    /// `ld`, `ldh`, `ldb`
    Load(Size),
    /// `ldi`
    LoadImmediate,
    /// `ldx`
    LoadIndex,
    /// `ldxi`
    LoadIndexImmediate,
    /// `ldxb`
    LoadHeaderLength,
    Store,
    StoreIndex,
    /// Arithmetic: its code with a constant, and with the index register.
    Calculate(u16, u16),
    Negate,
    /// `tax`
    ToIndex,
    /// `txa`
    ToAccumulator,
    Return,
    /// `ja`, `jmp`
    Jump,
    /// A conditional jump: its code with a constant, and with the index register.
    JumpIf(u16, u16),
    /// The same, which jumps if the test fails.
    JumpUnless(u16, u16),
}

/// A token of a line.
#[derive(Clone, Copy, Debug, PartialEq, Eq)]
pub(crate) enum Token {
    Name(Name),
    Number(u32),
    Label(Label),
    /// `(005`, the place of an instruction, but for its `)`
    Place(u32),
    /// `x`
    Index,
    /// `a`
    Accumulator,
    /// `M`
    Memory,
    /// `len`
    Length,
    /// `jt`
    WhereTrue,
    /// `jf`
    WhereFalse,
    Hash,
    Open,
    Close,
    OpenBracket,
    CloseBracket,
    Comma,
    Colon,
    Plus,
    Times,
    And,
}
