//! The time of a packet, as lines have it.

ghost use Rattle.std.specs.Prelude.{Some};
ghost use Rattle.line_text.specs.Time.{nine_digits};

use std::fmt;
use std::fmt::{Display, Formatter};

/// A fraction of a second, in nanoseconds: nine digits, with zeros in front.
#[derive(Clone, Copy)]
pub struct NineDigits(pub u32);

impl Display for NineDigits {
    ghost output = { λ n. Some (nine_digits n.0) };

    #[tactic(auto, using(crate::proofs::Nine::nine_padded))]
    fn fmt<W: fmt::Write>(&self, f: &mut Formatter<W>) -> fmt::Result {
        write!(f, "{:09}", self.0)
    }
}
