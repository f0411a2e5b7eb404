//! The tokens of a text, read from the left.

ghost use Rattle.std.specs.Prelude.{◌≡◌, List, true, option_map};
ghost use Rattle.std.specs.Result.{result_ok};
ghost use Rattle.filterlang.specs.declared.token.Kind.{Kind};
ghost use Rattle.filterlang.specs.Phrases.{kinds};
ghost use Rattle.filterlang.specs.Texts.{is_misreading};
ghost use Rattle.filterlang.specs.Readers.{Gives, deeper, close_at};
ghost use Rattle.filterlang.specs.Reading.{port_at, portrange_at, identified_at};

use crate::fault::Fault;
use crate::phrases::qualifiers::{
    Identifier, Misfit, Phrase, Qualifiers, identified, port_of, transport_of,
};
use crate::phrases::{bare_number_at, begins_identifier, close_at, identifier_at, minus_at, next};
use crate::token::{Kind, Token};
use filter_tree::{Direction, Primitive};

/// The tokens of a text that are still to be read.
#[derive(Drop)]
pub(crate) struct Cursor<'a> {
    pub rest: &'a [Token],
    /// The text's length in bytes: the place of a fault at its end.
    pub end: usize,
}

impl<'a> Cursor<'a> {
    /// The place of these tokens, which are the last ones of the text.
    pub fn place_of(&self, tokens: &[Token]) -> usize {
        match tokens {
            [token, ..] => token.span.start,
            [] => self.end,
        }
    }

    /// The place of the next token, or the end of the text.
    pub fn place(&self) -> usize {
        self.place_of(self.rest)
    }

    /// The fault `Syntax` at the place of these tokens, which are the last ones of the text.
    pub fn syntax_at(&self, tokens: &[Token]) -> Fault
        ensures { is_misreading result ≡ true }
    {
        Fault::Syntax(self.place_of(tokens))
    }

    /// No expression goes on with the next token.
    pub fn syntax(&self) -> Fault
        ensures { is_misreading result ≡ true }
    {
        self.syntax_at(self.rest)
    }

    /// `NoQualifier` if an identifier is next, which has nothing to inherit; else `Syntax`.
    pub fn no_qualifier(&self) -> Fault
        ensures { is_misreading result ≡ true }
    {
        match next(self.rest) {
            Some((kind, _)) if begins_identifier(kind) => Fault::NoQualifier(self.place()),
            _ => self.syntax(),
        }
    }

    /// Goes on after what was read, or refuses at the token where the reading broke off.
    pub fn past<X: Copy>(&mut self, read: Result<(X, &'a [Token]), &'a [Token]>) -> Result<X, Fault>
        ensures { Gives {Y = X × List Kind} (λ x. (x, kinds self.new.rest.now)) result
            (option_map (λ found. (found.0, kinds found.1.now)) (result_ok read.entry)) }
    {
        match read {
            Ok((value, rest)) => {
                self.rest = rest;
                Ok(value)
            }
            Err(at) => Err(self.syntax_at(at)),
        }
    }

    /// Goes past a `)`.
    pub fn close(&mut self) -> Result<(), Fault>
        ensures { Gives (λ done. (done, kinds self.new.rest.now)) result (close_at (kinds self.old.rest.now)) }
    {
        self.past(close_at(self.rest))
    }

    /// Goes past the `)` that closes what was read.
    pub fn close_after<T: Drop>(&mut self, read: T) -> Result<T, Fault>
        ensures { Gives {Y = T × List Kind} (λ t. (t, kinds self.new.rest.now)) result
            (option_map (λ behind. (read, behind.1)) (close_at (kinds self.old.rest.now))) }
    {
        self.close()?;
        Ok(read)
    }

    fn port(&mut self) -> Result<u16, Fault>
        ensures { Gives (λ port. (port, kinds self.new.rest.now)) result (port_at (kinds self.old.rest.now)) }
    {
        let place = self.place();
        let number = self.past(bare_number_at(self.rest))?;
        port_of(number).map_err(|_| Fault::OutOfRange(place))
    }

    /// Two port numbers with a `-` between them, in either order, in the tokens after the phrase
    /// and `portrange`.
    #[tactic(auto, unfolding(crate::specs::Reading::portrange_at))]
    pub fn portrange(&mut self, phrase: Phrase, behind: &'a [Token]) -> Result<Primitive, Fault>
        ensures { Gives (λ p. (p, kinds self.new.rest.now)) result (portrange_at phrase (kinds behind.now)) }
    {
        // The cursor is still at the phrase, the place of its fault.
        let Some(transport) = transport_of(phrase.protocol) else {
            return Err(Fault::BadQualifier(self.place()));
        };
        self.rest = behind;
        let first = self.port()?;
        self.past(minus_at(self.rest))?;
        let second = self.port()?;
        Ok(Primitive::Ports {
            transport,
            direction: phrase.direction.unwrap_or(Direction::SrcOrDst),
            low: first.min(second),
            high: first.max(second),
        })
    }

    /// Goes past the sign at the front, `not`, `(`, `[` or a unary `-`, and returns the levels that
    /// are left for what it holds open.
    pub fn deeper(&mut self, levels: usize) -> Result<usize, Fault>
        ensures { Gives (λ left. (left, kinds self.new.rest.now)) result
            (deeper levels (kinds self.old.rest.now)) }
    {
        let [sign, rest @ ..] = self.rest else {
            return Err(self.syntax());
        };
        let Some(left) = levels.checked_sub(1) else {
            return Err(Fault::TooNested(sign.span.start));
        };
        self.rest = rest;
        Ok(left)
    }

    /// The test that the identifier at the front gives under its qualifiers.
    #[tactic(auto, unfolding(crate::specs::Reading::identified_at))]
    pub fn identified(&mut self, qualifiers: Qualifiers) -> Result<Primitive, Fault>
        ensures { Gives (λ primitive. (primitive, kinds self.new.rest.now)) result
            (identified_at qualifiers (kinds self.old.rest.now)) }
    {
        let tokens = self.rest;
        let id = self.past(identifier_at(tokens))?;
        match identified(qualifiers, id) {
            Ok(primitive) => Ok(primitive),
            Err(misfit) => Err(self.misfit(misfit, id, tokens)),
        }
    }

    /// The fault of the identifier that these tokens begin with. A fault in its `mask` or its `/`
    /// part has that part's place.
    fn misfit(&self, misfit: Misfit, id: Identifier, tokens: &[Token]) -> Fault
        ensures { is_misreading result ≡ true }
    {
        let first = self.place_of(tokens);
        let behind = match tokens {
            [_address, _sign, rest @ ..] => self.place_of(rest),
            _ => first,
        };
        match (misfit, id) {
            (Misfit::Identifier, _) => Fault::BadIdentifier(first),
            (Misfit::Mask, _) => Fault::BadIdentifier(behind),
            (Misfit::NetBits, _) => Fault::NetBits(first),
            (Misfit::Range, Identifier::Prefix { .. }) => Fault::OutOfRange(behind),
            (Misfit::Range, _) => Fault::OutOfRange(first),
        }
    }
}
