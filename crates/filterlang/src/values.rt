//! Relations and their values: arithmetic, the length on the wire and the bytes of a layer.

ghost use Rattle.std.specs.Prelude.{◌≡◌, option_map, Some, true};
ghost use Rattle.std.specs.Result.{result_ok};
ghost use Rattle.filterlang.specs.Phrases.{kinds};
ghost use Rattle.filter_tree.specs.Trees.{tree_of, amount_of, minus};
ghost use Rattle.filterlang.specs.Texts.{is_misreading};
ghost use Rattle.filterlang.specs.Readers.{Gives};
ghost use Rattle.filterlang.specs.ValueReading.{comparison_at, close_bracket_at, leaf_at, layer_at, size_at, factor_at, arith_at, relation_at, accessor_at};

mod operators;

use crate::cursor::Cursor;
use crate::fault::Fault;
use crate::lookahead::{Opening, bracket_follows, look_into};
use crate::phrases::{bare_number_at, next};
use crate::token::{Kind, Token};
use crate::values::operators::{LOOSEST, combine, layer_of, operator_at, size_of};
use filter_tree::{Comparison, Expr, Layer, Size, Value};
use std::alloc::Global;

/// The comparison at the front and what follows, or the place of the token that is none.
fn comparison_at(tokens: &[Token]) -> Result<(Comparison, &[Token]), &[Token]>
    ensures { comparison_at (kinds tokens.now) ≡ option_map (λ found. (found.0, kinds found.1.now)) (result_ok result) }
{
    match next(tokens) {
        Some((Kind::Comparison(comparison), rest)) => Ok((comparison, rest)),
        _ => Err(tokens),
    }
}

/// What follows the `]` at the front, or the place of the token that is none.
fn close_bracket_at(tokens: &[Token]) -> Result<((), &[Token]), &[Token]>
    ensures { close_bracket_at (kinds tokens.now) ≡ option_map (λ found. (found.0, kinds found.1.now)) (result_ok result) }
{
    match next(tokens) {
        Some((Kind::CloseBracket, rest)) => Ok(((), rest)),
        _ => Err(tokens),
    }
}

/// The negation of a value, modulo 2^32.
fn negative(alloc: Global, value: Value) -> Result<Value, Fault>
    ensures { Gives (λ v. amount_of v) result (Some (minus (amount_of value))) }
{
    Ok(Value::Negation(Box::new(alloc, value)?))
}

impl<'a> Cursor<'a> {
    /// Two values and the comparison between them.
    #[tactic(auto, unfolding(crate::specs::ValueReading::relation_at))]
    pub fn relation(&mut self, alloc: Global, levels: usize) -> Result<Expr, Fault>
        ensures { Gives (λ e. (tree_of e, kinds self.new.rest.now)) result
            (relation_at levels (kinds self.old.rest.now)) }
    {
        let left = self.arith(alloc, levels, LOOSEST)?;
        let comparison = self.past(comparison_at(self.rest))?;
        let right = self.arith(alloc, levels, LOOSEST)?;
        Ok(Expr::Relation(comparison, left, right))
    }

    /// A value and what operators up to this precedence join to it, from the left; precedence 0
    /// joins nothing.
    #[tactic(auto, using(crate::proofs::ValueTurns::arith_none, crate::proofs::ValueTurns::arith_some))]
    #[cycle(arith)]
    fn arith(&mut self, alloc: Global, levels: usize, precedence: usize) -> Result<Value, Fault>
        ensures { Gives (λ v. (amount_of v, tt, kinds self.new.rest.now)) result
            (arith_at levels precedence tt (kinds self.old.rest.now)) }
    {
        let Some(tighter) = precedence.checked_sub(1) else {
            return self.factor(alloc, levels);
        };
        let mut value = self.arith(alloc, levels, tighter)?;
        while let Some((operator, rest)) = operator_at(precedence, self.rest) {
            self.rest = rest;
            let place = self.place();
            let left = Box::new(alloc, value)?;
            let right = self.arith(alloc, levels, tighter)?;
            value = combine(alloc, operator, left, right, place)?;
        }
        Ok(value)
    }

    /// A value without operators but within parentheses and brackets, or with a unary `-`.
    #[tactic(auto, using(crate::proofs::ValueTurns::factor_minus, crate::proofs::ValueTurns::factor_parenthesis, crate::proofs::ValueTurns::factor_accessor, crate::proofs::ValueTurns::factor_leaf))]
    #[cycle(arith)]
    fn factor(&mut self, alloc: Global, levels: usize) -> Result<Value, Fault>
        ensures { Gives (λ v. (amount_of v, tt, kinds self.new.rest.now)) result
            (factor_at levels tt (kinds self.old.rest.now)) }
    {
        match look_into(self.rest) {
            Opening::Minus => {
                let levels = self.deeper(levels)?;
                let value = self.factor(alloc, levels)?;
                negative(alloc, value)
            }
            Opening::Parenthesis => {
                let levels = self.deeper(levels)?;
                let value = self.arith(alloc, levels, LOOSEST)?;
                self.close_after(value)
            }
            Opening::Accessor => self.accessor(alloc, levels),
            Opening::Leaf => self.leaf(),
        }
    }

    /// The bytes of a layer at an index.
    #[tactic(auto, unfolding(crate::specs::ValueReading::accessor_at))]
    #[cycle(arith)]
    fn accessor(&mut self, alloc: Global, levels: usize) -> Result<Value, Fault>
        ensures { Gives (λ v. (amount_of v, tt, kinds self.new.rest.now)) result
            (accessor_at levels tt (kinds self.old.rest.now)) }
    {
        let layer = self.layer()?;
        let levels = self.deeper(levels)?;
        let index = Box::new(alloc, self.arith(alloc, levels, LOOSEST)?)?;
        let size = self.size()?;
        self.past(close_bracket_at(self.rest))?;
        Ok(Value::Accessor(layer, index, size))
    }

    /// A number, a named value or `len`.
    fn leaf(&mut self) -> Result<Value, Fault>
        ensures { Gives (λ v. (amount_of v, tt, kinds self.new.rest.now)) result
            (leaf_at tt (kinds self.old.rest.now)) }
    {
        match next(self.rest) {
            Some((Kind::Number(number) | Kind::Named(number), rest)) => {
                self.rest = rest;
                Ok(Value::Number(number))
            }
            Some((Kind::Len, rest)) => {
                self.rest = rest;
                Ok(Value::Length)
            }
            _ => Err(self.syntax()),
        }
    }

    /// The layer of an accessor, up to its `[`. `BadQualifier` at `sctp`, which has none.
    fn layer(&mut self) -> Result<Layer, Fault>
        ensures { Gives (λ layer. (layer, kinds self.new.rest.now)) result (layer_at (kinds self.old.rest.now)) }
    {
        let Some((Kind::Protocol(protocol), rest)) = next(self.rest) else {
            return Err(self.syntax());
        };
        let Some(layer) = layer_of(protocol) else {
            return Err(self.no_layer(rest));
        };
        if !bracket_follows(rest) {
            return Err(self.syntax_at(rest));
        }
        self.rest = rest;
        Ok(layer)
    }

    /// The fault of a word without a layer, which these tokens follow.
    fn no_layer(&self, rest: &[Token]) -> Fault
        ensures { is_misreading result ≡ true }
    {
        if bracket_follows(rest) {
            Fault::BadQualifier(self.place())
        } else {
            self.syntax()
        }
    }

    /// The size of an accessor, if one follows its index; else one byte.
    fn size(&mut self) -> Result<Size, Fault>
        ensures { Gives (λ size. (size, kinds self.new.rest.now)) result (size_at (kinds self.old.rest.now)) }
    {
        let Some((Kind::Colon, rest)) = next(self.rest) else {
            return Ok(Size::One);
        };
        self.rest = rest;
        let place = self.place();
        let bytes = self.past(bare_number_at(rest))?;
        size_of(bytes).ok_or(Fault::OutOfRange(place))
    }
}
