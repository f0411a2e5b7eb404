//! The parser: from the tokens of a text to its tree.

ghost use Rattle.std.specs.Prelude.{◌≡◌, ◌≤◌, ◌<◌, ◌↔◌, ◌⊎◌, ℕ, length, None, IfOk, IfErr, IsErrOf, IsOkUnless};
ghost use Rattle.filterlang.specs.Phrases.{kinds};
ghost use Rattle.filterlang.specs.Tokens.{fault_at, Stuck};
ghost use Rattle.filter_tree.specs.Trees.{Tree, tree_of};
ghost use Rattle.filterlang.specs.Readers.{Gives};
ghost use Rattle.filterlang.specs.Reading.{start_at, phrased_at, qualified_at, inherited_at, started_at, logical_at, term_at, expr_at, text_at};
ghost use Rattle.filterlang.specs.Texts.{ReadsAs, IsRefusalOf};
ghost use Rattle.filterlang.specs.declared.fault.Fault.TheVariants as Fault;
ghost use Rattle.filterlang.specs.declared.lexer.Cause.{Cause};
ghost use Rattle.filterlang.specs.declared.lexer.TheConstants.{MAX_TEXT};
ghost use Rattle.filterlang.specs.declared.parser.Start.TheVariants as starts;

use crate::cursor::Cursor;
use crate::fault::Fault;
use crate::lexer::lex;
use crate::lookahead::{Beginning, begins_relation, look_ahead};
use crate::phrases::primitives::{plain_at, unqualified_at};
use crate::phrases::qualifiers::{Phrase, Qualifiers, qualifiers_of};
use crate::phrases::{is_written, joint_at, phrase_at, range_at};
use crate::token::Token;
use crate::tree::{joined_by, negate};
use filter_tree::{Expr, Primitive};
use std::alloc::Global;

/// The most signs of a text that may be open within one another: `(` and `[`, and `not` and a unary
/// `-` until the operand is complete.
const MAX_NESTING: usize = 64;

/// What begins a term that is neither negated nor in parentheses: a whole primitive, or the phrase
/// before a group.
#[derive(Clone, Copy)]
pub(crate) enum Start {
    Primitive(Primitive),
    Group(Qualifiers),
}

/// A text in the middle of its reading.
#[derive(Drop)]
struct Parser<'a> {
    cursor: Cursor<'a>,
    /// What the nearest primitive to the left has to give to an identifier without a phrase.
    nearest: Option<Qualifiers>,
}

impl<'a> Parser<'a> {
    /// Terms joined by `and` and `or`, which bind alike, from the left.
    #[cycle(expr)]
    fn expr(&mut self, alloc: Global, levels: usize) -> Result<Expr, Fault>
        ensures { Gives (λ e. (tree_of e, self.new.nearest, kinds self.new.cursor.rest.now)) result
            (expr_at levels self.old.nearest (kinds self.old.cursor.rest.now)) }
    {
        let mut expr = self.term(alloc, levels)?;
        while let Some((joint, rest)) = joint_at(self.cursor.rest) {
            self.cursor.rest = rest;
            let left = Box::new(alloc, expr)?;
            let next = self.term(alloc, levels)?;
            expr = joined_by(alloc, joint, left, next)?;
        }
        Ok(expr)
    }

    /// A term: a relation, if its first tokens show one.
    #[tactic(auto, using(crate::proofs::Turns::term_related))]
    #[cycle(expr)]
    fn term(&mut self, alloc: Global, levels: usize) -> Result<Expr, Fault>
        ensures { Gives (λ e. (tree_of e, self.new.nearest, kinds self.new.cursor.rest.now)) result
            (term_at levels self.old.nearest (kinds self.old.cursor.rest.now)) }
    {
        if !begins_relation(self.cursor.rest) {
            return self.logical(alloc, levels);
        }
        let relation = self.cursor.relation(alloc, levels)?;
        self.forget_qualifiers();
        Ok(relation)
    }

    /// A negated term, an expression in parentheses, a primitive, or a phrase and its group.
    #[tactic(auto, using(crate::proofs::Turns::logical_not, crate::proofs::Turns::logical_parenthesis, crate::proofs::Turns::logical_start))]
    #[cycle(expr)]
    fn logical(&mut self, alloc: Global, levels: usize) -> Result<Expr, Fault>
        ensures { Gives (λ e. (tree_of e, self.new.nearest, kinds self.new.cursor.rest.now)) result
            (logical_at levels self.old.nearest (kinds self.old.cursor.rest.now)) }
    {
        match look_ahead(self.cursor.rest) {
            Beginning::Not => {
                let levels = self.cursor.deeper(levels)?;
                let expr = self.term(alloc, levels)?;
                negate(alloc, expr)
            }
            Beginning::Parenthesis => {
                let levels = self.cursor.deeper(levels)?;
                let expr = self.expr(alloc, levels)?;
                self.cursor.close_after(expr)
            }
            Beginning::Primitive => self.primitive_or_group(alloc, levels),
        }
    }

    /// A primitive, or a phrase and its group.
    fn primitive_or_group(&mut self, alloc: Global, levels: usize) -> Result<Expr, Fault>
        ensures { Gives (λ e. (tree_of e, self.new.nearest, kinds self.new.cursor.rest.now)) result
            (started_at levels self.old.nearest (kinds self.old.cursor.rest.now)) }
    {
        match self.start()? {
            Start::Primitive(primitive) => Ok(Expr::Test(primitive)),
            Start::Group(qualifiers) => {
                let levels = self.cursor.deeper(levels)?;
                let expr = self.cursor.group(alloc, levels, qualifiers)?;
                self.cursor.close_after(expr)
            }
        }
    }

    /// A primitive, or the phrase of a group up to its `(`.
    #[tactic(auto, unfolding(crate::specs::Reading::start_at))]
    fn start(&mut self) -> Result<Start, Fault>
        ensures { Gives (λ s. (s, self.new.nearest, kinds self.new.cursor.rest.now)) result
            (start_at self.old.nearest (kinds self.old.cursor.rest.now)) }
    {
        match unqualified_at(self.cursor.rest) {
            Ok(Some((primitive, rest))) => {
                self.cursor.rest = rest;
                Ok(self.without_qualifiers(primitive))
            }
            Ok(None) => self.phrase_start(),
            Err(at) => Err(self.cursor.syntax_at(at)),
        }
    }

    /// A primitive that was read, which has no qualifiers to give.
    fn without_qualifiers(&mut self, primitive: Primitive) -> Start
        ensures start { result ≡ starts.Primitive primitive }
        ensures nearest { self.new.nearest ≡ None }
        ensures rest { kinds self.new.cursor.rest.now ≡ kinds self.old.cursor.rest.now }
    {
        self.forget_qualifiers();
        Start::Primitive(primitive)
    }

    /// What was read has no qualifiers to give.
    fn forget_qualifiers(&mut self)
        ensures nearest { self.new.nearest ≡ None }
        ensures rest { kinds self.new.cursor.rest.now ≡ kinds self.old.cursor.rest.now }
    {
        self.nearest = None;
    }

    /// What begins with a phrase, or with an identifier without one.
    #[tactic(auto, unfolding(crate::specs::Reading::phrased_at))]
    fn phrase_start(&mut self) -> Result<Start, Fault>
        ensures { Gives (λ s. (s, self.new.nearest, kinds self.new.cursor.rest.now)) result
            (phrased_at self.old.nearest (kinds self.old.cursor.rest.now)) }
    {
        let (phrase, rest) = phrase_at(self.cursor.rest);
        if let Some(plain) = plain_at(phrase, rest) {
            self.cursor.rest = rest;
            Ok(self.without_qualifiers(Primitive::Protocol(plain)))
        } else if let Some(behind) = range_at(phrase, rest) {
            let primitive = self.cursor.portrange(phrase, behind)?;
            Ok(self.without_qualifiers(primitive))
        } else if is_written(phrase) {
            self.qualified_start(phrase, rest)
        } else {
            self.inherit()
        }
    }

    /// What the tokens after a phrase are.
    fn qualified_start(&mut self, phrase: Phrase, rest: &'a [Token]) -> Result<Start, Fault>
        ensures { Gives (λ s. (s, self.new.nearest, kinds self.new.cursor.rest.now)) result
            (qualified_at phrase (kinds rest.now)) }
    {
        // The cursor is still at the phrase, the place of its fault.
        let Some(qualifiers) = qualifiers_of(phrase) else {
            return Err(Fault::BadQualifier(self.cursor.place()));
        };
        self.cursor.rest = rest;
        self.nearest = Some(qualifiers);
        match look_ahead(rest) {
            Beginning::Parenthesis => Ok(Start::Group(qualifiers)),
            _ => Ok(Start::Primitive(self.cursor.identified(qualifiers)?)),
        }
    }

    /// An identifier without a phrase.
    fn inherit(&mut self) -> Result<Start, Fault>
        ensures { Gives (λ s. (s, self.new.nearest, kinds self.new.cursor.rest.now)) result
            (inherited_at self.old.nearest (kinds self.old.cursor.rest.now)) }
    {
        let Some(qualifiers) = self.nearest else {
            return Err(self.cursor.no_qualifier());
        };
        Ok(Start::Primitive(self.cursor.identified(qualifiers)?))
    }
}

/// The tree of all these tokens, in a text that ends at this byte.
#[tactic(auto, unfolding(crate::specs::Reading::text_at))]
fn tree(alloc: Global, tokens: &[Token], end: usize) -> Result<Expr, Fault>
    ensures { Gives (λ e. tree_of e) result (text_at (kinds tokens.now)) }
{
    let [_, ..] = tokens else {
        return Ok(Expr::Everything);
    };
    let mut parser = Parser {
        cursor: Cursor { rest: tokens, end },
        nearest: None,
    };
    let expr = parser.expr(alloc, MAX_NESTING)?;
    let [] = parser.cursor.rest else {
        return Err(parser.cursor.syntax());
    };
    Ok(expr)
}

/// Reads a filter expression as pcap-filter(7) does, in the profile of this project, and returns
/// its tree. `and` and `or` bind alike, from the left. An identifier without a phrase takes the
/// qualifiers of the nearest primitive to its left. The operators of arithmetic bind as in C, and
/// no divisor is written as 0. The empty text is the tree that accepts every packet.
///
/// The tree reads the text, and no other tree does. `TextTooLong`, `BadByte`, `BadWord` and
/// `BadNumber` come as from [`lex`](crate::lexer::lex). `NoMemory` comes if memory was refused. Any
/// other fault means that no tree reads the text, and has the byte of its place. If several apply,
/// the one with the least place is named; at one place the first of `Syntax`, `NoQualifier`,
/// `BadQualifier`, `BadIdentifier`, `NetBits`, `OutOfRange`, `DivideByZero` and `TooNested`. That
/// order is tested and not proved.
pub fn parse(alloc: Global, text: &str) -> Result<Expr, Fault>
    // The tree reads the text, and no other tree does.
    ensures reads { IfOk result (λ expr. ReadsAs text.now (tree_of expr)) }
    ensures only { IfOk result (λ expr. (other : Tree) → ReadsAs text.now other → other ≡ tree_of expr) }

    // A refusal says what is wrong with the words, or that no tree reads the text.
    ensures refused { IfErr result (IsRefusalOf text.now) }
    ensures too_long { IsErrOf result Fault.TextTooLong ↔ (8192 < length text.now) }
    ensures named { (cause : Cause) (place : ℕ) → length text.now ≤ MAX_TEXT → Stuck text.now 0 cause place →
        IsErrOf result (fault_at cause place) ⊎ IsErrOf result Fault.NoMemory }
    ensures accepted { (tree : Tree) → length text.now ≤ MAX_TEXT → ReadsAs text.now tree →
        IsOkUnless result Fault.NoMemory }
{
    let tokens = lex(alloc, text)?;
    tree(alloc, &tokens, text.len())
}
