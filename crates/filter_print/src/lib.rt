//! Filter expressions as texts: each tree of `filterlang` has one, its canonical text.
#![tactic(auto)]

mod parentheses;
mod primitives;
mod values;

ghost use Rattle.std.specs.Prelude.{◌≡◌, Some};
ghost use Rattle.std.specs.Fmt.{WritesOnOk};
ghost use Rattle.filter_tree.specs.Trees.{amount_of, tree_of};
ghost use Rattle.filter_print.specs.Canonical.{canonical, relation_text, tree_text, parentheses_of};

use crate::parentheses::{
    Parentheses, first_enclosed, fits, is_joined, negated_enclosed, side_enclosed,
};
use crate::primitives::write_primitive;
use crate::values::{comparison_text, write_between, write_close, write_open, write_value};
use filterlang::{Comparison, Expr, Joint, Value};
use std::fmt;
use std::fmt::{Display, Formatter, Write};

/// The most signs that a text may have open within one another, as `filterlang` reads them.
const MAX_NESTING: usize = 64;

/// An expression to print, for a person or another program to read: `{}` writes its canonical text,
/// in the words of pcap-filter(7). If it returns `Ok`, it wrote the bytes of this text and no
/// others, even if they are more than the 8,192 that `parse` takes. An error is the writer's, such
/// as running out of memory in `to_string`; no clause says so.
#[derive(Clone, Copy)]
pub struct Canonical<'a>(pub &'a Expr);

impl Display for Canonical<'_> {
    ghost output = { λ shown. Some (canonical (tree_of shown.0.now)) };

    #[tactic(auto, unfolding(crate::specs::Canonical::canonical))]
    fn fmt<W: Write>(&self, f: &mut Formatter<W>) -> fmt::Result {
        write_tree(f, self.0, parentheses_of(self.0))
    }
}

/// Which parentheses are written: all, if no more signs are open within one another then than can
/// be read.
fn parentheses_of(expr: &Expr) -> Parentheses
    ensures { result ≡ parentheses_of (tree_of expr.now) }
{
    if fits(Parentheses::All, expr, MAX_NESTING) {
        Parentheses::All
    } else {
        Parentheses::Needed
    }
}

fn write_relation<W: Write>(
    f: &mut Formatter<W>,
    comparison: Comparison,
    left: &Value,
    right: &Value,
    parentheses: Parentheses,
) -> fmt::Result
    ensures { WritesOnOk W.write_str_gives f.old result (relation_text parentheses comparison (amount_of left.now) (amount_of right.now)) f.new }
{
    let left_is_enclosed = side_enclosed(parentheses, left);
    let right_is_enclosed = side_enclosed(parentheses, right);
    let sign = comparison_text(comparison);
    write_open(f, left_is_enclosed)?;
    write_value(f, left, parentheses)?;
    write_between(f, left_is_enclosed, sign, right_is_enclosed)?;
    write_value(f, right, parentheses)?;
    write_close(f, right_is_enclosed)
}

/// Writes an expression.
#[tactic(auto, unfolding(crate::specs::Canonical::tree_text))]
fn write_tree<W: Write>(f: &mut Formatter<W>, expr: &Expr, parentheses: Parentheses) -> fmt::Result
    ensures { WritesOnOk W.write_str_gives f.old result (tree_text parentheses (tree_of expr.now)) f.new }
{
    match expr {
        Expr::Everything => Ok(()),
        Expr::Test(primitive) => write_primitive(f, primitive),
        Expr::Relation(comparison, left, right) => {
            write_relation(f, *comparison, left, right, parentheses)
        }
        Expr::Not(inner) => {
            let enclosed = negated_enclosed(parentheses, inner);
            f.write_str("not ")?;
            write_open(f, enclosed)?;
            write_tree(f, inner, parentheses)?;
            write_close(f, enclosed)
        }
        Expr::And(left, right) => {
            let left_is_enclosed = first_enclosed(parentheses, Joint::And, left);
            let right_is_enclosed = is_joined(right);
            write_open(f, left_is_enclosed)?;
            write_tree(f, left, parentheses)?;
            write_between(f, left_is_enclosed, " and ", right_is_enclosed)?;
            write_tree(f, right, parentheses)?;
            write_close(f, right_is_enclosed)
        }
        Expr::Or(left, right) => {
            let left_is_enclosed = first_enclosed(parentheses, Joint::Or, left);
            let right_is_enclosed = is_joined(right);
            write_open(f, left_is_enclosed)?;
            write_tree(f, left, parentheses)?;
            write_between(f, left_is_enclosed, " or ", right_is_enclosed)?;
            write_tree(f, right, parentheses)?;
            write_close(f, right_is_enclosed)
        }
    }
}
