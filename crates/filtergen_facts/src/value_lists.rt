//! Finds the lists at the right end of a chain. Members of different lists may be mixed.

ghost use Rattle.std.specs.Prelude.{◌≡◌, ◌<◌, ◌⊎◌, ◌++◌, All, length, option_to_list, [], IfSome, IfNone, MatchOption, Some, None};
ghost use Rattle.std.specs.Bool.{OnTrue, OnFalse};
ghost use Rattle.filter_tree.specs.Trees.{tree_of};
ghost use Rattle.filtergen_facts.specs.Lists.{IsMember, Asks, Settles, AreApart, AreFreeAfter, Takes, EndsIn, Divides, IsIncluded, LeavesOut, of_tcp_or_udp, AskFor, Groups};

use crate::lists::{Chain, ListKind, Member, ValueRange};
use arrayvec::ArrayVec;
use bpfvm::MAX_INSNS;
use filter_tree::{Expr, Primitive};

/// How many links farther left a test is searched for after which no test of a kind aborts. The
/// bound keeps the time linear in the chain's length.
const LOOK_LEFT: u32 = 8;

/// How many kinds the members have at most, not counting the first one's. Members of each kind take
/// room on the stack.
const MAX_KINDS: usize = 8;

/// The links at the right end of a chain that are members of lists. The first one is tested first;
/// after it the others may be tested kind by kind, since none of them aborts any more, or since all
/// others are No if those of one kind abort.
#[derive(Drop)]
pub struct ValueLists {
    /// The member that is tested first.
    pub first: Member,
    /// The others, the last one first.
    pub others: OtherMembers,
}

/// The members after the first one, the last one first.
#[derive(Drop)]
pub struct OtherMembers {
    pub members: ArrayVec<Member, MAX_INSNS>,
}

/// Members of one kind.
#[derive(Drop)]
pub struct Group {
    pub kind: ListKind,
    /// The number of each member, that of the last one first.
    pub ranges: ArrayVec<ValueRange, MAX_INSNS>,
    /// The primitive of a single member, or `None` for a relation.
    pub primitive: Option<Primitive>,
}

/// Whether no test of this kind aborts after this link.
fn link_settles(chain: Chain, expr: &Expr, kind: ListKind) -> bool
    ensures { OnTrue result (Asks chain (tree_of expr.now) kind) }
{
    match Member::of_link(chain, expr) {
        Some(member) if member.kind.settles(kind) => true,
        _ => false,
    }
}

/// Whether no test of this kind aborts after one of the last `links` links of a chain.
fn chain_settles(chain: Chain, expr: &Expr, kind: ListKind, links: u32) -> bool
    ensures { OnTrue result (Asks chain (tree_of expr.now) kind) }
{
    match (chain, expr) {
        (Chain::AnyOf, Expr::Or(left, right)) => {
            link_settles(chain, right, kind)
                || links > 0 && chain_settles(chain, left, kind, links - 1)
        }
        (Chain::NoneOf, Expr::And(left, right)) => {
            link_settles(chain, right, kind)
                || links > 0 && chain_settles(chain, left, kind, links - 1)
        }
        _ => link_settles(chain, expr, kind),
    }
}

/// Whether no test of a kind aborts after the first member and what is to its left.
fn is_settled(chain: Chain, left: Option<&Expr>, first: Member, kind: ListKind) -> bool
    ensures { OnTrue result (MatchOption left.entry (Settles chain None first kind) (λ t. Settles chain (Some (tree_of t.now)) first kind)) }
{
    if first.kind.settles(kind) {
        return true;
    }
    match left {
        Some(left) if chain_settles(chain, left, kind, LOOK_LEFT) => true,
        _ => false,
    }
}

/// Whether a member is No if all members of a kind with these numbers are.
fn is_included(member: Member, kind: ListKind, ranges: &[ValueRange]) -> bool
    ensures { OnTrue result (IsIncluded kind ranges.now member) }
{
    if !kind.includes(member.kind) {
        return false;
    }
    for range in ranges {
        if range.has(member.range) {
            return true;
        }
    }
    false
}

/// Adds a kind to these if it is new. False if there is no room for it.
fn count_kind(kinds: &mut ArrayVec<ListKind, MAX_KINDS>, kind: ListKind) -> bool {
    for own in kinds.as_slice() {
        if kind.is(*own) {
            return true;
        }
    }
    if kinds.is_full() {
        return false;
    }
    kinds.push(kind);
    true
}

/// Whether the last link of a chain may be the first member although tests of this kind can abort
/// after it. All members of its own kind may then be tested first. Only members of these two kinds
/// may be to its right, and some of its own kind must be among them.
fn may_lead(chain: Chain, expr: &Expr, kind: ListKind, kinds: &[ListKind]) -> bool {
    let Some(first) = Member::of_link(chain, chain.last_of(expr)) else {
        return false;
    };
    let mut is_listed = false;
    for own in kinds {
        if first.kind.is(*own) {
            is_listed = true;
        } else if !kind.is(*own) {
            return false;
        }
    }
    is_listed && first.kind.is_apart(kind)
}

/// How many links to the left of a link belong to its lists. They end before a link whose kind can
/// abort after those farther left, or is one kind too many; the next one still belongs to them if
/// it may be the first member.
fn count_links(
    chain: Chain,
    expr: &Expr,
    kind: ListKind,
    kinds: &mut ArrayVec<ListKind, MAX_KINDS>,
    found: usize,
) -> usize {
    if found >= MAX_INSNS - 1 {
        return found;
    }
    if !chain_settles(chain, expr, kind, LOOK_LEFT) {
        return found + usize::from(may_lead(chain, expr, kind, kinds.as_slice()));
    }
    if !count_kind(kinds, kind) {
        return found;
    }
    match (chain, expr) {
        (Chain::AnyOf, Expr::Or(left, right)) | (Chain::NoneOf, Expr::And(left, right)) => {
            match Member::of_link(chain, right) {
                Some(member) => count_links(chain, left, member.kind, kinds, found + 1),
                None => found,
            }
        }
        _ => found + 1,
    }
}

impl OtherMembers {
    /// Takes a link, if it is a member and there is room.
    fn take_link(&mut self, chain: Chain, expr: &Expr) -> bool
        ensures taken { OnTrue result (Takes chain (tree_of expr.now) None self.old.members.items self.new.members.items) }
        ensures kept { OnFalse result (self.new ≡ self.old) }
    {
        match Member::of_link(chain, expr) {
            Some(member) if !self.members.is_full() => {
                self.members.push(member);
                true
            }
            _ => false,
        }
    }

    /// Takes at most `most` links from the right end of an expression, and returns what is left of
    /// it.
    fn take_links<'a>(&mut self, chain: Chain, expr: &'a Expr, most: usize) -> Option<&'a Expr>
        ensures { MatchOption result
            (Takes chain (tree_of expr.now) None self.old.members.items self.new.members.items)
            (λ left. Takes chain (tree_of expr.now) (Some (tree_of left.now)) self.old.members.items self.new.members.items) }
    {
        if most == 0 {
            return Some(expr);
        }
        match (chain, expr) {
            (Chain::AnyOf, Expr::Or(left, right)) => {
                if self.take_link(chain, right) {
                    self.take_links(chain, left, most - 1)
                } else {
                    Some(expr)
                }
            }
            (Chain::NoneOf, Expr::And(left, right)) => {
                if self.take_link(chain, right) {
                    self.take_links(chain, left, most - 1)
                } else {
                    Some(expr)
                }
            }
            _ => {
                if self.take_link(chain, expr) {
                    None
                } else {
                    Some(expr)
                }
            }
        }
    }

    /// Whether none of these aborts after the first member and what is to its left.
    fn are_settled(&self, chain: Chain, left: Option<&Expr>, first: Member) -> bool
        ensures { OnTrue result (MatchOption left.entry
            (All (λ m. Settles chain None first m.kind) self.now.members.items)
            (λ t. All (λ m. Settles chain (Some (tree_of t.now)) first m.kind) self.now.members.items)) }
    {
        for member in self.members.as_slice() {
            if !is_settled(chain, left, first, member.kind) {
                return false;
            }
        }
        true
    }

    /// Whether these are of only two kinds, this one and one that may be tested after it.
    fn are_apart(&self, kind: ListKind) -> bool
        ensures { OnTrue result (AreApart kind self.now.members.items) }
    {
        let Some(last) = self.members.as_slice().last() else {
            return false;
        };
        for member in self.members.as_slice() {
            if !member.kind.is(kind) && !member.kind.is(last.kind) {
                return false;
            }
        }
        kind.is_apart(last.kind)
    }

    /// Whether these may be tested kind by kind after the first member and what is to its left.
    fn are_free(&self, chain: Chain, left: Option<&Expr>, first: Member) -> bool
        ensures { OnTrue result (MatchOption left.entry
            (AreFreeAfter chain None first self.now.members.items)
            (λ t. AreFreeAfter chain (Some (tree_of t.now)) first self.now.members.items)) }
    {
        self.are_settled(chain, left, first) || self.are_apart(first.kind)
    }

    /// Removes the members of a kind, and returns their numbers.
    #[inline(never)]
    fn divide(&mut self, kind: ListKind) -> ArrayVec<ValueRange, MAX_INSNS>
        ensures { Divides kind self.old.members.items result.items self.new.members.items }
    {
        let mut ranges = ArrayVec::new();
        let mut others = ArrayVec::new();
        for member in self.members.as_slice() {
            if member.kind.is(kind) {
                ranges.push(member.range);
            } else {
                others.push(*member);
            }
        }
        self.members = others;
        ranges
    }

    /// Removes the members that are No if all members of a kind with these numbers are.
    #[inline(never)]
    fn leave_out(&mut self, kind: ListKind, ranges: &[ValueRange])
        ensures { LeavesOut kind ranges.now self.old.members.items self.new.members.items }
    {
        let mut kept = ArrayVec::new();
        for member in self.members.as_slice() {
            if !is_included(*member, kind, ranges) {
                kept.push(*member);
            }
        }
        self.members = kept;
    }

    /// Whether these are of this kind and have these numbers, in the same order.
    fn ask_for(&self, kind: ListKind, ranges: &[ValueRange]) -> bool
        ensures { OnTrue result (AskFor kind ranges.now self.now.members.items) }
    {
        if self.members.len() != ranges.len() {
            return false;
        }
        for (member, range) in self.members.as_slice().iter().zip(ranges) {
            if !member.kind.is(kind) || !member.range.is(*range) {
                return false;
            }
        }
        true
    }

    /// Removes the members of the first member's kind, and returns them with it. Members that hold
    /// only if one of these does are dropped.
    fn group_of_kind(&mut self, first: Member) -> Group
        requires room { length self.old.members.items < MAX_INSNS }
        ensures kind { result.kind ≡ first.kind }
        ensures primitive { result.primitive ≡ first.primitive }
        ensures groups { Groups first self.old.members.items first.kind result.ranges.items self.new.members.items }
    {
        let mut ranges = self.divide(first.kind);
        ranges.push(first.range);
        if first.kind.has_both_ports() {
            self.leave_out(first.kind, ranges.as_slice());
        }
        Group {
            kind: first.kind,
            ranges,
            primitive: first.primitive,
        }
    }

    /// Removes and returns the group of the first member. If all others have the same ports of UDP
    /// as the group has of TCP, or the other way round, they join it.
    #[inline(never)]
    pub fn group_of(&mut self, first: Member) -> Group
        requires room { length self.old.members.items < MAX_INSNS }
        ensures kind { (result.kind ≡ first.kind) ⊎ (result.kind ≡ of_tcp_or_udp first.kind) }
        ensures primitive { result.primitive ≡ first.primitive }
        ensures groups { Groups first self.old.members.items result.kind result.ranges.items self.new.members.items }
    {
        let mut group = self.group_of_kind(first);
        let Some(other) = first.kind.of_other_protocol() else {
            return group;
        };
        if group.ranges.len() > 1 && self.ask_for(other, group.ranges.as_slice()) {
            self.members.clear();
            group.kind = first.kind.of_tcp_or_udp();
        }
        group
    }

    /// Removes and returns the one that comes first in the chain.
    pub fn pop(&mut self) -> Option<Member>
        ensures items { self.old.members.items ≡ self.new.members.items ++ option_to_list result }
        ensures none { IfNone result (self.old.members.items ≡ []) }
        ensures room { length self.new.members.items < MAX_INSNS }
    {
        if self.members.len() == 0 {
            return None;
        }
        self.members.pop()
    }
}

impl ValueLists {
    /// The lists at the right end of a chain of these two, if there are any, and what is to their
    /// left.
    pub fn at_end<'a>(
        chain: Chain,
        left: &'a Expr,
        right: &Expr,
    ) -> Option<(ValueLists, Option<&'a Expr>)>
        ensures { IfSome result (λ found. MatchOption found.1
            (EndsIn chain (tree_of left.now) (tree_of right.now) None found.0.first found.0.others.members.items)
            (λ rest. EndsIn chain (tree_of left.now) (tree_of right.now) (Some (tree_of rest.now)) found.0.first
            found.0.others.members.items)) }
    {
        let last = Member::of_link(chain, right)?;
        let mut kinds = ArrayVec::new();
        match count_links(chain, left, last.kind, &mut kinds, 0) {
            0 => None,
            more => ValueLists::of_links(chain, left, right, more),
        }
    }

    /// The lists of the last link and of `more` links to its left.
    #[inline(never)]
    fn of_links<'a>(
        chain: Chain,
        left: &'a Expr,
        right: &Expr,
        more: usize,
    ) -> Option<(ValueLists, Option<&'a Expr>)>
        ensures { IfSome result (λ found. MatchOption found.1
            (EndsIn chain (tree_of left.now) (tree_of right.now) None found.0.first found.0.others.members.items)
            (λ rest. EndsIn chain (tree_of left.now) (tree_of right.now) (Some (tree_of rest.now)) found.0.first
            found.0.others.members.items)) }
    {
        let members = ArrayVec::new();
        let mut others = OtherMembers { members };
        if !others.take_link(chain, right) {
            return None;
        }
        let rest = others.take_links(chain, left, more);
        let first = others.pop()?;
        if others.are_free(chain, rest, first) {
            Some((ValueLists { first, others }, rest))
        } else {
            None
        }
    }
}
