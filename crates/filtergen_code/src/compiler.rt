//! Expressions to programs. Code is written from its end, so an expression is walked from its right
//! end to its left.

ghost use Rattle.std.specs.Prelude.{◌≡◌, ◌≢◌, ◌↔◌, ◌⊎◌, ℕ, ◌+◌, ◌<◌, ◌≤◌, All, length, Err, IfOk, IsErr, MatchOption};
ghost use Rattle.bpfvm.specs.declared.program.TheConstants.{MAX_INSNS};
ghost use Rattle.filter_tree.specs.Trees.{tree_of};
ghost use Rattle.filter_meaning.specs.Meaning.{primitive_test, meaning};
ghost use Rattle.filtergen_facts.specs.Weights.{weight, need};
ghost use Rattle.filtergen_code.specs.Compiling.{StandsFor, IsBadSnap};
ghost use Rattle.filtergen_trim.specs.Reaching.{IsAllReached};
ghost use Rattle.filtergen_code.specs.Emission.{OrFull};
ghost use Rattle.filtergen_code.specs.Entries.{AreTargets, DecidesGiven, RelaysBoth};
ghost use Rattle.filtergen_facts.specs.declared.lists.Form.TheVariants.{Bytes, EtherHost};
ghost use Rattle.filtergen_facts.specs.Lists.{any_of, kind_test, list_weight, members_weight, IsMember, IsAlone};
ghost use Rattle.filtergen_code.specs.ValueLists.{targets_for_chain, EmitsMembers, EmitsRelayed, EmitsRightEnd, EmitsLists};
ghost use Rattle.filtergen_code.specs.Ends.{chain_of, left_targets, kept_targets, kept_with_end, Leaves};

use crate::code::{Code, Full};
use crate::entries::{Context, Entry, Targets};
use crate::primitives::cost;
use bpfvm::Program;
use filter_tree::{Expr, Primitive};
use filtergen_facts::{
    Chain, Form, Group, MAX_NEED, Member, OtherMembers, PacketFacts, Refusal, ValueLists, need,
};
use savefile::MAX_SNAP;

/// The code of an expression.
#[derive(Clone, Copy)]
pub(crate) struct Emitted {
    /// Where its run begins.
    pub entry: Entry,
    /// The expression's targets, or relays in reach that lead to them: what comes in front uses
    /// these.
    pub targets: Targets,
}

/// The right end of an expression, whose code is written.
#[derive(Clone, Copy)]
struct RightEnd<'a> {
    emitted: Emitted,
    /// What is to its left: nothing if the right end is the whole expression.
    left: Option<&'a Expr>,
}

/// Relays of an expression's targets to which the code of its left part does not lead.
#[derive(Clone, Copy)]
pub(crate) struct KeptTargets {
    pub yes: Option<Entry>,
    pub no: Option<Entry>,
}

impl KeptTargets {
    /// Relays of the expression's targets, from those of its left part.
    fn with_last(self, last: Targets) -> Targets
        ensures { result ≡ kept_targets self last }
    {
        let yes = self.yes.unwrap_or(last.yes);
        let no = self.no.unwrap_or(last.no);
        Targets { yes, no }
    }

    /// These, and the relay that the code to the left of a right end does not use.
    fn with_end(self, chain: Chain, targets: Targets) -> KeptTargets
        ensures { result ≡ kept_with_end chain self targets }
    {
        let KeptTargets { mut yes, mut no } = self;
        match chain {
            Chain::AnyOf => no = Some(no.unwrap_or(targets.no)),
            Chain::NoneOf => yes = Some(yes.unwrap_or(targets.yes)),
        }
        KeptTargets { yes, no }
    }
}

impl Emitted {
    /// The targets of what is to its left.
    fn left_targets(self, chain: Chain) -> Targets
        ensures { result ≡ left_targets chain self.entry self.targets }
    {
        let (entry, Targets { yes, no }) = (self.entry, self.targets);
        match chain {
            Chain::AnyOf => Targets { yes, no: entry },
            Chain::NoneOf => Targets { yes: entry, no },
        }
    }
}

/// How the right end of an expression is joined to its left part.
fn chain_of(expr: &Expr) -> Chain
    ensures { result ≡ chain_of (tree_of expr.now) }
{
    match expr {
        Expr::And(_, _) => Chain::NoneOf,
        _ => Chain::AnyOf,
    }
}

/// Whether the last two links of a chain can be members of lists. If not, it ends in no list.
fn may_be_listed(chain: Chain, left: &Expr, right: &Expr) -> bool {
    Member::of_link(chain, right).is_some() && Member::of_link(chain, chain.last_of(left)).is_some()
}

/// The targets of the test whether any member of a list holds.
fn targets_for_chain(chain: Chain, targets: Targets) -> Targets
    ensures { result ≡ targets_for_chain chain targets }
{
    match chain {
        Chain::AnyOf => targets,
        Chain::NoneOf => targets.opposite(),
    }
}

impl Code {
    /// Emits relays of the targets, so that the jumps of the primitive and those in front of it
    /// reach them, and then the primitive. It is not inlined, to keep its locals out of each frame
    /// of the walk down a tree.
    #[inline(never)]
    fn emit_primitive_with_relays(
        &mut self,
        primitive: Primitive,
        context: Context,
    ) -> Result<Emitted, Full>
        requires targets { AreTargets self.old context.targets }
        ensures { EmitsRelayed context.known 40 (primitive_test primitive) context.targets self.old self.new result }
    {
        self.room(2 + cost(primitive))?;
        let targets = self.emit_relays(context.targets);
        let entry = self.emit_primitive_given(primitive, Context { targets, ..context });
        Ok(Emitted { entry, targets })
    }

    /// Emits a group of at least two members.
    fn emit_many_members(&mut self, group: &Group, context: Context) -> Result<Emitted, Full>
        requires many { 2 ≤ length group.now.ranges.items }
        requires targets { AreTargets self.old context.targets }
        ensures { EmitsRelayed context.known (list_weight group.now.kind.form (length group.now.ranges.items))
            (any_of (kind_test group.now.kind) group.now.ranges.items) context.targets self.old self.new result }
    {
        self.room(2)?;
        let targets = self.emit_relays(context.targets);
        let entry = self.emit_list(group, Context { targets, ..context })?;
        Ok(Emitted { entry, targets })
    }

    /// Emits a group of one member that is a relation or an Ethernet host.
    fn emit_one_member(&mut self, group: &Group, context: Context) -> Result<Emitted, Full>
        requires form { (group.now.kind.form ≡ Bytes) ⊎ (group.now.kind.form ≡ EtherHost) }
        requires some { length group.now.ranges.items ≡ 1 }
        requires targets { AreTargets self.old context.targets }
        ensures { EmitsRelayed context.known (list_weight group.now.kind.form (length group.now.ranges.items))
            (any_of (kind_test group.now.kind) group.now.ranges.items) context.targets self.old self.new result }
    {
        self.room(2)?;
        let targets = self.emit_relays(context.targets);
        let entry = match group.kind.form {
            Form::EtherHost => self.emit_ethernet_list(group, targets)?,
            _ => self.emit_bytes_list(group, Context { targets, ..context })?,
        };
        Ok(Emitted { entry, targets })
    }

    /// Emits the members of one kind. A single member is emitted as its primitive, except an
    /// Ethernet host: the lists of such hosts enter each other after their loads.
    #[inline(never)]
    fn emit_group(&mut self, group: &Group, context: Context) -> Result<Emitted, Full>
        requires some { 0 < length group.now.ranges.items }
        requires alone { IsAlone group.now.kind group.now.primitive group.now.ranges.items }
        requires targets { AreTargets self.old context.targets }
        ensures { EmitsRelayed context.known (list_weight group.now.kind.form (length group.now.ranges.items))
            (any_of (kind_test group.now.kind) group.now.ranges.items) context.targets self.old self.new result }
    {
        if group.ranges.len() > 1 {
            return self.emit_many_members(group, context);
        }
        match group.primitive {
            Some(primitive) => match group.kind.form {
                Form::EtherHost => self.emit_one_member(group, context),
                _ => self.emit_primitive_with_relays(primitive, context),
            },
            None => self.emit_one_member(group, context),
        }
    }

    /// Emits all members, kind by kind: in a run the kind of the first member comes first.
    fn emit_members(
        &mut self,
        first: Member,
        others: &mut OtherMembers,
        context: Context,
    ) -> Result<Emitted, Full>
        requires first { IsMember first }
        requires others { All IsMember others.old.members.items }
        requires room { length others.old.members.items < MAX_INSNS }
        requires targets { AreTargets self.old context.targets }
        ensures { OrFull (list_weight first.kind.form 1 + members_weight others.old.members.items) self.old result (λ emitted.
            EmitsMembers context.known first others.old.members.items context.targets emitted.targets emitted.entry self.old self.new) }
    {
        let group = others.group_of(first);
        let Some(next) = others.pop() else {
            return self.emit_group(&group, context);
        };
        let second = self.emit_members(next, others, context)?;
        let (yes, no) = (second.targets.yes, second.entry);
        let targets = Targets { yes, no };
        let head = self.emit_group(&group, Context { targets, ..context })?;
        let (yes, no) = (head.targets.yes, second.targets.no);
        let (entry, targets) = (head.entry, Targets { yes, no });
        Ok(Emitted { entry, targets })
    }

    /// Emits the lists at the right end of a chain of these two, if it ends in any. It is not
    /// inlined: the members take room on the stack, which the frames of the walk down a tree must
    /// not have.
    #[inline(never)]
    fn emit_value_lists<'a>(
        &mut self,
        chain: Chain,
        left: &'a Expr,
        right: &Expr,
        context: Context,
    ) -> Result<Option<RightEnd<'a>>, Full>
        requires targets { AreTargets self.old context.targets }
        ensures { EmitsLists context.known chain (tree_of left.now) (tree_of right.now) context.targets self.old self.new result }
    {
        let Some((list, left)) = ValueLists::at_end(chain, left, right) else {
            return Ok(None);
        };
        let known = chain.facts_after(context.known, left);
        let targets = targets_for_chain(chain, context.targets);
        let mut others = list.others;
        let members = self.emit_members(list.first, &mut others, Context { known, targets })?;
        let (entry, targets) = (members.entry, targets_for_chain(chain, members.targets));
        let emitted = Emitted { entry, targets };
        Ok(Some(RightEnd { emitted, left }))
    }

    /// Looks first whether the chain can end in lists, and only then emits them: no stack is
    /// cleared in vain.
    fn emit_lists_if_any<'a>(
        &mut self,
        chain: Chain,
        left: &'a Expr,
        right: &Expr,
        context: Context,
    ) -> Result<Option<RightEnd<'a>>, Full>
        requires targets { AreTargets self.old context.targets }
        ensures { EmitsLists context.known chain (tree_of left.now) (tree_of right.now) context.targets self.old self.new result }
    {
        if !may_be_listed(chain, left, right) {
            return Ok(None);
        }
        self.emit_value_lists(chain, left, right, context)
    }

    /// Emits the lists in which a chain of these two ends, or else its last link.
    #[cycle(expression)]
    fn emit_last_link<'a>(
        &mut self,
        chain: Chain,
        left: &'a Expr,
        right: &Expr,
        context: Context,
    ) -> Result<RightEnd<'a>, Full>
        requires need { need (tree_of right.now) ≤ 16 }
        requires targets { AreTargets self.old context.targets }
        ensures { OrFull (weight (tree_of left.now) + weight (tree_of right.now)) self.old result
            (EmitsRightEnd context.known chain (tree_of left.now) (tree_of right.now) context.targets self.old self.new) }
    {
        if let Some(listed) = self.emit_lists_if_any(chain, left, right, context)? {
            return Ok(listed);
        }
        let known = chain.facts_after(context.known, Some(left));
        let emitted = self.emit_expr(right, Context { known, ..context })?;
        let left = Some(left);
        Ok(RightEnd { emitted, left })
    }

    /// Emits the right end of an expression: the last link or the lists of a chain, and the whole
    /// of any other expression.
    #[inline(never)]
    #[cycle(expression)]
    fn emit_right_end<'a>(&mut self, expr: &'a Expr, context: Context) -> Result<RightEnd<'a>, Full>
        requires need { need (tree_of expr.now) ≤ 16 }
        requires targets { AreTargets self.old context.targets }
        ensures { OrFull (weight (tree_of expr.now)) self.old result (λ end. MatchOption end.left
            (DecidesGiven context.known (weight (tree_of expr.now)) (meaning (tree_of expr.now)) context.targets end.emitted.entry self.old self.new
            × RelaysBoth context.targets end.emitted.targets self.old self.new)
            (λ rest. Leaves context.known (tree_of expr.now) (tree_of rest.now) context.targets end.emitted.targets end.emitted.entry
            self.old self.new)) }
    {
        let targets = context.targets;
        let emitted = match expr {
            Expr::Everything => {
                let entry = targets.yes;
                Emitted { entry, targets }
            }
            Expr::Test(primitive) => self.emit_primitive_with_relays(*primitive, context)?,
            Expr::Relation(comparison, left, right) => {
                self.room(2)?;
                let targets = self.emit_relays(targets);
                let context = Context { targets, ..context };
                let entry = self.emit_relation_given(*comparison, left, right, context)?;
                Emitted { entry, targets }
            }
            Expr::Not(operand) => {
                let targets = targets.opposite();
                let inner = self.emit_expr(operand, Context { targets, ..context })?;
                let (entry, targets) = (inner.entry, inner.targets.opposite());
                Emitted { entry, targets }
            }
            Expr::And(left, right) => {
                return self.emit_last_link(Chain::NoneOf, left, right, context);
            }
            Expr::Or(left, right) => {
                return self.emit_last_link(Chain::AnyOf, left, right, context);
            }
        };
        let left = None;
        Ok(RightEnd { emitted, left })
    }

    /// Emits an expression, or only what it needs of a packet of which something is known. A loop
    /// goes from its right end to its left, so a long chain takes no more stack than a short one.
    #[cycle(expression)]
    fn emit_expr(&mut self, expr: &Expr, context: Context) -> Result<Emitted, Full>
        requires need { need (tree_of expr.now) ≤ 16 }
        requires targets { AreTargets self.old context.targets }
        ensures { EmitsRelayed context.known (weight (tree_of expr.now)) (meaning (tree_of expr.now)) context.targets self.old self.new result }
    {
        let known = context.known;
        let mut rest = expr;
        let mut on = context.targets;
        let (yes, no) = (None, None);
        let mut kept = KeptTargets { yes, no };
        'ends: loop {
            let end = self.emit_right_end(rest, Context { known, targets: on })?;
            let emitted = end.emitted;
            let Some(left) = end.left else {
                let (entry, targets) = (emitted.entry, kept.with_last(emitted.targets));
                return Ok(Emitted { entry, targets });
            };
            let chain = chain_of(rest);
            kept = kept.with_end(chain, emitted.targets);
            on = emitted.left_targets(chain);
            rest = left;
        }
    }
}

/// The program of an expression. If the code is not entered at its front, a jump there leads to its
/// entry.
fn program_of(expr: &Expr, snap: u32) -> Result<Program, Full>
    requires { need (tree_of expr.now) ≤ 16 }
    ensures program { IfOk result (λ program. StandsFor program (tree_of expr.now) snap) }
    ensures reached { IfOk result IsAllReached }
    ensures full { IsErr result → 500 < weight (tree_of expr.now) }
{
    let mut code = Code::new(snap);
    let (known, yes, no) = (PacketFacts::Nothing, Entry::at(2), Entry::at(1));
    let targets = Targets { yes, no };
    let emitted = code.emit_expr(expr, Context { known, targets })?;
    code.room(1)?;
    code.emit_relay(emitted.entry.any, 0);
    code.into_program()
}

/// Compiles an expression: the program answers the snapshot length if the expression accepts the
/// packet, and else 0.
///
/// docs/LANGUAGE.md says what an expression means, after pcap-filter(7). A packet is its captured
/// bytes and its length on the wire. A test that reads past the captured bytes, or divides by 0,
/// rejects the packet, also under a `not`. Some path of jumps leads from the program's first
/// instruction to each of the others.
///
/// `BadSnap` comes exactly if `snap` is not from 1 to [`MAX_SNAP`] bytes; else `TooDeep` comes
/// exactly if the expression needs more than 16 cells of scratch memory (see
/// [`need`](filtergen_facts::need)). `TooLong` comes only if its weight exceeds 500 (see
/// [`weight`](filtergen_facts::weight)). `NoMemory` never comes: this takes no memory.
pub fn compile(expr: &Expr, snap: u32) -> Result<Program, Refusal>
    ensures program { IfOk result (λ program. StandsFor program (tree_of expr.now) snap) }
    ensures reached { IfOk result IsAllReached }
    ensures bad_snap { (result ≡ Err Refusal.BadSnap) ↔ IsBadSnap snap }
    ensures too_deep { (result ≡ Err Refusal.TooDeep) ↔ ((0 < snap) × (snap ≤ MAX_SNAP) × (16 < need (tree_of expr.now))) }
    ensures too_long { result ≡ Err Refusal.TooLong → 500 < weight (tree_of expr.now) }
    ensures no_memory { result ≢ Err Refusal.NoMemory }
{
    if snap == 0 || snap > MAX_SNAP {
        return Err(Refusal::BadSnap);
    }
    if need(expr) > MAX_NEED {
        return Err(Refusal::TooDeep);
    }
    match program_of(expr, snap) {
        Ok(program) => Ok(program),
        Err(_) => Err(Refusal::TooLong),
    }
}
