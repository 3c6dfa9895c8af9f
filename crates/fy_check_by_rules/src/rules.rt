//! The five rules, and the verdict on an order.
ghost use Rattle.std.specs.Prelude.{◌≡◌, ◌&&◌, not, length, is_none, None, Some, option_map, IfOk, if◌then◌else◌};
ghost use Rattle.std.specs.List.{list_any, range_with_len};
ghost use Rattle.std.specs.FinSet as sets;
ghost use Rattle.fy_kinds.specs.declared.verdict.Rule.TheVariants.{NoTarget, NoGrant, Protected, TooManyDestroyed, TooFewLeft};
ghost use Rattle.fy_kinds.specs.Kinds.{Striking, Clogging, only, is_destroying, destroys_for_good, is_kill_which};
ghost use Rattle.fy_grants.specs.Least.{least_with};
ghost use Rattle.fy_grants.specs.Rights.{is_covered};
ghost use Rattle.fy_decide.specs.Verdicts.{numbers, least, is_granted_to, too_many_destroyed, too_few_left, bar, is_allowed, hardest, verdict, targets};
ghost use Rattle.fy_cluster.specs.History.{left};
ghost use Rattle.fy_cluster.specs.Rules.{is_protected};
ghost use Rattle.fy_check_by_rules.specs.Cases.{situation_of};
ghost use Rattle.fy_check_by_rules.specs.Past.{history_of};
ghost use Rattle.fy_check_by_rules.specs.Deeds.{deed_of};

use crate::asked::AskedDeed;
use crate::past::Past;
use crate::permission::is_covered;
use crate::policies::{first_satisfied, first_short};
use crate::rights::{grants, is_protected};
use crate::strikes::{destroyed, left, targets};
use fy_grants::Grant;
use fy_kinds::{HARDEST_FIRST, KillOrder, Kind, Rule, Target, Verdict};
use fy_locality::{Map, ProcId, ProcSet};
use std::alloc::AllocError;

/// Who asks, and after which entries.
#[derive(Clone, Copy)]
pub(crate) struct Case<'a> {
    pub(crate) before: &'a Past<'a>,
    /// The actor who asks.
    pub(crate) by: u32,
}

/// Whether there is a target.
fn has_target(map: &Map, targets: &ProcSet) -> bool
    ensures { result
        ≡ list_any (sets.contains targets.now) (range_with_len 0 (length map.now)) }
{
    (0..map.len()).any(|p| targets.contains(ProcId(p)))
}

/// The least target that no grant with the deed covers.
fn least_uncovered(map: &Map, own: &[Grant], asked: AskedDeed, targets: &ProcSet) -> Option<u32>
    ensures { result ≡ least_with (length map.now) (sets.contains targets.now)
        (λ p. not (is_covered map.now own.now (only (deed_of asked)) p)) }
{
    (0..map.len()).find(|p| targets.contains(ProcId(*p))
        && !is_covered(map, own, asked, ProcId(*p)))
}

/// The least target that is protected from the deed.
fn least_protected(before: &Past, asked: AskedDeed, targets: &ProcSet) -> Option<u32>
    ensures { result ≡ least_with (length before.now.config.now.processes)
        (sets.contains targets.now)
        (λ p. is_protected before.now.config.now (history_of before.now) p (deed_of asked)) }
{
    (0..before.config.map().len()).find(|p| targets.contains(ProcId(*p))
        && is_protected(before, ProcId(*p), asked))
}

/// Whether the kind is one from the ordered one down to the floor.
fn is_allowed(order: &KillOrder, kind: Kind) -> bool
    ensures { result ≡ is_allowed order.now kind }
{
    !order.floor().is_above(kind) && !kind.is_above(order.kind())
}

impl Case<'_> {
    /// The first rule: there are no targets.
    fn no_target(&self, targets: &ProcSet) -> Option<Rule>
        ensures { result ≡ (if list_any (sets.contains targets.now)
            (numbers (situation_of self.now)) then None else Some NoTarget) }
    {
        if has_target(self.before.config.map(), targets) {
            return None;
        }
        Some(Rule::NoTarget)
    }

    /// The second rule: no grant of the actor's that has the deed covers a target. The least such.
    fn no_grant(&self, asked: AskedDeed, targets: &ProcSet) -> Result<Option<Rule>, AllocError>
        ensures { IfOk result (λ rule. rule ≡ option_map NoGrant
            (least (situation_of self.now) (sets.contains targets.now)
            (λ p. not (is_granted_to (situation_of self.now) (deed_of asked) p)))) }
    {
        let own = grants(self.before, self.by)?;
        match least_uncovered(self.before.config.map(), &own, asked, targets) {
            Some(p) => Ok(Some(Rule::NoGrant { process: ProcId(p) })),
            None => Ok(None),
        }
    }

    /// The third rule: a target is protected from the deed. The least such.
    fn protected(&self, asked: AskedDeed, targets: &ProcSet) -> Option<Rule>
        ensures { result ≡ option_map Protected
            (least (situation_of self.now) (sets.contains targets.now)
            (λ p. (situation_of self.now).is_protected p (deed_of asked))) }
    {
        match least_protected(self.before, asked, targets) {
            Some(p) => Some(Rule::Protected { process: ProcId(p) }),
            None => None,
        }
    }

    /// The least policy that the destroyed with the targets satisfy.
    fn too_many(&self, targets: &ProcSet) -> Option<usize>
        ensures { result
            ≡ too_many_destroyed (situation_of self.now) (sets.contains targets.now) }
    {
        let both = destroyed(self.before).union(targets);
        first_satisfied(self.before.config, &both)
    }

    /// The fourth rule: the deed destroys, and the destroyed with the targets satisfy a policy. The
    /// least such.
    fn too_many_destroyed(&self, asked: AskedDeed, targets: &ProcSet) -> Option<Rule>
        ensures { result ≡ (if is_kill_which is_destroying (deed_of asked)
            then option_map TooManyDestroyed
            (too_many_destroyed (situation_of self.now) (sets.contains targets.now)) else None) }
    {
        if !asked.destroys() {
            return None;
        }
        match self.too_many(targets) {
            Some(policy) => Some(Rule::TooManyDestroyed { policy }),
            None => None,
        }
    }

    /// The least policy that those left without the targets are short of.
    fn too_few(&self, targets: &ProcSet) -> Option<usize>
        ensures { result ≡ too_few_left (situation_of self.now) (sets.contains targets.now) }
    {
        let rest = left(self.before).difference(targets);
        first_short(self.before.config, &rest)
    }

    /// The fifth rule: the deed destroys for good, and those left without the targets are short of
    /// a policy. The least such.
    fn too_few_left(&self, asked: AskedDeed, targets: &ProcSet) -> Option<Rule>
        ensures { result ≡ (if is_kill_which destroys_for_good (deed_of asked)
            then option_map TooFewLeft
            (too_few_left (situation_of self.now) (sets.contains targets.now)) else None) }
    {
        if !asked.destroys_for_good() {
            return None;
        }
        match self.too_few(targets) {
            Some(policy) => Some(Rule::TooFewLeft { policy }),
            None => None,
        }
    }

    /// The bar of a deed: the first of the five rules that bars it.
    fn bar(&self, asked: AskedDeed, targets: &ProcSet) -> Result<Option<Rule>, AllocError>
        ensures { IfOk result (λ rule. rule
            ≡ bar (situation_of self.now) (deed_of asked) (sets.contains targets.now)) }
    {
        if let Some(rule) = self.no_target(targets) {
            return Ok(Some(rule));
        }
        if let Some(rule) = self.no_grant(asked, targets)? {
            return Ok(Some(rule));
        }
        if let Some(rule) = self.protected(asked, targets) {
            return Ok(Some(rule));
        }
        if let Some(rule) = self.too_many_destroyed(asked, targets) {
            return Ok(Some(rule));
        }
        Ok(self.too_few_left(asked, targets))
    }

    /// Whether the kind is one from the ordered one down to the floor and has no bar.
    fn may_strike(
        &self,
        order: &KillOrder,
        kind: Kind,
        targets: &ProcSet,
    ) -> Result<bool, AllocError>
        ensures { IfOk result (λ may. may ≡ (is_allowed order.now kind && is_none
            (bar (situation_of self.now) (Striking kind) (sets.contains targets.now)))) }
    {
        let rule = self.bar(AskedDeed::Strike(kind), targets)?;
        Ok(is_allowed(order, kind) && rule.is_none())
    }

    /// The hardest kind from the ordered one down to the floor that has no bar.
    fn hardest(&self, order: &KillOrder, targets: &ProcSet) -> Result<Option<Kind>, AllocError>
        ensures { IfOk result (λ kind. kind
            ≡ hardest (situation_of self.now) order.now (sets.contains targets.now)) }
    {
        for kind in HARDEST_FIRST {
            let may = self.may_strike(order, kind, targets)?;
            if may {
                return Ok(Some(kind));
            }
        }
        Ok(None)
    }

    /// The verdict on an order: what strikes its targets, and the bar of the ordered kind.
    pub(crate) fn verdict(&self, order: &KillOrder) -> Result<Verdict, AllocError>
        ensures { IfOk result (λ found. found ≡ verdict (situation_of self.now) order.now) }
    {
        let targets = targets(self.before, &order.target());
        let struck = self.hardest(order, &targets)?;
        let rule = self.bar(AskedDeed::Strike(order.kind()), &targets)?;
        Ok(Verdict { struck, rule })
    }

    /// The bar of a clog of a target's processes, or of its end.
    pub(crate) fn clog_bar(&self, target: &Target) -> Result<Option<Rule>, AllocError>
        ensures { IfOk result (λ rule. rule ≡ bar (situation_of self.now) Clogging
            (targets (situation_of self.now).processes (situation_of self.now).left target.now)) }
    {
        let targets = targets(self.before, target);
        let rule = self.bar(AskedDeed::Clog, &targets)?;
        Ok(rule)
    }
}
