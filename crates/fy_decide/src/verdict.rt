//! Verdicts: by which kind an actor's order strikes, and the first rule that bars the ordered kind.
ghost use Rattle.std.specs.Prelude.{◌≡◌, ◌≢◌, ◌↔◌, ◌<◌, ◌&&◌, ℕ, Bool, true, not, nat_le, is_none, length, IsTrue, Some, None};
ghost use Rattle.std.specs.List.{find};
ghost use Rattle.std.specs.FinSet as sets;
ghost use Rattle.fy_kinds.specs.Kinds.{Deed, Striking, Clogging, only, rank};
ghost use Rattle.fy_kinds.specs.Orders.{Order};
ghost use Rattle.fy_grants.specs.Least.{LeastWith};
ghost use Rattle.fy_grants.specs.Rights.{Rights, grants_of, is_covered, is_protected};
ghost use Rattle.fy_decide.specs.Targets.{targeted};
ghost use Rattle.fy_decide.specs.Verdicts.{Situation, NamesProcess, situation_of, targets, bar, hardest_first, verdict, first_rule, permission_rules, loss_rules};

use crate::DeadBook;
use crate::targets::{Kept, Targets};
use fy_grants::Book;
use fy_kinds::{HARDEST_FIRST, KillOrder, Kind, KindSet, Rule, Target, Verdict};
use fy_locality::{Map, ProcId, ProcSet};

/// What a verdict rests on: the dead book, the book of grants for the same processes, who asks, and
/// the targets.
#[derive(Clone, Copy)]
struct Case<'a> {
    dead: &'a DeadBook,
    book: &'a Book,
    actor: u32,
    targets: &'a Targets,
    ghost same: { book.now.processes ≡ dead.now.processes },
    ghost members: { (q : ℕ)
        → sets.contains (targeted targets.now) q ≡ true → q < length dead.now.processes },
}

// Of one process each question is a few instructions, which a call would double: so all are put
// into the function that finds the verdict.
impl Case<'_> {
    /// The least target that no grant of the actor with all these kinds covers. Of a lone target no
    /// set is made.
    #[inline(always)]
    fn uncovered(&self, kinds: KindSet) -> Option<ProcId>
        ensures { LeastWith (sets.contains (targeted self.now.targets.now))
            (λ q. not (is_covered self.now.book.now.processes
            (grants_of self.now.book.now self.now.actor) kinds q)) result }
    {
        match &self.targets.kept {
            Kept::One(p) => {
                if self.book.covers(self.actor, kinds, *p) {
                    None
                } else {
                    Some(*p)
                }
            }
            Kept::Set(set) => self.book.uncovered(self.actor, kinds, set),
        }
    }

    /// The least target that is protected from some of these kinds.
    #[inline(always)]
    fn barred(&self, kinds: KindSet) -> Option<ProcId>
        ensures { LeastWith (sets.contains (targeted self.now.targets.now))
            (is_protected self.now.book.now kinds) result }
    {
        match &self.targets.kept {
            Kept::One(p) => {
                if self.book.protects(kinds, *p) {
                    Some(*p)
                } else {
                    None
                }
            }
            Kept::Set(set) => self.book.barred(kinds, set),
        }
    }

    /// Whether there is no target.
    fn has_no_target(&self) -> bool
        ensures { IsTrue result ↔ (targeted self.now.targets.now ≡ sets.empty) }
    {
        match &self.targets.kept {
            Kept::One(_) => false,
            Kept::Set(set) => set.is_empty(),
        }
    }

    /// The bar of a deed by the first three rules, those of permission.
    #[inline(always)]
    fn permission_bar(&self, kinds: KindSet) -> Option<Rule>
        ensures { (deed : Deed) → kinds ≡ only deed → result
            ≡ first_rule (permission_rules
            (situation_of self.now.dead.now self.now.book.now self.now.actor) deed
            (sets.contains (targeted self.now.targets.now))) }
    {
        // To be protected from some of one kind is to be protected from it.
        fy_kinds::laws::one_deed();
        fy_grants::laws::least_is_first_found();
        if self.has_no_target() {
            return Some(Rule::NoTarget);
        }
        if let Some(process) = self.uncovered(kinds) {
            return Some(Rule::NoGrant { process });
        }
        match self.barred(kinds) {
            Some(process) => Some(Rule::Protected { process }),
            None => None,
        }
    }

    /// The bar of a kind of kill by the last two rules, those of replication.
    #[inline(always)]
    fn loss_bar(&self, kind: Kind) -> Option<Rule>
        ensures { (rights : Rights) (actor : ℕ) → result
            ≡ first_rule (loss_rules (situation_of self.now.dead.now rights actor) (Striking kind)
            (sets.contains (targeted self.now.targets.now))) }
    {
        if !kind.is_destroying() {
            return None;
        }
        if let Some(policy) = self.dead.too_many_destroyed(self.targets) {
            return Some(Rule::TooManyDestroyed { policy });
        }
        if !kind.destroys_for_good() {
            return None;
        }
        match self.dead.too_few_left(self.targets) {
            Some(policy) => Some(Rule::TooFewLeft { policy }),
            None => None,
        }
    }

    /// The bar of a kind of kill: the first of all five rules that bars it.
    #[inline(always)]
    fn bar(&self, kind: Kind) -> Option<Rule>
        ensures { result
            ≡ bar (situation_of self.now.dead.now self.now.book.now self.now.actor) (Striking kind)
            (sets.contains (targeted self.now.targets.now)) }
    {
        match self.permission_bar(KindSet::of(kind)) {
            Some(rule) => Some(rule),
            None => self.loss_bar(kind),
        }
    }

    /// The hardest kind from an ordered one down to a floor that has no bar, where a rule bars the
    /// ordered one.
    fn lesser(&self, kind: Kind, floor: Kind, rule: Rule) -> Option<Kind>
        requires { bar (situation_of self.now.dead.now self.now.book.now self.now.actor)
            (Striking kind) (sets.contains (targeted self.now.targets.now)) ≡ Some rule }
        ensures { result ≡ find (λ milder.
            (nat_le (rank floor) (rank milder) && nat_le (rank milder) (rank kind))
            && is_none (bar (situation_of self.now.dead.now self.now.book.now self.now.actor)
            (Striking milder) (sets.contains (targeted self.now.targets.now)))) hardest_first }
    {
        if kind == floor {
            return None;
        }
        for milder in HARDEST_FIRST {
            if self.strikes_instead(kind, floor, rule, milder) {
                return Some(milder);
            }
        }
        None
    }

    /// Whether a kind lies between an ordered one and a floor and has no bar, where a rule bars the
    /// ordered one.
    fn strikes_instead(&self, kind: Kind, floor: Kind, rule: Rule, milder: Kind) -> bool
        requires { bar (situation_of self.now.dead.now self.now.book.now self.now.actor)
            (Striking kind) (sets.contains (targeted self.now.targets.now)) ≡ Some rule }
        ensures { result ≡ ((nat_le (rank floor) (rank milder) && nat_le (rank milder) (rank kind))
            && is_none (bar (situation_of self.now.dead.now self.now.book.now self.now.actor)
            (Striking milder) (sets.contains (targeted self.now.targets.now)))) }
    {
        fy_kinds::laws::kinds_by_rank();
        if !kind.is_above(milder) {
            return false;
        }
        if floor.is_above(milder) {
            return false;
        }
        if bars_too(rule, milder) {
            return false;
        }
        self.bar(milder).is_none()
    }

    /// The bar of a clog of these targets.
    fn clog_bar(&self, target: &Target) -> Option<Rule>
        requires found { (p : ℕ) → sets.contains (targeted self.now.targets.now) p
            ≡ targets self.now.dead.now.processes (sets.contains self.now.dead.now.left)
            target.now p }
        ensures { result
            ≡ bar (situation_of self.now.dead.now self.now.book.now self.now.actor) Clogging
            (targets self.now.dead.now.processes (sets.contains self.now.dead.now.left)
            target.now) }
    {
        self.permission_bar(KindSet::of_clog())
    }

    /// The verdict on an order of these targets, of which it needs the two kinds alone.
    fn verdict(&self, kind: Kind, floor: Kind) -> Verdict
        ensures { (order : Order) → order.kind ≡ kind → order.floor ≡ floor
            → ((p : ℕ) → sets.contains (targeted self.now.targets.now) p
            ≡ targets self.now.dead.now.processes (sets.contains self.now.dead.now.left)
            order.target p)
            → result
            ≡ verdict (situation_of self.now.dead.now self.now.book.now self.now.actor) order }
    {
        let rule = self.bar(kind);
        let struck = match rule {
            None => Some(kind),
            Some(rule) => self.lesser(kind, floor, rule),
        };
        Verdict { struck, rule }
    }
}

/// Whether a rule that bars one kind of kill bars this one too, whoever asks: without a target
/// there is none for any kind, and where too many would be destroyed, they are for each kind that
/// destroys.
fn bars_too(rule: Rule, kind: Kind) -> bool
    ensures { IsTrue result → (situation : Situation) (other : Kind) (s : ℕ → Bool)
        → bar situation (Striking other) s ≡ Some rule
        → bar situation (Striking kind) s ≢ None }
{
    match rule {
        Rule::NoTarget => true,
        Rule::TooManyDestroyed { .. } => kind.is_destroying(),
        Rule::NoGrant { .. } | Rule::Protected { .. } | Rule::TooFewLeft { .. } => false,
    }
}

/// The verdict on an order of an actor: the hardest kind, from the ordered one down to its floor,
/// that has no bar at the order's targets, and the bar of the ordered kind. It changes nothing; the
/// caller strikes. The map is the one that both books were made of. Doesn't allocate.
pub fn judge(dead: &DeadBook, book: &Book, map: &Map, actor: u32, order: &KillOrder) -> Verdict
    requires map { map.now ≡ dead.now.processes }
    requires book { book.now.processes ≡ dead.now.processes }
    ensures { result ≡ verdict (situation_of dead.now book.now actor) order.now }
{
    let targets = dead.find_targets(map, &order.target());
    judge_targets(dead, book, actor, order, &targets)
}

/// The verdict of [`judge`] on an order whose targets [`DeadBook::find_targets`] found before, for
/// whoever goes on to strike them. Doesn't allocate.
pub fn judge_targets(
    dead: &DeadBook,
    book: &Book,
    actor: u32,
    order: &KillOrder,
    found: &Targets,
) -> Verdict
    requires book { book.now.processes ≡ dead.now.processes }
    requires found { (p : ℕ) → sets.contains (targeted found.now) p
        ≡ targets dead.now.processes (sets.contains dead.now.left) order.now.target p }
    ensures { result ≡ verdict (situation_of dead.now book.now actor) order.now }
{
    fy_locality::laws::processes_have_values();
    let case = Case {
        dead,
        book,
        actor,
        targets: found,
    };
    case.verdict(order.kind(), order.floor())
}

/// The verdict of [`judge`] on an order that names this process alone, by these two kinds. No name
/// is looked up, and no set is made. Doesn't allocate.
pub fn judge_process(
    dead: &DeadBook,
    book: &Book,
    actor: u32,
    process: ProcId,
    kind: Kind,
    floor: Kind,
) -> Verdict
    requires book { book.now.processes ≡ dead.now.processes }
    requires process { process.0 < length dead.now.processes }
    ensures { (order : Order) → order.kind ≡ kind → order.floor ≡ floor
        → NamesProcess dead.now.processes process.0 order
        → result ≡ verdict (situation_of dead.now book.now actor) order }
{
    fy_locality::laws::processes_have_values();
    let case = Case {
        dead,
        book,
        actor,
        targets: &dead.process_targets(process),
    };
    case.verdict(kind, floor)
}

/// Why an actor may not clog a target: the first three rules. The map is the one that both books
/// were made of. Doesn't allocate.
pub fn judge_clog(
    dead: &DeadBook,
    book: &Book,
    map: &Map,
    actor: u32,
    target: &Target,
) -> Option<Rule>
    requires map { map.now ≡ dead.now.processes }
    requires book { book.now.processes ≡ dead.now.processes }
    ensures { result
        ≡ bar (situation_of dead.now book.now actor) Clogging
        (targets dead.now.processes (sets.contains dead.now.left) target.now) }
{
    judge_clog_at(dead, book, actor, target, &dead.targets(map, target))
}

/// What [`judge_clog`] answers of a target whose processes were found before, for whoever goes on
/// to clog them. Doesn't allocate.
pub fn judge_clog_at(
    dead: &DeadBook,
    book: &Book,
    actor: u32,
    target: &Target,
    found: &ProcSet,
) -> Option<Rule>
    requires book { book.now.processes ≡ dead.now.processes }
    requires found { (p : ℕ) → sets.contains found.now p
        ≡ targets dead.now.processes (sets.contains dead.now.left) target.now p }
    ensures { result
        ≡ bar (situation_of dead.now book.now actor) Clogging
        (targets dead.now.processes (sets.contains dead.now.left) target.now) }
{
    fy_locality::laws::processes_have_values();
    let case = Case {
        dead,
        book,
        actor,
        targets: &Targets::of(found),
    };
    case.clog_bar(target)
}
