//! Who is destroyed, who is left, and whether more may be destroyed.
ghost use Rattle.std.specs.Prelude.{◌≡◌, ◌↔◌, ◌<◌, ℕ, List, true, length, IsTrue, IfOk, IfErr, IfSome, Some, None, nat_eq};
ghost use Rattle.std.specs.FinSet as sets;
ghost use Rattle.fy_locality.specs.declared.TheConstants.{MOST_PROCESSES};
ghost use Rattle.fy_locality.specs.declared.key.Key.TheVariants.{Process};
ghost use Rattle.fy_locality.specs.Locality.{value_of};
ghost use Rattle.fy_decide.specs.Safety.{AreShort, AreSatisfied, AreMet, everyone, first_satisfied, first_short, first_unmet, with_set, without_set};
ghost use Rattle.fy_decide.specs.DeadBook.{IsFresh, MayLose, may_lose, struck, MayHeal, healed};
ghost use Rattle.fy_decide.specs.Targets.{targeted, lone};
ghost use Rattle.fy_decide.specs.Verdicts.{targets, loss_of};

use crate::tallies::{
    copied_tallies, drop_from_each, first_satisfied_with, first_short_without, put_in_each,
    tallies_of,
};
use crate::targets::Targets;
use fy_kinds::{Kind, Target};
use fy_locality::{Key, Map, Name, ProcId, ProcSet, try_copy_each};
use fy_policy::{Policy, Tally, laws, satisfied};
use std::alloc::{AllocError, AllocFailed, Global};
use std::marker::Model;
use std::sync::Arc;

/// Why there is no book.
#[derive(Clone, Copy, PartialEq, Eq, Debug)]
pub enum MakeFault {
    /// The policy at this place is the first that all processes together don't satisfy.
    Unmet { index: usize },
    /// An allocation for the book failed.
    NoMemory,
}

impl From<AllocError> for MakeFault {
    ghost use Rattle.fy_decide.specs.declared.dead_book.MakeFault.TheVariants.{NoMemory};
    ghost use Rattle.std.specs.Prelude.{◌≡◌};

    ghost from_gives = { λ _ e. e ≡ NoMemory };

    fn from(_: AllocError) -> MakeFault {
        MakeFault::NoMemory
    }
}

impl<T: Drop> From<AllocFailed<T>> for MakeFault {
    ghost use Rattle.fy_decide.specs.declared.dead_book.MakeFault.TheVariants.{NoMemory};
    ghost use Rattle.std.specs.Prelude.{◌≡◌};

    ghost from_gives = { λ _ e. e ≡ NoMemory };

    fn from(failed: AllocFailed<T>) -> MakeFault {
        MakeFault::from(AllocError::from(failed))
    }
}

/// How processes are lost.
#[derive(Clone, Copy, PartialEq, Eq, Debug)]
pub enum Loss {
    /// They come back without their data.
    Emptied,
    /// They don't come back.
    Gone,
}

impl Loss {
    /// The loss that a kind of kill brings: none where it is no destroying kind.
    pub fn of(kind: Kind) -> Option<Loss>
        ensures { result ≡ loss_of kind }
    {
        match kind {
            Kind::RebootProcess | Kind::Reboot => None,
            Kind::RebootAndDelete => Some(Loss::Emptied),
            Kind::KillInstantly => Some(Loss::Gone),
        }
    }
}

/// The destroyed, and those left. The destroyed are short of every policy, and those left satisfy
/// each. Beside each of the two sets stand its tallies, one by each policy; they share the map.
pub struct DeadBook {
    map: Arc<Map>,
    policies: Vec<Policy>,
    destroyed: ProcSet,
    left: ProcSet,
    destroyed_tallies: Vec<Tally>,
    left_tallies: Vec<Tally>,
}

impl Model for DeadBook {
    ghost use Rattle.std.specs.Coded.{codes, coded_ℕ};
    ghost use Rattle.std.specs.FinSet as sets;
    ghost use Rattle.std.specs.Ordering.{nat_cmp};
    ghost use Rattle.fy_locality.specs.contracts.locality.Locality as e;
    ghost use Rattle.fy_policy.specs.TreeCode.{tree_code};
    ghost use Rattle.fy_decide.specs.DeadBook.{Losses};
    ghost use Rattle.fy_decide.specs.Tallies.{IsTalliedBook};

    ghost Value = { Losses };

    ghost coded = { Prim.hlevel
        (codes, tree_code, e.the_row.coded, sets.code {R = nat_cmp} coded_ℕ) };

    ghost view = { λ b. record {
      processes = b.map.value;
      policies = b.policies.items;
      destroyed = b.destroyed;
      left = b.left;
    } };

    ghost invariant = { λ b. IsTalliedBook (record {
      processes = b.map.value;
      policies = b.policies.items;
      destroyed = b.destroyed;
      left = b.left;
    }) b.destroyed_tallies.items b.left_tallies.items };
}

// Written out and not derived: see `Drop` in docs/DECISIONS.md.
impl Drop for DeadBook {
    fn drop(self) {
        let DeadBook {
            map: _,
            policies: _,
            destroyed: _,
            left: _,
            destroyed_tallies: _,
            left_tallies: _,
        } = self;
    }
}

/// The place of the first policy that the set is short of.
fn first_short(policies: &[Policy], map: &Map, set: &ProcSet) -> Option<usize>
    ensures place { result ≡ first_short map.now policies.now (sets.contains set.now) }
    ensures met { result ≡ None → AreMet map.now policies.now (sets.contains set.now) }
{
    policies
        .iter()
        .position(|policy| !satisfied(policy, map, set))
}

/// The place of the first policy that all processes together don't satisfy. Where there is none,
/// each is within the limits of a policy and met. Doesn't allocate.
pub fn first_unmet(policies: &[Policy], map: &Map) -> Option<usize>
    ensures place { result ≡ first_unmet map.now policies.now }
    ensures met { result ≡ None → AreMet map.now policies.now (everyone map.now) }
{
    first_short(policies, map, &map.everyone())
}

impl DeadBook {
    ghost use Rattle.fy_decide.specs.declared.dead_book.MakeFault.TheVariants.{Unmet, NoMemory};

    /// Nobody is destroyed and everyone is left.
    ///
    /// # Errors
    ///
    /// In this order: `Unmet` with the place of the first policy that all processes together don't
    /// satisfy; `NoMemory`.
    pub fn make(alloc: Global, map: &Map, policies: &[Policy]) -> Result<DeadBook, MakeFault>
        ensures made { IfOk result (IsFresh map.now policies.now) }
        ensures unmet { (i : ℕ)
            → first_unmet map.now policies.now ≡ Some i → result ≡ Err (Unmet i) }
        ensures memory { first_unmet map.now policies.now ≡ None
            → IfErr result (λ fault. fault ≡ NoMemory) }
    {
        laws::empty_satisfies_none();
        if let Some(index) = first_unmet(policies, map) {
            return Err(MakeFault::Unmet { index });
        }
        let left = map.everyone();
        let map = Arc::new(alloc, map.try_copy(alloc)?)?;
        let destroyed_tallies = tallies_of(alloc, &map, policies, &ProcSet::empty())?;
        let left_tallies = tallies_of(alloc, &map, policies, &left)?;
        let policies = try_copy_each(alloc, policies)?;
        Ok(DeadBook {
            map,
            policies,
            destroyed: ProcSet::empty(),
            left,
            destroyed_tallies,
            left_tallies,
        })
    }

    /// An equal book, in memory of its own: its tallies share a map with it, and nothing with
    /// this book, to which nothing is written.
    ///
    /// # Errors
    ///
    /// An allocation failed.
    pub fn try_copy(&self, alloc: Global) -> Result<DeadBook, AllocError>
        ensures { IfOk result (λ copy. copy ≡ self.now) }
    {
        let map = Arc::new(alloc, self.map.try_copy(alloc)?)?;
        let destroyed_tallies = copied_tallies(alloc, &map, &self.destroyed_tallies)?;
        let left_tallies = copied_tallies(alloc, &map, &self.left_tallies)?;
        Ok(DeadBook {
            map,
            policies: try_copy_each(alloc, &self.policies)?,
            destroyed: self.destroyed,
            left: self.left,
            destroyed_tallies,
            left_tallies,
        })
    }

    /// Whether the set may be lost: the destroyed with it are short of every policy and, where it
    /// is gone, those left without it satisfy each. Doesn't allocate.
    pub fn may_destroy(&self, set: &ProcSet, loss: Loss) -> bool
        ensures relation { IsTrue result ↔ MayLose self.now (sets.contains set.now) loss }
        ensures test { result ≡ may_lose self.now (sets.contains set.now) loss }
    {
        laws::test_is_satisfaction();
        let targets = Targets::of(set);
        if self.too_many_destroyed(&targets).is_some() {
            return false;
        }
        match loss {
            Loss::Emptied => true,
            Loss::Gone => self.too_few_left(&targets).is_none(),
        }
    }

    /// The place of the first policy that the destroyed with the targets would satisfy.
    pub(crate) fn too_many_destroyed(&self, targets: &Targets) -> Option<usize>
        ensures { result
            ≡ first_satisfied self.now.processes self.now.policies
            (with_set (sets.contains self.now.destroyed) (sets.contains (targeted targets.now))) }
    {
        first_satisfied_with(&self.destroyed_tallies, targets)
    }

    /// The place of the first policy that those left without the targets would be short of.
    pub(crate) fn too_few_left(&self, targets: &Targets) -> Option<usize>
        ensures { result
            ≡ first_short self.now.processes self.now.policies
            (without_set (sets.contains self.now.left) (sets.contains (targeted targets.now))) }
    {
        first_short_without(&self.left_tallies, targets)
    }

    /// The processes left that have the target's value of its key; the map is the one that the book
    /// was made of.
    pub fn targets(&self, map: &Map, target: &Target) -> ProcSet
        requires { map.now ≡ self.now.processes }
        ensures { (p : ℕ) → sets.contains result p
            ≡ targets self.now.processes (sets.contains self.now.left) target.now p }
    {
        map.members(target.key, &target.value)
            .intersection(&self.left)
    }

    /// The targets of an order, found once for whoever judges it and then strikes them; the map is
    /// the one that the book was made of. One that is named alone is known to be alone.
    pub fn find_targets(&self, map: &Map, target: &Target) -> Targets
        requires { map.now ≡ self.now.processes }
        ensures { (p : ℕ) → sets.contains (targeted result) p
            ≡ targets self.now.processes (sets.contains self.now.left) target.now p }
    {
        if target.key == Key::Process {
            if let Some(p) = self.named(map, &target.value) {
                return Targets::one(p);
            }
        }
        Targets::of(&self.targets(map, target))
    }

    /// The targets of an order that names this process alone: the process where it is left, and
    /// else nobody. The name isn't looked up.
    pub fn process_targets(&self, p: ProcId) -> Targets
        requires { p.0 < length self.now.processes }
        ensures members { (q : ℕ) → sets.contains (targeted result) q ≡ true
            → q < length self.now.processes }
        ensures those { (name : List ℕ) → value_of self.now.processes Process p.0 ≡ Some name
            → (q : ℕ) → sets.contains (targeted result) q
            ≡ targets self.now.processes (sets.contains self.now.left)
            (record { key = Process; value = name }) q }
        ensures lone { sets.contains self.now.left p.0 ≡ true → lone result ≡ Some p }
    {
        fy_locality::laws::value_is_had();
        self.map.names_differ();
        let left = &self.left;
        left.invariant();
        if left.contains(p) {
            Targets::one(p)
        } else {
            Targets::nobody()
        }
    }

    /// The process left that has a name, which no other has; the map is the one that the book was
    /// made of. Makes no set.
    pub(crate) fn named(&self, map: &Map, name: &Name) -> Option<ProcId>
        requires { map.now ≡ self.now.processes }
        ensures small { IfSome result (λ p. p.0 < MOST_PROCESSES) }
        ensures alone { IfSome result (λ p. (q : ℕ) → nat_eq q p.0
            ≡ targets self.now.processes (sets.contains self.now.left)
            (record { key = Process; value = name.now }) q) }
    {
        fy_locality::laws::value_is_had();
        map.names_differ();
        let left = &self.left;
        left.invariant();
        let p = map.find(name)?;
        if left.contains(p) { Some(p) } else { None }
    }

    /// Records the loss of a set. Doesn't allocate.
    pub fn strike(&mut self, set: &ProcSet, loss: Loss)
        requires { MayLose self.old (sets.contains set.now) loss }
        ensures { self.new ≡ struck self.old set.now loss }
    {
        self.destroyed = self.destroyed.union(set);
        put_in_each(&mut self.destroyed_tallies, set);
        match loss {
            Loss::Emptied => {}
            Loss::Gone => {
                self.left = self.left.difference(set);
                drop_from_each(&mut self.left_tallies, set);
            }
        }
    }

    /// Takes down that a destroyed process has its data again: it isn't destroyed any more. Doesn't
    /// allocate.
    ///
    /// Asks for a process that is destroyed and not gone.
    pub fn heal(&mut self, p: ProcId)
        requires { MayHeal self.old p.0 }
        ensures { self.new ≡ healed p.0 self.old }
    {
        laws::more_satisfies();
        let destroyed = &mut self.destroyed;
        destroyed.invariant();
        destroyed.drop_one(p);
        let mut back = ProcSet::empty();
        back.put(p);
        drop_from_each(&mut self.destroyed_tallies, &back);
    }

    /// The destroyed: they are short of every policy.
    pub fn destroyed(&self) -> ProcSet
        ensures destroyed { result ≡ self.now.destroyed }
        ensures short { AreShort self.now.processes self.now.policies
            (sets.contains self.now.destroyed) }
    {
        self.destroyed
    }

    /// The processes left: they satisfy every policy.
    pub fn left(&self) -> ProcSet
        ensures left { result ≡ self.now.left }
        ensures satisfied { AreSatisfied self.now.processes self.now.policies
            (sets.contains self.now.left) }
    {
        self.left
    }
}
