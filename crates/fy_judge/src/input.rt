//! What the lines so far say.
ghost use Rattle.std.specs.Prelude.{◌≡◌, Some, OnOk, IfErr};
ghost use Rattle.fy_judge.specs.JudgeLines.{policy, process, ask, parse_line, empty_input, Step, IsInput};
ghost use Rattle.fy_judge.specs.JudgeViews.{IfFault};

use crate::line::{Ask, Keyword, asked_id, first_word, keyword_in, policy_text, process_of};
use crate::stop::JudgeFault;
use fy_decide::Loss;
use fy_locality::{Locality, Map, MapFault, Name};
use fy_policy::{MOST_POLICIES, Policy, PolicyFault, read_policy};
use std::alloc::{AllocFailed, Global};
use std::marker::Model;

/// Why a line is not taken.
#[derive(Clone, Copy, PartialEq, Eq, Debug)]
pub(crate) enum TakeFault {
    Fault(JudgeFault),
    NoMemory,
}

impl<T: Drop> From<AllocFailed<T>> for TakeFault {
    ghost use Rattle.fy_judge.specs.declared.input.TakeFault.TheVariants.{NoMemory};
    ghost use Rattle.std.specs.Prelude.{◌≡◌};

    ghost from_gives = { λ _ e. e ≡ NoMemory };

    fn from(_: AllocFailed<T>) -> TakeFault {
        TakeFault::NoMemory
    }
}

impl From<JudgeFault> for TakeFault {
    ghost use Rattle.fy_judge.specs.declared.input.TakeFault.TheVariants.{Fault};
    ghost use Rattle.std.specs.Prelude.{◌≡◌};

    ghost from_gives = { λ fault taken. taken ≡ Fault fault };

    fn from(fault: JudgeFault) -> TakeFault {
        TakeFault::Fault(fault)
    }
}

impl From<PolicyFault> for TakeFault {
    ghost use Rattle.fy_judge.specs.JudgeViews.{policy_fault_of};
    ghost use Rattle.std.specs.Prelude.{◌≡◌};

    ghost from_gives = { λ fault taken. taken ≡ policy_fault_of fault };

    fn from(fault: PolicyFault) -> TakeFault {
        match fault {
            PolicyFault::NoMemory => TakeFault::NoMemory,
            PolicyFault::TooLong
            | PolicyFault::Syntax
            | PolicyFault::Count
            | PolicyFault::Depth
            | PolicyFault::Nodes => TakeFault::Fault(JudgeFault::Policy),
        }
    }
}

impl From<MapFault> for TakeFault {
    ghost use Rattle.fy_judge.specs.JudgeViews.{process_fault_of};
    ghost use Rattle.std.specs.Prelude.{◌≡◌};

    ghost from_gives = { λ fault taken. taken ≡ process_fault_of fault };

    fn from(fault: MapFault) -> TakeFault {
        match fault {
            // The reader of a line refuses it first, by the same fault.
            MapFault::Name => TakeFault::Fault(JudgeFault::Syntax),
            MapFault::Twice => TakeFault::Fault(JudgeFault::Twice),
            MapFault::TooMany => TakeFault::Fault(JudgeFault::TooMany),
            MapFault::NoMemory => TakeFault::NoMemory,
        }
    }
}

/// The policies, the processes and the asks of the lines so far.
pub(crate) struct Input {
    policies: Vec<Policy>,
    map: Map,
    asks: Vec<Ask>,
}

impl Model for Input {
    ghost use Rattle.std.specs.Coded.{codes, coded_ℕ};
    ghost use Rattle.fy_locality.specs.contracts.locality.Locality as l;
    ghost use Rattle.fy_policy.specs.TreeCode.{tree_code};
    ghost use Rattle.fy_judge.specs.contracts.line.Ask as a;
    ghost use Rattle.fy_judge.specs.JudgeLines.{Input, IsInput};

    ghost Value = { Input };

    ghost coded = { Prim.hlevel (codes, tree_code, l.the_row.coded, a.the_row.coded) };

    ghost view = { λ i.
        record { policies = i.policies.items; processes = i.map; asks = i.asks.items } };

    ghost invariant = { λ i. IsInput
        (record { policies = i.policies.items; processes = i.map; asks = i.asks.items }) };
}

// Written out and not derived: see `Drop` in docs/DECISIONS.md.
impl Drop for Input {
    fn drop(self) {
        let Input {
            policies: _,
            map: _,
            asks: _,
        } = self;
    }
}

impl Input {
    /// Nothing said.
    pub(crate) fn new(alloc: Global) -> Self
        ensures { result ≡ empty_input }
    {
        Input {
            policies: Vec::new(alloc),
            map: Map::make(alloc),
            asks: Vec::new(alloc),
        }
    }

    /// The asks, each of a process that is there.
    pub(crate) fn asks(&self) -> &[Ask]
        ensures asks { result.now ≡ self.now.asks }
        ensures input { IsInput self.now }
    {
        &self.asks
    }

    /// The policies, of which there are at most eight.
    pub(crate) fn policies(&self) -> &[Policy]
        ensures policies { result.now ≡ self.now.policies }
        ensures input { IsInput self.now }
    {
        &self.policies
    }

    /// The processes.
    pub(crate) fn map(&self) -> &Map
        ensures { result.now ≡ self.now.processes }
    {
        &self.map
    }

    /// Takes the next line.
    pub(crate) fn take_line(&mut self, alloc: Global, line: &[u8]) -> Result<(), TakeFault>
        ensures taken { OnOk result (Step self.old (parse_line line.now) (Ok self.new)) }
        ensures refused { IfErr result
            (λ e. IfFault e (λ fault. Step self.old (parse_line line.now) (Err fault))) }
    {
        let (word, rest) = first_word(line);
        let rest = rest.ok_or(JudgeFault::Syntax)?;
        match keyword_in(word).ok_or(JudgeFault::Syntax)? {
            Keyword::Policy => {
                let text = policy_text(rest).ok_or(JudgeFault::Syntax)?;
                self.take_policy(alloc, text)
            }
            Keyword::Process => {
                let locality = process_of(rest).ok_or(JudgeFault::Syntax)?;
                self.take_process(locality)
            }
            Keyword::Ask(loss) => {
                let id = asked_id(rest).ok_or(JudgeFault::Syntax)?;
                self.take_ask(loss, id)
            }
        }
    }

    /// Takes a policy, which has to come before all processes. Its text is read before it is
    /// counted.
    fn take_policy(&mut self, alloc: Global, text: &str) -> Result<(), TakeFault>
        ensures taken { OnOk result (Step self.old (Some (policy text.now)) (Ok self.new)) }
        ensures refused { IfErr result
            (λ e. IfFault e (λ fault. Step self.old (Some (policy text.now)) (Err fault))) }
    {
        if !self.map.is_empty() {
            return Err(TakeFault::Fault(JudgeFault::Syntax));
        }
        let policy = read_policy(alloc, text)?;
        if self.policies.len() >= MOST_POLICIES {
            return Err(TakeFault::Fault(JudgeFault::TooMany));
        }
        self.policies.push(policy)?;
        Ok(())
    }

    /// Takes a process, which has to come behind the policies and before all asks.
    fn take_process(&mut self, locality: Locality) -> Result<(), TakeFault>
        ensures taken { OnOk result (Step self.old (Some (process locality)) (Ok self.new)) }
        ensures refused { IfErr result
            (λ e. IfFault e (λ fault. Step self.old (Some (process locality)) (Err fault))) }
    {
        if self.policies.is_empty() {
            return Err(TakeFault::Fault(JudgeFault::Syntax));
        }
        if !self.asks.is_empty() {
            return Err(TakeFault::Fault(JudgeFault::Syntax));
        }
        self.map.push(locality)?;
        Ok(())
    }

    /// Takes an ask, which has to be about a process that is there.
    fn take_ask(&mut self, loss: Loss, id: Name) -> Result<(), TakeFault>
        ensures taken { OnOk result (Step self.old (Some (ask loss id)) (Ok self.new)) }
        ensures refused { IfErr result
            (λ e. IfFault e (λ fault. Step self.old (Some (ask loss id)) (Err fault))) }
    {
        if self.map.is_empty() {
            return Err(TakeFault::Fault(JudgeFault::Syntax));
        }
        let process = self.map.find(&id).ok_or(JudgeFault::Unknown)?;
        self.asks.push(Ask { loss, process })?;
        Ok(())
    }
}
