//! How what is told is spelled. The engines are generic in it, so what they write comes from what
//! is told and from nothing else. How JSON is spelled is only tested.
ghost use Rattle.std.specs.Prelude.{IfOk, string_bytes};
ghost use Rattle.fy_bears.specs.Spelled.{IsSpelled};

use crate::forgetting::push_forgetting;
use crate::text::told_text;
use crate::told::Told;
use fy_cluster::Config;
use fy_policy::Policy;
use fy_tolerance::{Form, write_findings};
use std::alloc::{AllocError, Global};

/// A way to spell what is told of a cluster. `spells` says which bytes stand for it.
pub trait Spelling {
    ghost use Rattle.std.specs.Prelude.{ℕ, List};
    ghost use Rattle.fy_bears.specs.declared.told.Told.{Told};
    ghost use Rattle.fy_cluster.specs.Setup.{Setup};
    ghost use Rattle.fy_policy.specs.Tree.{Tree};

    ghost spells: { Self → Setup → List Tree → Told → List ℕ → Type 0 };

    /// A text that stands for what is told of a configuration's cluster, by policies of elections.
    ///
    /// # Errors
    ///
    /// An allocation failed.
    fn spell(
        &self,
        alloc: Global,
        config: &Config,
        elections: &[Policy],
        told: &Told,
    ) -> Result<String, AllocError>
        ensures { IfOk result (λ text. spells self.now config.now elections.now told.now
            (string_bytes text)) };
}

impl Spelling for Form {
    ghost spells = { λ form setup elections told text. IsSpelled form setup elections told text };

    fn spell(
        &self,
        alloc: Global,
        config: &Config,
        elections: &[Policy],
        told: &Told,
    ) -> Result<String, AllocError> {
        match self {
            Form::Text => {
                let text = told_text(alloc, config, elections, told)?;
                Ok(text)
            }
            Form::Json => {
                let text = told_json(alloc, config, elections, told)?;
                Ok(text)
            }
        }
    }
}

/// What is told of a configuration's cluster, as JSON.
fn told_json(
    alloc: Global,
    config: &Config,
    elections: &[Policy],
    told: &Told,
) -> Result<String, AllocError> {
    let (map, policies) = (config.map(), config.policies());
    let before = told.before.as_ref();
    let mut text = write_findings(alloc, map, policies, before, &told.findings, Form::Json)?;
    if !elections.is_empty() {
        push_forgetting(alloc, &mut text, config, elections, &told.forgetting)?;
    }
    Ok(text)
}
