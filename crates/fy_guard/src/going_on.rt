//! The cluster from which a guard goes on.
ghost use Rattle.std.specs.Prelude.{◌≡◌, ℕ, List, None, IfOk, IfErr};
ghost use Rattle.fy_check.specs.Checked.{IsReplayed};
ghost use Rattle.fy_cluster.specs.Setup.{Setup};
ghost use Rattle.fy_guard.specs.AfterTexts.{IsJournalOf, IsOfFirstVersion, first_version_stop};

use fy_audit::{AuditFault, AuditLineFault, Version};
use fy_check::ReplayedAudit;
use fy_cluster::ClusterState;
use fy_streams::Stop;

/// The stop for an audit of the first version, which no guard writes.
fn first_version_stop() -> Stop
    ensures { result ≡ first_version_stop }
{
    Stop::Audit {
        fault: AuditFault::Line {
            number: 1,
            fault: AuditLineFault::Header,
        },
    }
}

/// The cluster that has made the entries of a legal audit. The audit isn't asked for again.
///
/// # Errors
///
/// `Audit`, with the fault of a header, where the audit is of the first version.
pub(crate) fn cluster_after(audit: ReplayedAudit) -> Result<ClusterState, Stop>
    requires { audit.replayer.first_bad ≡ None }
    ensures journal { IfOk result (λ cluster. (setup : Setup) (bytes : List ℕ)
        → IsReplayed setup bytes audit → IsJournalOf setup bytes cluster) }
    ensures of_first { IfErr result (λ stop. stop ≡ first_version_stop) }
    ensures first { IfErr result (λ stop. (setup : Setup) (bytes : List ℕ)
        → IsReplayed setup bytes audit → IsOfFirstVersion setup bytes) }
{
    let ReplayedAudit { count: _, replayer } = audit;
    match replayer.version() {
        Version::First => Err(first_version_stop()),
        Version::Second => Ok(replayer.into_cluster()),
    }
}
