//! A law of journals, over the definitions alone.
ghost use Rattle.fy_show.specs.Shows.{JournalsHaveFindings};

/// Each journal is legal or has a first bad entry, also where nobody checks it.
pub(crate) fn journals_have_findings()
    ensures { JournalsHaveFindings }
{
    fy_acts::laws::equal_is_the_same();
    fy_cluster::laws::versions();
}
