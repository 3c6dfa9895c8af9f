//! Laws of what `check` finds of what `run` and `guard` write, over the definitions alone.
ghost use Rattle.fy_laws.specs.Confirmed.{RunsAreConfirmed, AnswersAreConfirmed};

/// What `run` writes, and what `guard` writes, is found legal under the same cluster file, with an
/// entry for each line, wherever it is within the limits of an audit: a reply can make a line of
/// nearly 65,536 bytes longer than that.
pub fn what_is_written_is_confirmed()
    ensures runs { RunsAreConfirmed }
    ensures answers { AnswersAreConfirmed }
{
    fy_spelling::laws::a_text_is_a_line();
    fy_cluster::laws::versions();
}
