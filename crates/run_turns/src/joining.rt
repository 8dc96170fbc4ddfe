ghost use Rattle.std.specs.Prelude.{◌≡◌};
ghost use Rattle.run_turns.specs.Inner.Joining.{with_waiting, with_limited, joined};

use program_model::{RunOutcome, Stand, Verdict};

// The verdict where one more run waits at a line.
fn with_waiting(line: u8, verdict: Verdict) -> Verdict
    ensures { result ≡ with_waiting line verdict }
{
    match verdict {
        Verdict::Refused { .. } | Verdict::AtLimit { .. } => verdict,
        Verdict::Waiting { line: other } => Verdict::Waiting {
            line: line.max(other),
        },
        Verdict::Solved => Verdict::Waiting { line },
    }
}

// The verdict where one more run, on a greater instance, is at its limit.
fn with_limited(t: u8, verdict: Verdict) -> Verdict
    ensures { result ≡ with_limited t verdict }
{
    match verdict {
        Verdict::Refused { .. } | Verdict::AtLimit { .. } => verdict,
        Verdict::Waiting { .. } | Verdict::Solved => Verdict::AtLimit { t },
    }
}

/// The verdict over the runs so far, where that on one more instance, a greater one, is looked at, which does not refute the
/// program. There is none while one of the runs goes on.
pub(crate) fn joined(so_far: Option<Verdict>, run: &RunOutcome) -> Option<Verdict>
    ensures { result ≡ joined run.now.instance run.now.standing so_far }
{
    let verdict = so_far?;
    match run.standing {
        Stand::Ended | Stand::Unmet | Stand::Repeats { .. } => Some(verdict),
        Stand::Waits { line } => Some(with_waiting(line, verdict)),
        Stand::AtLimit => Some(with_limited(run.instance, verdict)),
        Stand::QuotaUsed => None,
    }
}
