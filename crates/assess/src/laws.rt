//! Laws over the definitions: functions that do nothing and whose contracts are the laws.

ghost use Rattle.assess.specs.Laws.{SnapshotsJudgeAlike, SnapshotsAreOfKind};

use policy_model::laws::{one_outcome, outcome_is_right};

/// The outcome by the rules of a kind in the order in which they are tried is that by all rules, where their
/// numbers differ; and `judge` may be asked about such rules.
pub fn snapshots_judge_alike()
    ensures alike { SnapshotsJudgeAlike }
    ensures kind { SnapshotsAreOfKind }
{
    one_outcome();
    outcome_is_right();
}
