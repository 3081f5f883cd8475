//! What holds of what the command says.

ghost use Rattle.std.specs.Prelude.{◌≡◌, ◌≢◌, ℕ, List, Option, Some};
ghost use Rattle.policy_model.specs.Rules.{Kind};
ghost use Rattle.policy_model.specs.History.{Event, Opening};
ghost use Rattle.run_status.specs.declared.status.Status.{Status};
ghost use Rattle.run_status.specs.declared.status.Status.TheVariants.{Refused};
ghost use Rattle.file_assessment.specs.Assessing.{SaysByClock};

use assess_command::laws::an_assessment_has_one_line;

/// What is said of files at the time of a clock has one status, where the clock tells its moments; and what is
/// refused is so at any time.
pub fn an_assessment_has_one_status()
    ensures told { (o : Opening) (h : List Event) (moments : List ℕ) (kind : Kind) (signature : List ℕ) (code : Option (List ℕ)) (said other : List ℕ) (first second : Status)
        → SaysByClock o h (Some moments) kind signature code first said → SaysByClock o h (Some moments) kind signature code second other → first ≡ second }
    ensures refused { (o : Opening) (h : List Event) (moments others : Option (List ℕ)) (kind : Kind) (signature : List ℕ) (code : Option (List ℕ)) (said other : List ℕ) (second : Status)
        → SaysByClock o h moments kind signature code Refused said → SaysByClock o h others kind signature code second other → second ≡ Refused }
{
    an_assessment_has_one_line();
}
