//! Laws over the definitions alone.

ghost use Rattle.std.specs.Prelude.{◌≡◌, ℕ, List, Option};
ghost use Rattle.policy_model.specs.History.{Event, Opening};
ghost use Rattle.policy_model.specs.Rules.{Kind};
ghost use Rattle.assess_command.specs.declared.line.Assessed.{Assessed};
ghost use Rattle.assess_command.specs.Assessments.{Assesses};

use code_directory::laws::{bytes_have_one_view, code_has_one_first_fault};

/// Files are assessed in one way, by one line.
pub fn an_assessment_has_one_line()
    ensures { (o : Opening) (h : List Event) (kind : Kind) (signature : List ℕ) (code : Option (List ℕ)) (seconds : ℕ) (how other : Assessed) (line another : List ℕ)
        → Assesses o h kind signature code seconds how line → Assesses o h kind signature code seconds other another → (how ≡ other) × (line ≡ another) }
{
    bytes_have_one_view();
    code_has_one_first_fault();
}
