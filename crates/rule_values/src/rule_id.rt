//! The number of a rule.

ghost use Rattle.std.specs.Prelude.{◌≡◌, ◌≤◌, ◌↔◌, IsSome, IfSome};
ghost use Rattle.policy_model.specs.declared.limits.TheConstants.{MOST_RECEIPTS};

use policy_model::limits::MOST_RECEIPTS;
use std::marker::Model;

/// The number of the edit that added the rule, from 1 to 100,000.
#[derive(Clone, Copy, Drop, PartialEq, PartialOrd)]
pub struct RuleId {
    number: u32,
}

impl Model for RuleId {
    ghost use Rattle.std.specs.Prelude.{ℕ, ◌≤◌};
    ghost use Rattle.policy_model.specs.declared.limits.TheConstants.{MOST_RECEIPTS};

    ghost Value = { ℕ };

    ghost view = { λ r. r.number };

    ghost invariant = { λ r. (1 ≤ r.number) × (r.number ≤ MOST_RECEIPTS) };

    ghost inverse = { λ n. record { number = n } };
}

impl RuleId {
    pub fn of(number: u32) -> Option<RuleId>
        ensures fits { IsSome result ↔ ((1 ≤ number) × (number ≤ MOST_RECEIPTS)) }
        ensures value { IfSome result (λ id. id ≡ number) }
    {
        if 1 <= number && number <= MOST_RECEIPTS {
            Some(RuleId { number })
        } else {
            None
        }
    }

    /// The number of a caller that knows it to be one of a rule.
    pub fn numbered(number: u32) -> RuleId
        requires least { 1 ≤ number }
        requires greatest { number ≤ MOST_RECEIPTS }
        ensures { result ≡ number }
    {
        RuleId { number }
    }

    pub fn get(self) -> u32
        ensures value { result ≡ self }
        ensures least { 1 ≤ result }
        ensures greatest { result ≤ MOST_RECEIPTS }
    {
        self.number
    }
}
