//! Stored rules.

ghost use Rattle.std.specs.Prelude.{◌≡◌, ◌-◌, [], ◌∷◌, ◌++◌, take, length, IfOk, OnOk, OnErr};

use line_text::Bytes;
use std::alloc::{AllocError, Global};
use std::marker::Model;

/// A stored rule.
#[derive(Drop)]
pub struct RawRule {
    pub id: i64,
    /// 1 to be executed, 2 to be installed, 3 to be opened.
    pub kind: i64,
    /// 1 where code is accepted, 0 where it is denied.
    pub allow: i64,
    /// How often it was disabled since it was last enabled.
    pub disabled: i64,
    /// In seconds; none where the rule never ends.
    pub expires: Option<i64>,
    /// In millionths.
    pub priority: i64,
    /// 2 for a default rule, 4 for one whose outcomes aren't kept, or their sum.
    pub flags: i64,
    pub label: Bytes,
    pub requirement: Bytes,
}

impl Clone for RawRule {
    ghost is_clone = { λ a b. b ≡ a };

    fn clone(&self) -> Result<RawRule, AllocError> {
        let label = self.label.clone()?;
        let requirement = self.requirement.clone()?;
        Ok(RawRule {
            id: self.id,
            kind: self.kind,
            allow: self.allow,
            disabled: self.disabled,
            expires: self.expires,
            priority: self.priority,
            flags: self.flags,
            label,
            requirement,
        })
    }
}

/// Stored rules in the order of their numbers.
#[derive(Drop)]
pub struct RawRules {
    rows: Vec<RawRule>,
}

impl Model for RawRules {
    ghost use Rattle.std.specs.Prelude.{List};
    ghost use Rattle.raw_tables.specs.declared.rule.RawRule.{RawRule};

    ghost Value = { List RawRule };

    ghost view = { λ r. r.rows.items };
}

impl RawRules {
    /// No rule.
    pub fn new(alloc: Global) -> RawRules
        ensures { result ≡ [] }
    {
        RawRules {
            rows: Vec::new(alloc),
        }
    }

    /// The same rules, without memory.
    pub fn from_vec(rows: Vec<RawRule>) -> RawRules
        ensures { result ≡ rows.items }
    {
        RawRules { rows }
    }

    /// The same rules, without memory.
    pub fn into_vec(self) -> Vec<RawRule>
        ensures { result.items ≡ self }
    {
        self.rows
    }

    pub fn len(&self) -> usize
        ensures { result ≡ length self.now }
    {
        self.rows.len()
    }

    pub fn as_slice(&self) -> &[RawRule]
        ensures { result.now ≡ self.now }
    {
        self.rows.as_slice()
    }

    /// Adds a rule behind all others; where there is no memory, the list is as before.
    pub fn push(&mut self, item: RawRule) -> Result<(), AllocError>
        ensures ok { OnOk result (self.new ≡ self.old ++ item ∷ []) }
        ensures err { OnErr result (self.new ≡ self.old) }
    {
        self.rows.push(item)?;
        Ok(())
    }

    /// Takes the last rule off.
    pub fn pop(&mut self)
        ensures { self.new ≡ take (length self.old - 1) self.old }
    {
        let _ = self.rows.pop();
    }

    /// Copies of the rules.
    pub fn copied(&self) -> Result<RawRules, AllocError>
        ensures { IfOk result (λ copy. copy ≡ self.now) }
    {
        let rows = self.rows.clone()?;
        Ok(RawRules { rows })
    }
}
