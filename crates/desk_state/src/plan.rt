//! What an edit will change.

ghost use Rattle.std.specs.Prelude.{◌≡◌};
ghost use Rattle.desk_state.specs.Plan.{count_in};

use authority_table::Prepared;

/// What an edit under a new key will change, with all memory taken.
#[derive(Drop)]
pub(crate) struct Plan {
    /// The change of the rules, if any.
    pub rows: Option<Prepared>,
    /// Whether assessments are switched on afterwards.
    pub enabled: bool,
}

impl Plan {
    /// How many rules it touches.
    pub fn count(&self) -> u32
        ensures { result ≡ count_in self.now.rows }
    {
        match &self.rows {
            None => 0,
            Some(rows) => rows.count(),
        }
    }
}
