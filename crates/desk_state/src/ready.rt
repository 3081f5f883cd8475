//! An edit under a new key, ready to be made.

use crate::plan::Plan;
use edit_receipts::Receipt;
use policy_keeper::Change;

/// All that an edit under a new key needs, with all memory taken but the receipt's place.
#[derive(Drop)]
pub(crate) struct Ready {
    pub plan: Plan,
    pub receipt: Receipt,
    /// What the keeper is to store.
    pub change: Change,
}
