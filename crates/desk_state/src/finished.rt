//! How an assessment is finished.

use crate::verdict::Verdict;
use object_cache::Offered;

/// The verdict, and whether its outcome was kept.
#[derive(Drop)]
pub struct Finished {
    pub verdict: Verdict,
    pub offered: Offered,
}
