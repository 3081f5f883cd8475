//! One rule: its values, whether it applies, what changes it, and what is decided by it.
#![tactic(auto)]

mod kind;
mod label;
mod moment;
mod outcome;
mod priority;
mod rank;
mod row_change;
mod rule;
mod rule_id;
mod selector;
mod short_req;

pub use kind::Kind;
pub use label::Label;
pub use moment::Moment;
pub use outcome::Outcome;
pub use priority::Priority;
pub use rank::Rank;
pub use row_change::RowChange;
pub use rule::Rule;
pub use rule_id::RuleId;
pub use selector::{Selector, Which};
pub use short_req::ShortReq;
