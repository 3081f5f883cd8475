//! The desk: what was asked of it and what it answers.
#![tactic(auto)]

pub mod answer;
mod answering;
pub mod begun;
mod desk;
pub mod fault;
pub mod finished;
mod fits;
pub mod judged;
mod keeping;
pub mod load_fault;
mod plan;
mod purging;
mod ready;
pub mod status;
pub mod verdict;

pub use answer::Answer;
pub use assess::Ask;
pub use begun::Begun;
pub use desk::Desk;
pub use desk_ticket::Ticket;
pub use fault::EditFault;
pub use finished::Finished;
pub use judged::{Judged, Looked};
pub use load_fault::LoadFault;
pub use object_cache::Offered;
pub use rule_edits::{Content, Edit, EditKey, NewRule};
pub use status::DeskStatus;
pub use verdict::{Origin, Verdict};
