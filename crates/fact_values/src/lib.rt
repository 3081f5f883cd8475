//! What is known of code beside its subject, kept by key, and how two texts stand to one another by the
//! numbers in them.
#![tactic(auto)]

mod certificate;
mod facts;
mod flag;
mod growth;
mod limits;
mod names;
mod numeric;
mod place;
mod texts;
mod value;
mod values;

pub use certificate::Certificate;
pub use facts::Facts;
pub use flag::FactFlag;
pub use limits::MOST_CERTIFICATES;
pub use numeric::numeric_cmp;
pub use place::Place;
pub use texts::Texts;
pub use value::Value;
