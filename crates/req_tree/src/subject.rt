//! The code that an assessment is about.

ghost use Rattle.std.specs.Prelude.{◌≡◌};
ghost use Rattle.req_tree.specs.Subject.{subject_of};

use crate::hash::Hash20;
use crate::identifier::Identifier;

/// What is known of code by its signature.
#[derive(Debug, Drop, PartialEq, Eq, Hash)]
pub struct Subject {
    pub cdhash: Hash20,
    pub identifier: Identifier,
    /// 0 for code of no particular platform.
    pub platform: u8,
}

impl Subject {
    /// The same subject, without memory.
    pub fn copied(&self) -> Subject
        ensures { subject_of result ≡ subject_of self.now }
    {
        Subject {
            cdhash: self.cdhash,
            identifier: self.identifier.copied(),
            platform: self.platform,
        }
    }
}
