//! An assessment that is asked for.

ghost use Rattle.std.specs.Prelude.{◌≡◌, option_map};
ghost use Rattle.req_tree.specs.Subject.{subject_of};
ghost use Rattle.assess.specs.Ask.{ask_of};

use req_tree::Subject;
use rule_values::Kind;

/// Whether this code may be executed, installed or opened.
#[derive(Drop)]
pub struct Ask {
    pub kind: Kind,
    /// `None` for code without a usable signature.
    pub subject: Option<Subject>,
    /// Whether the outcome may be kept.
    pub keep: bool,
}

impl Ask {
    /// The same ask, without memory.
    pub fn copied(&self) -> Ask
        ensures { ask_of result ≡ ask_of self.now }
    {
        Ask {
            kind: self.kind,
            subject: copied(&self.subject),
            keep: self.keep,
        }
    }
}

fn copied(subject: &Option<Subject>) -> Option<Subject>
    ensures { option_map subject_of result ≡ option_map subject_of subject.now }
{
    match subject {
        None => None,
        Some(subject) => Some(subject.copied()),
    }
}
