//! A requirement that is short enough to stand in its rule.

ghost use Rattle.std.specs.Prelude.{◌≡◌};
ghost use Rattle.req_tree.specs.Facts.{Known};
ghost use Rattle.req_tree.specs.Meaning.{means};
ghost use Rattle.req_tree.specs.Subject.{subject_of};
ghost use Rattle.req_tree.specs.Subject as plain;
ghost use Rattle.fact_values.specs.Knowledge.{known_in};
ghost use Rattle.rule_values.specs.ShortReq.{short_means};

use fact_values::Facts;
use req_eval::eval;
use req_tree::{Hash20, Req, SharedReq, Subject};

/// What a rule's requirement asks, held in place where it is short: a search of many rules needn't follow
/// the pointer to each tree.
#[derive(Clone, Copy, Drop)]
pub enum ShortReq {
    Always,
    Never,
    /// The hash of the code.
    CdHash(Hash20),
    /// It isn't short: its tree has to be asked.
    Long,
}

impl ShortReq {
    /// What the tree asks.
    pub fn of(tree: &SharedReq) -> ShortReq
        ensures { (subject : plain.Subject) (known : Known) → short_means result tree.now subject known ≡ means tree.now subject known }
    {
        match tree.req() {
            Req::Always => ShortReq::Always,
            Req::Never => ShortReq::Never,
            Req::CdHash { hash } => ShortReq::CdHash(*hash),
            _ => ShortReq::Long,
        }
    }

    /// Whether the requirement, whose tree this is, holds of the subject, of whose hash these facts are known.
    pub fn holds(&self, tree: &SharedReq, subject: &Subject, facts: Option<&Facts>) -> bool
        ensures { result ≡ short_means self.now tree.now (subject_of subject.now) (known_in facts.entry) }
    {
        match self {
            ShortReq::Always => true,
            ShortReq::Never => false,
            ShortReq::CdHash(hash) => is_hash(&subject.cdhash, hash),
            ShortReq::Long => eval(tree.req(), subject, facts),
        }
    }
}

ghost use Rattle.std.specs.Prelude.{bytes_eq};

/// Whether two digests are one. Most differ in their first byte or in their last, which are looked at in place.
fn is_hash(one: &Hash20, other: &Hash20) -> bool
    ensures { result ≡ bytes_eq one.now.bytes other.now.bytes }
{
    one.bytes[0] == other.bytes[0] && one.bytes[19] == other.bytes[19] && one == other
}
