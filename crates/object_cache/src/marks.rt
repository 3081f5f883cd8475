//! How many edits have touched each kind.

ghost use Rattle.std.specs.Prelude.{◌≡◌, ◌<◌};

use rule_values::Kind;

/// A mark for each kind.
#[derive(Clone, Copy, Drop)]
pub(crate) struct Marks {
    pub execute: u64,
    pub install: u64,
    pub document: u64,
}

impl Marks {
    ghost use Rattle.rule_values.specs.Kind.{kind_of};
    ghost use Rattle.object_model.specs.Past.{count_of};
    ghost use Rattle.object_model.specs.Purges.{counted};
    ghost use Rattle.object_cache.specs.Marks.{marks_of, no_marks};

    /// No kind was touched.
    pub fn none() -> Marks
        ensures { marks_of result ≡ no_marks }
    {
        Marks {
            execute: 0,
            install: 0,
            document: 0,
        }
    }

    /// The mark of a kind.
    pub fn of(&self, kind: Kind) -> u64
        ensures { result ≡ count_of (kind_of kind) (marks_of self.now) }
    {
        match kind {
            Kind::Execute => self.execute,
            Kind::Install => self.install,
            Kind::Document => self.document,
        }
    }

    /// Counts one more edit that touched the kind.
    pub fn raise(&mut self, kind: Kind)
        requires { count_of (kind_of kind) (marks_of self.old) < 18446744073709551615 }
        ensures { marks_of self.new ≡ counted (kind_of kind) (marks_of self.old) }
    {
        match kind {
            Kind::Execute => self.execute += 1,
            Kind::Install => self.install += 1,
            Kind::Document => self.document += 1,
        }
    }
}
