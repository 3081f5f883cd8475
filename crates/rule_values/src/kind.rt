//! What code is assessed for.

/// The type of a rule and of an assessment, after `--type` of spctl(8).
#[derive(Clone, Copy, Drop, PartialEq)]
pub enum Kind {
    /// To be executed.
    Execute,
    /// To be installed.
    Install,
    /// To be opened as a document.
    Document,
}

impl Kind {
    ghost use Rattle.std.specs.Prelude.{◌≡◌};
    ghost use Rattle.policy_model.specs.Rules.{same_kind};
    ghost use Rattle.policy_model.specs.Texts.{kind_text};
    ghost use Rattle.rule_values.specs.Kind.{kind_of};

    pub fn is(self, other: Kind) -> bool
        ensures { result ≡ same_kind (kind_of self) (kind_of other) }
    {
        self == other
    }

    /// The word for it in lines: `execute`, `install` or `open`.
    pub fn word(self) -> &'static [u8]
        ensures { result.now ≡ kind_text (kind_of self) }
    {
        match self {
            Kind::Execute => b"execute",
            Kind::Install => b"install",
            Kind::Document => b"open",
        }
    }
}
