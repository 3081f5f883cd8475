//! Which rules an edit touches, as far as kept outcomes depend on it.

ghost use Rattle.std.specs.Prelude.{◌≡◌, List, [], ◌∷◌, ◌++◌, Bool, IsTrue, option_map};
ghost use Rattle.policy_model.specs.Rules as model;
ghost use Rattle.rule_values.specs.Kind.{kind_of};
ghost use Rattle.rule_values.specs.Rank.{rank_view};
ghost use Rattle.rule_values.specs.Rule.{row_of};

use rule_values::{Kind, Rank, Rule};

/// For each kind the touched rule that is tried first.
#[derive(Clone, Copy, Drop)]
pub struct Touched {
    execute: Option<Rank>,
    install: Option<Rank>,
    document: Option<Rank>,
}

impl Touched {
    ghost use Rattle.authority_table.specs.Touched.{touched_in, IsTouched};

    pub(crate) fn none() -> Touched
        ensures { IsTouched [] result }
    {
        Touched {
            execute: None,
            install: None,
            document: None,
        }
    }

    /// The rules so far, and this one.
    pub(crate) fn with(self, rule: &Rule) -> Touched
        ensures { (rows : List model.Row) → IsTouched rows self → IsTouched (rows ++ row_of rule.now ∷ []) result }
    {
        let kind = rule.kind;
        let rank = rule.rank();
        Touched {
            execute: first_of(self.execute, kind.is(Kind::Execute), &rank),
            install: first_of(self.install, kind.is(Kind::Install), &rank),
            document: first_of(self.document, kind.is(Kind::Document), &rank),
        }
    }

    /// The rank of the first one of a kind, or none where none is touched.
    pub fn first(&self, kind: Kind) -> Option<Rank>
        ensures { option_map rank_view result ≡ touched_in self.now (kind_of kind) }
    {
        match kind {
            Kind::Execute => self.execute,
            Kind::Install => self.install,
            Kind::Document => self.document,
        }
    }
}

/// The first of those found before and of this one, where it counts.
fn first_of(found: Option<Rank>, counts: bool, rank: &Rank) -> Option<Rank>
    ensures { (test : model.Row → Bool) (rows : List model.Row) (row : model.Row) → test row ≡ counts → model.rank_of row ≡ rank_view rank.now
        → option_map rank_view found ≡ option_map model.rank_of (model.first test rows)
        → option_map rank_view result ≡ option_map model.rank_of (model.first test (rows ++ row ∷ [])) }
{
    if counts {
        Some(sooner(found, rank))
    } else {
        found
    }
}

ghost use Rattle.std.specs.Prelude.{Some};

fn sooner(found: Option<Rank>, rank: &Rank) -> Rank
    ensures { (test : model.Row → Bool) (rows : List model.Row) (row : model.Row) → IsTrue (test row) → model.rank_of row ≡ rank_view rank.now
        → option_map rank_view found ≡ option_map model.rank_of (model.first test rows)
        → Some (rank_view result) ≡ option_map model.rank_of (model.first test (rows ++ row ∷ [])) }
{
    match found {
        None => *rank,
        Some(best) => { if rank.before(&best) { *rank } else { best } }
    }
}
