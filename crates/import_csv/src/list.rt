//! A list of edits, as a file asks for them.

ghost use Rattle.std.specs.Prelude.{◌≡◌, [], ◌∷◌, ◌++◌, OnOk, OnErr};

use rule_edits::Edit;
use std::alloc::{AllocError, Global};
use std::marker::Model;

/// Edits in the order of their rows.
#[derive(Drop)]
pub struct Edits {
    edits: Vec<Edit>,
}

impl Model for Edits {
    ghost use Rattle.std.specs.Prelude.{List};
    ghost use Rattle.std.specs.Coded.{coded_list};
    ghost use Rattle.rule_edits.specs.declared.edit.Edit.{Edit};
    ghost use Rattle.rule_edits.specs.contracts.edit.Edit as edit_contract;

    ghost Value = { List Edit };

    ghost coded = { coded_list edit_contract.the_row.coded };

    ghost view = { λ e. e.edits.items };
}

impl Edits {
    /// No edit.
    pub fn new(alloc: Global) -> Edits
        ensures { result ≡ [] }
    {
        Edits {
            edits: Vec::new(alloc),
        }
    }

    /// Adds an edit behind all others; where there is no memory, the list is as before.
    pub fn push(&mut self, item: Edit) -> Result<(), AllocError>
        ensures ok { OnOk result (self.new ≡ self.old ++ item ∷ []) }
        ensures err { OnErr result (self.new ≡ self.old) }
    {
        self.edits.push(item)?;
        Ok(())
    }

    pub fn as_slice(&self) -> &[Edit]
        ensures { result.now ≡ self.now }
    {
        self.edits.as_slice()
    }
}
