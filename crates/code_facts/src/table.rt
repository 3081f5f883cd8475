//! What is known of code, by its cdhash.

ghost use Rattle.std.specs.Prelude.{◌≡◌, ◌≢◌, ◌<◌, length, Err, IfErr, OnOk};
ghost use Rattle.code_facts.specs.Growing.{grown};
ghost use Rattle.code_facts.specs.RowCode.{fact_of};
ghost use Rattle.code_facts.specs.Tables.{Grows, Begins, known_at, same_hash};
ghost use Rattle.indexmap.specs.IndexMap.{insert_entry};
ghost use Rattle.req_tree.specs.Facts.{nothing};

use crate::fault::FactFault;
use crate::growing::grow;
use crate::row::{Fact, Row};
use fact_values::Facts;
use indexmap::IndexMap;
use req_tree::Hash20;
use std::alloc::Global;

/// What the rows of a facts file say of each hash, in the order of the hashes' first rows.
#[derive(Drop)]
pub struct FactTable {
    by_hash: IndexMap<Hash20, Facts>,
}

impl FactTable {
    ghost use Rattle.std.specs.Prelude.{◌≡◌, ◌≢◌, ◌<◌, ℕ, List, [], ◌∷◌, ◌++◌, length, option_map, slice_get, Ok, Err, Some, IfErr, OnOk};
    ghost use Rattle.req_tree.specs.Facts.{known_of};
    ghost use Rattle.fact_values.specs.Knowledge.{knowledge_of, known_in};
    ghost use Rattle.code_facts.specs.declared.fault.FactFault.{FactFault};
    ghost use Rattle.code_facts.specs.Rows as spec;
    ghost use Rattle.code_facts.specs.FactsFile.{row_behind};
    ghost use Rattle.code_facts.specs.RowCode.{row_of_code};
    ghost use Rattle.code_facts.specs.Tables.{table_facts, listed, Stands};

    /// The table that lists nothing.
    pub fn empty(alloc: Global) -> FactTable
        ensures { table_facts result ≡ [] }
    {
        FactTable {
            by_hash: IndexMap::new(alloc),
        }
    }

    /// What is known of a hash; `None` where no row has it.
    pub fn facts_of(&self, hash: &Hash20) -> Option<&Facts>
        ensures listed { option_map (λ facts. knowledge_of facts.now) result ≡ listed (table_facts self.now) hash.now.bytes }
        ensures known { known_in result ≡ known_of (table_facts self.now) hash.now.bytes }
    {
        self.by_hash.get(hash)
    }

    /// Takes a row behind the rows that the table holds; after a refusal nothing is said of the table.
    pub(crate) fn take(&mut self, alloc: Global, number: u32, row: &Row) -> Result<(), FactFault>
        ensures found { OnOk result ((earlier : List spec.Row) → Stands self.old earlier → (row_behind number earlier (Some (row_of_code row.now)) ≡ Ok (row_of_code row.now)) × Stands self.new (earlier ++ row_of_code row.now ∷ [])) }
        ensures first { IfErr result (λ fault. fault ≢ FactFault.OutOfMemory → (earlier : List spec.Row) → Stands self.old earlier → row_behind number earlier (Some (row_of_code row.now)) ≡ Err fault) }
    {
        match self.by_hash.get_index_of(&row.hash) {
            Some(at) => grow_at(alloc, number, &mut self.by_hash, at, &row.fact),
            None => grow_new(alloc, number, &mut self.by_hash, row),
        }
    }
}

/// Adds a fact to those of a hash by its place in the table.
fn grow_at(
    alloc: Global,
    number: u32,
    by_hash: &mut IndexMap<Hash20, Facts>,
    at: usize,
    fact: &Fact,
) -> Result<(), FactFault>
    requires { at < length by_hash.old.entries }
    ensures found { OnOk result (Grows number (fact_of fact.now) by_hash.old.entries at by_hash.new.entries) }
    ensures first { IfErr result (λ fault. fault ≢ FactFault.OutOfMemory → grown number (fact_of fact.now) (known_at by_hash.old.entries at) ≡ Err fault) }
{
    let Some(facts) = by_hash.get_index_mut(at) else {
        unreachable!();
    };
    grow(alloc, number, facts, fact)
}

/// Adds a first fact of a hash that the table doesn't list.
fn grow_new(
    alloc: Global,
    number: u32,
    by_hash: &mut IndexMap<Hash20, Facts>,
    row: &Row,
) -> Result<(), FactFault>
    ensures found { OnOk result (Begins number (fact_of row.now.fact) by_hash.old.entries row.now.hash by_hash.new.entries) }
    ensures first { IfErr result (λ fault. fault ≢ FactFault.OutOfMemory → grown number (fact_of row.now.fact) nothing ≡ Err fault) }
{
    let mut facts = Facts::empty(alloc);
    match grow(alloc, number, &mut facts, &row.fact) {
        Ok(()) => keep(by_hash, row.hash, facts),
        Err(fault) => Err(fault),
    }
}

fn keep(by_hash: &mut IndexMap<Hash20, Facts>, hash: Hash20, facts: Facts) -> Result<(), FactFault>
    ensures kept { OnOk result (by_hash.new.entries ≡ insert_entry same_hash by_hash.old.entries hash facts) }
    ensures refused { IfErr result (λ fault. fault ≡ FactFault.OutOfMemory) }
{
    match by_hash.insert(hash, facts) {
        Ok(_) => Ok(()),
        Err(_) => Err(FactFault::OutOfMemory),
    }
}
