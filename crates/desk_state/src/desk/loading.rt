//! Desks that are loaded from what a keeper has.

ghost use Rattle.std.specs.Prelude.{◌≡◌, ◌≤◌, [], IfOk, IfSome, IsSome, IsErrOf};
ghost use Rattle.std.specs.Arc.{arc_value};
ghost use Rattle.gk_io.specs.Faults.{Rose};
ghost use Rattle.code_facts.specs.Tables.{table_facts};
ghost use Rattle.policy_model.specs.Tables.{Tables};
ghost use Rattle.raw_tables.specs.Raw.{plain_tables};
ghost use Rattle.store_model.specs.Kept.{IsKept};
ghost use Rattle.store_model.specs.Upgraded.{upgraded};
ghost use Rattle.policy_keeper.specs.Mirror.{Mirrors};
ghost use Rattle.desk_state.specs.Loaded.{loaded, IsLoaded, IsLoadedAgain};
ghost use Rattle.desk_state.specs.Stands.{tables, Stands};

use crate::desk::Desk;
use crate::load_fault::LoadFault;
use code_facts::FactTable;
use object_cache::Objects;
use object_model::laws::a_desk_goes_on_standing;
use object_model::limits::MOST_ENTRIES;
use policy_keeper::Keeper;
use raw_tables::RawTables;
use rule_values::Moment;
use std::alloc::Global;
use std::sync::Arc;
use store_model::laws::{kept_tables, refused_rows, stored_rows_mean_tables};
use store_reading::read_store;

impl Desk {
    /// A desk that knows these facts, with the tables that a keeper has, at moment 0.
    pub fn load<K: Keeper>(
        alloc: Global,
        keeper: &mut K,
        facts: Arc<FactTable>,
    ) -> Result<Desk, LoadFault>
        ensures stands { IfOk result (λ desk. Stands desk (loaded (tables desk) (table_facts (arc_value facts))) []) }

        // Over rows that the keeper tells: the desk's tables are what they mean, or their first bad row is refused.
        ensures loaded { IfSome (K.told keeper.new) (λ raw. IsLoaded raw result) }

        // It tells what it told before, upgraded, so tables that it mirrored are loaded again.
        ensures same { IfSome (K.told keeper.new) (λ after. IfSome (K.told keeper.old) (λ before. upgraded before ≡ after)) }
        ensures again { (t : Tables) → ∥ IsKept t ∥₁ → IsSome (K.told keeper.old) → Mirrors (K.told keeper.old) t → IsSome (K.told keeper.new) → IsLoadedAgain t result }

        // A failure of the keeper shows in its count, which never falls, and nothing else moves it.
        ensures later { K.faults keeper.old ≤ K.faults keeper.new }
        ensures cause { IsErrOf result LoadFault.KeeperFault → Rose (K.faults keeper.old) (K.faults keeper.new) }
        ensures steady { (IsErrOf result LoadFault.KeeperFault → ⊥) → K.faults keeper.new ≡ K.faults keeper.old }
    {
        stored_rows_mean_tables();
        refused_rows();
        match keeper.load(alloc) {
            Err(fault) => Err(LoadFault::from(fault)),
            Ok(raw) => Desk::of_rows(alloc, &raw, facts),
        }
    }

    /// The desk whose tables stored rows mean.
    fn of_rows(alloc: Global, raw: &RawTables, facts: Arc<FactTable>) -> Result<Desk, LoadFault>
        ensures stands { IfOk result (λ desk. Stands desk (loaded (tables desk) (table_facts (arc_value facts))) []) }
        ensures loaded { IsLoaded (plain_tables raw.now) result }
        ensures asked { IsErrOf result LoadFault.KeeperFault → ⊥ }
    {
        a_desk_goes_on_standing();
        stored_rows_mean_tables();
        kept_tables();
        let stored = read_store(alloc, raw)?;
        let objects = Objects::with_room(alloc, MOST_ENTRIES)?;
        Ok(Desk {
            table: stored.table,
            receipts: stored.receipts,
            enabled: stored.enabled,
            moment: Moment::zero(),
            facts,
            objects,
        })
    }
}
