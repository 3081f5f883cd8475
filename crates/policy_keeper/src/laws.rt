//! Laws over what a keeper tells: functions that do nothing and whose contracts are the laws.

ghost use Rattle.policy_keeper.specs.Mirror.{MirrorsCanChange, LoadMirrors};

use store_model::laws::stored_rows_mean_tables;

/// A keeper that tells the rows of the tables may be given each change that the tables take.
pub fn mirrored_tables_can_change()
    ensures { MirrorsCanChange }
{
    stored_rows_mean_tables();
}

/// After a load a keeper tells, if anything, the rows of the tables that the loaded rows mean.
pub fn loaded_tables_are_mirrored()
    ensures { LoadMirrors }
{}
