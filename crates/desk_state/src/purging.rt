//! What an edit drops of the outcomes that are kept.

ghost use Rattle.std.specs.Prelude.{◌≡◌, ◌<◌, ℕ, Some, option_map};
ghost use Rattle.rule_values.specs.Kind.{kind_of};
ghost use Rattle.rule_values.specs.Rank.{rank_view};
ghost use Rattle.policy_model.specs.declared.limits.TheConstants.{MOST_RECEIPTS};
ghost use Rattle.object_model.specs.Past.{count_of};
ghost use Rattle.object_cache.specs.Objects.{counts, room_of};
ghost use Rattle.desk_state.specs.Cache.{AreAtMost, cache_in, purged_at, purged_as};

use authority_table::Prepared;
use object_cache::Objects;
use rule_values::{Kind, Rank};

/// Counts a planned change of the rules in each kind that it touches, and drops what it may change.
pub(crate) fn purge(objects: &mut Objects, rows: &Option<Prepared>)
    requires marks { AreAtMost MOST_RECEIPTS (counts objects.old) }
    ensures cache { (m : ℕ) → cache_in m objects.new ≡ purged_as rows.now (cache_in m objects.old) }
    ensures room { room_of objects.new ≡ room_of objects.old }
{
    match rows {
        None => {}
        Some(rows) => purge_rows(objects, rows),
    }
}

fn purge_rows(objects: &mut Objects, rows: &Prepared)
    requires marks { AreAtMost MOST_RECEIPTS (counts objects.old) }
    ensures cache { (m : ℕ) → cache_in m objects.new ≡ purged_as (Some rows.now) (cache_in m objects.old) }
    ensures room { room_of objects.new ≡ room_of objects.old }
{
    let execute = rows.touched(Kind::Execute);
    let install = rows.touched(Kind::Install);
    let document = rows.touched(Kind::Document);
    purge_kind(objects, Kind::Execute, execute);
    purge_kind(objects, Kind::Install, install);
    purge_kind(objects, Kind::Document, document);
}

/// The same in one kind, of which this is the first touched rank, if there is one.
fn purge_kind(objects: &mut Objects, kind: Kind, first: Option<Rank>)
    requires { count_of (kind_of kind) (counts objects.old) < 18446744073709551615 }
    ensures cache { (m : ℕ) → cache_in m objects.new ≡ purged_at (kind_of kind) (option_map rank_view first) (cache_in m objects.old) }
    ensures room { room_of objects.new ≡ room_of objects.old }
{
    match first {
        None => {}
        Some(first) => objects.purge(kind, first),
    }
}
