//! The entries that are kept, in the order in which they came.
//!
//! A plain list, whose memory is taken when it is made. An entry that has ended answers no look-up and holds no room;
//! it is dropped when the next outcome is kept, or by an edit. So the list is never longer than there is room for.

ghost use Rattle.std.specs.Prelude.{◌≡◌, ◌<◌, ◌≤◌, ◌+◌, [], ◌∷◌, ◌++◌, ◌-◌, length, true, nat_le, IfOk, vec_capacity};
ghost use Rattle.std.specs.List.{filter, find, list_any};
ghost use Rattle.req_tree.specs.Subject.{subject_of};
ghost use Rattle.rule_values.specs.Kind.{kind_of};
ghost use Rattle.rule_values.specs.Rank.{rank_view};
ghost use Rattle.object_model.specs.declared.limits.TheConstants.{MOST_ENTRIES};
ghost use Rattle.object_model.specs.Objects.{is_unexpired, is_for};
ghost use Rattle.object_model.specs.Purges.{stays_at};
ghost use Rattle.object_cache.specs.Entry.{entry_of, entries_of, entry_found};

use crate::entry::Entry;
use crate::late_ranks::Rings;
use crate::marks::Marks;
use crate::offered::Offered;
use req_tree::Subject;
use rule_values::{Kind, Moment, Rank};
use std::alloc::{AllocError, Global};

/// Outcomes of assessments, at most one for each kind and subject that hasn't ended.
#[derive(Drop)]
pub struct Objects {
    entries: Vec<Entry>,
    /// How many edits have touched each kind.
    marks: Marks,
    /// The first ranks that the last of these edits touched.
    rings: Rings,
    /// So many entries that haven't ended are kept at most.
    room: usize,
    ghost within: { length entries.items ≤ room },
    ghost taken: { room ≤ vec_capacity entries },
    ghost most: { room ≤ MOST_ENTRIES },
}

impl Objects {
    ghost use Rattle.object_model.specs.Past.{count_of};
    ghost use Rattle.object_model.specs.Purges.{counted};
    ghost use Rattle.object_model.specs.Objects.{with_offer};
    ghost use Rattle.object_cache.specs.Offered.{offered_of};
    ghost use Rattle.object_model.specs.Plain.{ring_in, noted};
    ghost use Rattle.object_model.specs.Rings.{moved_by};
    ghost use Rattle.object_model.specs.declared.limits.TheConstants.{LATE_EDITS};
    ghost use Rattle.object_cache.specs.Objects.{held, counts, rings, room_of, live_at, IsEmpty, decision_on};

    /// No entries yet, and room for so many. It takes all memory that the entries will need.
    pub fn with_room(alloc: Global, room: usize) -> Result<Objects, AllocError>
        requires { room ≤ MOST_ENTRIES }
        ensures { IfOk result (λ objects. IsEmpty room objects) }
    {
        let entries = Vec::with_capacity(alloc, room)?;
        let rings = Rings::new(alloc)?;
        Ok(Objects {
            entries,
            marks: Marks::none(),
            rings,
            room,
        })
    }

    /// The entry for a kind and a subject that hasn't ended.
    pub fn find(&self, kind: Kind, subject: &Subject, now: Moment) -> Option<&Entry>
        ensures { entry_found result ≡ find (is_for (kind_of kind) (subject_of subject.now)) (live_at now self.now) }
    {
        first_live(&self.entries, kind, subject, now)
    }

    /// How many edits have touched the kind.
    pub fn mark(&self, kind: Kind) -> u64
        ensures { result ≡ count_of (kind_of kind) (counts self.now) }
    {
        self.marks.of(kind)
    }

    /// Counts an edit that touched rules of the kind, of which this is the first rank, and drops what it may have changed:
    /// each default of the kind, and each outcome of the kind whose rule isn't tried before that rank.
    pub fn purge(&mut self, kind: Kind, first: Rank)
        requires { count_of (kind_of kind) (counts self.old) < 18446744073709551615 }
        ensures entries { held self.new ≡ filter (stays_at (kind_of kind) (rank_view first)) (held self.old) }
        ensures counts { counts self.new ≡ counted (kind_of kind) (counts self.old) }
        ensures rings { rings self.new ≡ noted (kind_of kind) (rank_view first) (rings self.old) }
        ensures room { room_of self.new ≡ room_of self.old }
    {
        self.marks.raise(kind);
        self.rings.note(kind, first);
        drop_reached(&mut self.entries, kind, &first);
    }

    /// Keeps an outcome, or says why not. It was decided when the kind had the mark `since`; `inhibit` says that
    /// its asker forbids keeping.
    pub fn offer(&mut self, entry: &Entry, since: u64, now: Moment, inhibit: bool) -> Offered
        ensures gives { offered_of result ≡ decision_on self.old (entry_of entry.now) since now inhibit }
        ensures entries { live_at now self.new ≡ with_offer (offered_of result) (entry_of entry.now) (live_at now self.old) }
        ensures counts { counts self.new ≡ counts self.old }
        ensures rings { rings self.new ≡ rings self.old }
        ensures room { room_of self.new ≡ room_of self.old }
    {
        let fate = self.decision(entry, since, now, inhibit);
        match fate {
            Offered::Kept => keep(&mut self.entries, entry.copied(), now),
            _ => {}
        }
        fate
    }

    /// How many entries haven't ended.
    pub fn live(&self, now: Moment) -> u32
        ensures { result ≡ length (live_at now self.now) }
    {
        count_live(&self.entries, now)
    }

    /// What becomes of an offer.
    fn decision(&self, entry: &Entry, since: u64, now: Moment, inhibit: bool) -> Offered
        ensures { offered_of result ≡ decision_on self.now (entry_of entry.now) since now inhibit }
    {
        if inhibit || entry.inhibits() {
            Offered::Inhibited
        } else if self.has_moved(entry, since) {
            Offered::Moved
        } else if !entry.is_unexpired(now) {
            Offered::Expired
        } else if self.holds(entry.kind, &entry.subject, now) {
            Offered::Twice
        } else if self.is_full(now) {
            Offered::Full
        } else {
            Offered::Kept
        }
    }

    /// Whether edits have moved an outcome that was decided when its kind had this mark.
    fn has_moved(&self, entry: &Entry, since: u64) -> bool
        ensures { result ≡ moved_by LATE_EDITS (entry_of entry.now).outcome (count_of (entry_of entry.now).kind (counts self.now) - since) (ring_in (entry_of entry.now).kind (rings self.now)) }
    {
        let late = self.mark(entry.kind).saturating_sub(since);
        self.rings.of(entry.kind).have_moved(&entry.outcome, late)
    }

    /// Whether there is an entry for a kind and a subject that hasn't ended.
    fn holds(&self, kind: Kind, subject: &Subject, now: Moment) -> bool
        ensures { result ≡ list_any (is_for (kind_of kind) (subject_of subject.now)) (live_at now self.now) }
    {
        self.find(kind, subject, now).is_some()
    }

    /// Whether there is room for no more.
    fn is_full(&self, now: Moment) -> bool
        ensures { result ≡ nat_le (room_of self.now) (length (live_at now self.now)) }
    {
        self.room <= self.live(now) as usize
    }
}

/// The first entry for a kind and a subject that hasn't ended.
fn first_live<'a>(
    entries: &'a [Entry],
    kind: Kind,
    subject: &Subject,
    now: Moment,
) -> Option<&'a Entry>
    ensures { entry_found result ≡ find (is_for (kind_of kind) (subject_of subject.now)) (filter (is_unexpired now) (entries_of entries.now)) }
{
    for entry in entries {
        if entry.is_unexpired(now) && entry.is_for(kind, subject) {
            return Some(entry);
        }
    }
    None
}

/// How many entries haven't ended.
fn count_live(entries: &[Entry], now: Moment) -> u32
    requires { length entries.now ≤ MOST_ENTRIES }
    ensures { result ≡ length (filter (is_unexpired now) (entries_of entries.now)) }
{
    let mut count = 0;
    for entry in entries {
        if entry.is_unexpired(now) {
            count += 1;
        }
    }
    count
}

/// Drops the entries that rest on a rule of this rank in the kind.
fn drop_reached(entries: &mut Vec<Entry>, kind: Kind, first: &Rank)
    ensures entries { entries_of entries.new.items ≡ filter (stays_at (kind_of kind) (rank_view first.now)) (entries_of entries.old.items) }
    ensures shorter { length entries.new.items ≤ length entries.old.items }
    ensures capacity { vec_capacity entries.new ≡ vec_capacity entries.old }
{
    entries.retain(|entry| entry.stays_at(kind, first));
}

/// Drops the entries that have ended.
fn sweep(entries: &mut Vec<Entry>, now: Moment)
    ensures entries { entries_of entries.new.items ≡ filter (is_unexpired now) (entries_of entries.old.items) }
    ensures capacity { vec_capacity entries.new ≡ vec_capacity entries.old }
{
    entries.retain(|entry| entry.is_unexpired(now));
}

/// Drops the entries that have ended, and adds one, for which there is room behind the others.
fn keep(entries: &mut Vec<Entry>, entry: Entry, now: Moment)
    requires lasts { is_unexpired now (entry_of entry) ≡ true }
    requires room { length (filter (is_unexpired now) (entries_of entries.old.items)) < vec_capacity entries.old }
    ensures live { filter (is_unexpired now) (entries_of entries.new.items) ≡ filter (is_unexpired now) (entries_of entries.old.items) ++ entry_of entry ∷ [] }
    ensures length { length entries.new.items ≡ length (filter (is_unexpired now) (entries_of entries.old.items)) + 1 }
    ensures capacity { vec_capacity entries.new ≡ vec_capacity entries.old }
{
    sweep(entries, now);
    entries.push_reserved(entry);
}
