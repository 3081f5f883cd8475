//! The first ranks that the last edits touched, for each kind.

ghost use Rattle.std.specs.Prelude.{◌≡◌, ◌∷◌, [], take, map, not, IfOk};
ghost use Rattle.std.specs.List.{list_any};
ghost use Rattle.policy_model.specs.Rules.{is_before};
ghost use Rattle.rule_values.specs.Kind.{kind_of};
ghost use Rattle.rule_values.specs.Rank.{rank_view};
ghost use Rattle.object_model.specs.declared.limits.TheConstants.{LATE_EDITS};

use crate::entry::is_before;
use circular_buffer::HeapCircularBuffer;
use object_model::limits::LATE_EDITS;
use rule_values::{Kind, Outcome, Rank};
use std::alloc::{AllocError, Global};

/// Those of one kind, from the newest back.
#[derive(Drop)]
pub(crate) struct LateRanks {
    ranks: HeapCircularBuffer<Rank>,
    ghost room: { ranks.capacity ≡ LATE_EDITS },
}

impl LateRanks {
    ghost use Rattle.rule_values.specs.Outcome.{outcome_of};
    ghost use Rattle.object_model.specs.Rings.{moved_by};
    ghost use Rattle.object_cache.specs.LateRanks.{late_of};

    /// No edit yet, and room for as many as are kept.
    pub fn new(alloc: Global) -> Result<LateRanks, AllocError>
        ensures { IfOk result (λ late. late_of late ≡ []) }
    {
        let ranks = HeapCircularBuffer::with_capacity(alloc, LATE_EDITS as usize)?;
        Ok(LateRanks { ranks })
    }

    /// One edit more; where there are as many as are kept, the oldest is forgotten.
    pub fn note(&mut self, first: Rank)
        ensures { late_of self.new ≡ take LATE_EDITS (rank_view first ∷ late_of self.old) }
    {
        let _ = self.ranks.push_front(first);
    }

    /// Whether so many late edits have moved an outcome.
    pub fn have_moved(&self, outcome: &Outcome, late: u64) -> bool
        ensures { result ≡ moved_by LATE_EDITS (outcome_of outcome.now) late (late_of self.now) }
    {
        match outcome {
            Outcome::Governed { rank, .. } => late > LATE_EDITS || self.reach(rank, late),
            Outcome::Default { .. } => late > 0,
        }
    }

    /// Whether one of the newest so many isn't behind this rank.
    fn reach(&self, rank: &Rank, since: u64) -> bool
        ensures { result ≡ list_any (λ f. not (is_before (rank_view rank.now) f)) (take since (late_of self.now)) }
    {
        any_reached(&self.ranks, rank, since)
    }
}

fn any_reached(ranks: &HeapCircularBuffer<Rank>, rank: &Rank, since: u64) -> bool
    ensures { result ≡ list_any (λ f. not (is_before (rank_view rank.now) f)) (take since (map rank_view ranks.now.items)) }
{
    let mut left = since;
    for first in ranks.iter() {
        if left == 0 {
            return false;
        }
        if !is_before(rank, first) {
            return true;
        }
        left -= 1;
    }
    false
}

/// The ranks of each kind.
#[derive(Drop)]
pub(crate) struct Rings {
    pub execute: LateRanks,
    pub install: LateRanks,
    pub document: LateRanks,
}

impl Rings {
    ghost use Rattle.object_model.specs.Plain.{no_rings, ring_in, noted};
    ghost use Rattle.object_cache.specs.LateRanks.{late_of, rings_view};

    pub fn new(alloc: Global) -> Result<Rings, AllocError>
        ensures { IfOk result (λ rings. rings_view rings ≡ no_rings) }
    {
        Ok(Rings {
            execute: LateRanks::new(alloc)?,
            install: LateRanks::new(alloc)?,
            document: LateRanks::new(alloc)?,
        })
    }

    /// Those of a kind.
    pub fn of(&self, kind: Kind) -> &LateRanks
        ensures { late_of result.now ≡ ring_in (kind_of kind) (rings_view self.now) }
    {
        match kind {
            Kind::Execute => &self.execute,
            Kind::Install => &self.install,
            Kind::Document => &self.document,
        }
    }

    /// Notes one more edit that touched the kind.
    pub fn note(&mut self, kind: Kind, first: Rank)
        ensures { rings_view self.new ≡ noted (kind_of kind) (rank_view first) (rings_view self.old) }
    {
        match kind {
            Kind::Execute => self.execute.note(first),
            Kind::Install => self.install.note(first),
            Kind::Document => self.document.note(first),
        }
    }
}
