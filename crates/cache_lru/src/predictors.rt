//! The predictors of branches.

ghost use Rattle.std.specs.Prelude.{◌≡◌, ◌≤◌, true, List, [], ◌∷◌, ◌++◌, All, IfOk, length};
ghost use Rattle.std.specs.Prelude.{slice_index, slice_set};
ghost use Rattle.event_costs.specs.Costs.{no_cost};
ghost use Rattle.event_costs.specs.Kinds.{cost_by};
ghost use Rattle.event_costs.specs.declared.event.Event.{Event};
ghost use Rattle.event_costs.specs.declared.event.Touch.{Touch};
ghost use Rattle.cache_lru.specs.Branches.{TablesStandFor, branch_counts, counter_after, counter_of, destination_fails};
ghost use Rattle.cache_lru.specs.Branches.{fails_after, outcome_fails, target_of};
ghost use Rattle.cache_lru.specs.Costs.{EventMisses, branch_cost_after, counts_by, no_kind};

use byte_text::OutOfMemory;
use event_costs::{Branch, Cost, Event, Kind, Ones};
use std::alloc::Global;
use std::marker::Model;

/// How many counters there are for conditional branches, and how many targets for indirect ones.
const COUNTERS: usize = 16_384;

const TARGETS: usize = 512;

/// The least count at which a branch is predicted taken, and the largest count.
const PREDICTED_TAKEN: u8 = 2;

const MOST: u8 = 3;

/// A counter of two bits for each conditional branch and a target for each indirect one, as far as they don't share
/// them. All threads share the predictors.
#[derive(Drop)]
pub struct Predictors {
    counts: Vec<u8>,
    addresses: Vec<u32>,
}

impl Model for Predictors {
    ghost use Rattle.cache_lru.specs.Branches.{Tables};
    ghost use Rattle.cache_lru.specs.inner.Layout.{AreTables};

    ghost Value = { Tables };

    ghost view = { λ p. record { counts = p.counts.items; addresses = p.addresses.items } };

    ghost invariant = { λ p. AreTables p.counts.items p.addresses.items };
}

impl Predictors {
    /// Predictors that have seen no branch. They take all their memory here.
    pub fn new(alloc: Global) -> Result<Predictors, OutOfMemory>
        ensures { IfOk result (λ predictors. TablesStandFor predictors []) }
    {
        Ok(Predictors {
            counts: vec![in alloc; 0; COUNTERS]?,
            addresses: vec![in alloc; 0; TARGETS]?,
        })
    }

    /// What the event costs as a branch: one, and another one where its prediction fails. All else costs nothing here.
    pub fn cost(&mut self, event: &Event) -> Cost
        ensures cost { (events : List Event) → TablesStandFor self.old events
            → result ≡ branch_cost_after events event.now }
        ensures stands { (events : List Event) → TablesStandFor self.old events
            → TablesStandFor self.new (events ++ event.now ∷ []) }
        ensures ones { All (λ n. n ≤ 1) result }
    {
        let fails = self.predict(event);
        with_branch(Ones::none(), event.done.branch, fails).cost()
    }

    /// Predicts the event's branch and learns what it did. True where the prediction fails.
    #[inline(always)]
    pub(crate) fn predict(&mut self, event: &Event) -> bool
        ensures fails { (events : List Event) → TablesStandFor self.old events → result ≡ fails_after events event.now }
        ensures stands { (events : List Event) → TablesStandFor self.old events
            → TablesStandFor self.new (events ++ event.now ∷ []) }
    {
        match event.done.branch {
            Branch::Nothing => false,
            Branch::Cond(taken) => predict_outcome(&mut self.counts, event.done.pc, taken),
            Branch::Indirect => predict_destination(
                &mut self.addresses,
                event.done.pc,
                event.done.next,
            ),
        }
    }
}

/// The same cost, with what a branch counts as, from whether its prediction fails.
#[inline(always)]
pub(crate) fn with_branch(ones: Ones, branch: Branch, fails: bool) -> Ones
    ensures event { (touch : Touch) (misses : EventMisses) → ones ≡ cost_by (counts_by touch misses no_kind)
        → result ≡ cost_by (counts_by touch misses (branch_counts branch fails)) }
    ensures alone { ones ≡ no_cost → result ≡ cost_by (branch_counts branch fails) }
{
    match branch {
        Branch::Nothing => ones,
        Branch::Cond(_) => ones.with(Kind::Bc).with_if(Kind::Bcm, fails),
        Branch::Indirect => ones.with(Kind::Bi).with_if(Kind::Bim, fails),
    }
}

/// Predicts whether a conditional branch is taken, and learns whether it was. True where the prediction fails.
fn predict_outcome(counts: &mut [u8], pc: u32, taken: bool) -> bool
    requires { length counts.old ≡ 16384 }
    ensures fails { result ≡ outcome_fails (slice_index counts.old (counter_of pc)) taken }
    ensures learned { counts.new ≡ slice_set counts.old (counter_of pc)
        (counter_after (slice_index counts.old (counter_of pc)) taken) }
{
    let counter = pc as usize / 4 % COUNTERS;
    let count = counts[counter];
    if taken {
        counts[counter] = count.saturating_add(1).min(MOST);
        count < PREDICTED_TAKEN
    } else {
        counts[counter] = count.saturating_sub(1);
        count >= PREDICTED_TAKEN
    }
}

/// Predicts where an indirect branch goes, and learns where it went. True where the prediction fails.
fn predict_destination(addresses: &mut [u32], pc: u32, next: u32) -> bool
    requires { length addresses.old ≡ 512 }
    ensures fails { result ≡ destination_fails (slice_index addresses.old (target_of pc)) next }
    ensures learned { addresses.new ≡ slice_set addresses.old (target_of pc) next }
{
    let target = pc as usize / 4 % TARGETS;
    let fails = addresses[target] != next;
    addresses[target] = next;
    fails
}
