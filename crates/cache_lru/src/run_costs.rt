//! The costs of the events of a run.

ghost use Rattle.std.specs.Prelude.{◌≡◌, ◌+◌, ◌^◌, ◌≤◌, Bool, false, List, [], ◌∷◌, ◌++◌, All, IfOk, IfSome};
ghost use Rattle.event_costs.specs.declared.event.Event.{Event};
ghost use Rattle.event_costs.specs.declared.event.Branch.TheVariants.{Nothing};
ghost use Rattle.event_costs.specs.declared.kind.Kind.{Kind};
ghost use Rattle.cache_lru.specs.Costs.{CanRefer, Shapes, StandForRun, TablesStandWhere, counts_as_branch, event_cost};

use crate::caches::{Caches, NO_MISS, ones_of};
use crate::geometry::Geometry;
use crate::predictors::{Predictors, with_branch};
use byte_text::OutOfMemory;
use event_costs::{Branch, Cost, Event, Ones};
use std::alloc::Global;
use std::marker::Model;

/// What gives each event of a run its cost: the caches, and where branches are asked for the predictors.
#[derive(Drop)]
pub struct RunCosts {
    caches: Caches,
    predictors: Option<Predictors>,
}

impl Model for RunCosts {
    ghost use Rattle.cache_lru.specs.Costs.{RunCosts};

    ghost Value = { RunCosts };

    ghost view = { λ c. record { caches = c.caches; tables = c.predictors } };
}

impl RunCosts {
    /// Empty caches, and predictors where branches are asked for. They take all their memory here.
    pub fn new(
        alloc: Global,
        i1: Geometry,
        d1: Geometry,
        ll: Geometry,
        branches: bool,
    ) -> Result<RunCosts, OutOfMemory>
        ensures { IfOk result (λ costs. StandForRun branches (record { i1 = i1; d1 = d1; ll = ll }) costs []) }
    {
        let caches = Caches::new(alloc, i1, d1, ll)?;
        if !branches {
            return Ok(RunCosts {
                caches,
                predictors: None,
            });
        }
        let predictors = Predictors::new(alloc)?;
        Ok(RunCosts {
            caches,
            predictors: Some(predictors),
        })
    }

    /// The cost of the event. It takes no memory.
    pub fn cost(&mut self, event: &Event) -> Cost
        requires fetch { event.now.done.pc + 4 ≤ 2 ^ 32 }
        requires data { CanRefer event.now.done.touch }
        ensures cost { (branches : Bool) (shapes : Shapes) (events : List Event)
            → StandForRun branches shapes self.old events
            → result ≡ event_cost branches shapes events event.now }
        ensures stands { (branches : Bool) (shapes : Shapes) (events : List Event)
            → StandForRun branches shapes self.old events
            → StandForRun branches shapes self.new (events ++ event.now ∷ []) }
        ensures ones { (branches : Bool) (shapes : Shapes) (events : List Event)
            → StandForRun branches shapes self.old events
            → All (λ n. n ≤ 1) result }
    {
        self.ones(event).cost()
    }

    /// What `ones` answers, where the event changes nothing here: each block that it refers to stands first in its set,
    /// and it is no branch that is predicted.
    #[inline(always)]
    pub fn plain_ones(&mut self, event: &Event) -> Option<Ones>
        requires fetch { event.now.done.pc + 4 ≤ 2 ^ 32 }
        requires data { CanRefer event.now.done.touch }
        ensures same { self.new ≡ self.old }
        ensures cost { IfSome result (λ ones. (branches : Bool) (shapes : Shapes) (events : List Event)
            → StandForRun branches shapes self.old events
            → ones ≡ event_cost branches shapes events event.now) }
        ensures stands { IfSome result (λ ones. (branches : Bool) (shapes : Shapes) (events : List Event)
            → StandForRun branches shapes self.old events
            → StandForRun branches shapes self.new (events ++ event.now ∷ [])) }
        ensures ones { IfSome result (λ ones. (branches : Bool) (shapes : Shapes) (events : List Event)
            → StandForRun branches shapes self.old events
            → All (λ n. n ≤ 1) ones) }
    {
        if self.predicts(event.done.branch) {
            return None;
        }
        if !self.caches.are_first(event) {
            return None;
        }
        Some(ones_of(event.done.touch, NO_MISS))
    }

    /// Whether a branch of this kind is predicted.
    #[inline(always)]
    fn predicts(&self, branch: Branch) -> bool
        ensures kinds { result ≡ false → (branches : Bool) (events : List Event) (event : Event)
            → event.done.branch ≡ branch → TablesStandWhere branches self.now.tables events
            → (kind : Kind) → counts_as_branch branches events event kind ≡ false }
        ensures stands { result ≡ false → (branches : Bool) (events : List Event) (event : Event)
            → event.done.branch ≡ branch → TablesStandWhere branches self.now.tables events
            → TablesStandWhere branches self.now.tables (events ++ event ∷ []) }
    {
        match &self.predictors {
            None => false,
            Some(_) => is_branch(branch),
        }
    }

    /// The cost of the event, as the kinds of event that it counts as. It takes no memory.
    #[inline(always)]
    pub fn ones(&mut self, event: &Event) -> Ones
        requires fetch { event.now.done.pc + 4 ≤ 2 ^ 32 }
        requires data { CanRefer event.now.done.touch }
        ensures cost { (branches : Bool) (shapes : Shapes) (events : List Event)
            → StandForRun branches shapes self.old events
            → result ≡ event_cost branches shapes events event.now }
        ensures stands { (branches : Bool) (shapes : Shapes) (events : List Event)
            → StandForRun branches shapes self.old events
            → StandForRun branches shapes self.new (events ++ event.now ∷ []) }
        ensures ones { (branches : Bool) (shapes : Shapes) (events : List Event)
            → StandForRun branches shapes self.old events
            → All (λ n. n ≤ 1) result }
    {
        let missed = self.caches.missed(event);
        let ones = ones_of(event.done.touch, missed);
        let Some(predictors) = &mut self.predictors else {
            return ones;
        };
        let fails = predictors.predict(event);
        with_branch(ones, event.done.branch, fails)
    }
}

/// Whether it is a branch.
#[inline(always)]
fn is_branch(branch: Branch) -> bool
    ensures { result ≡ false → branch ≡ Nothing }
{
    match branch {
        Branch::Nothing => false,
        Branch::Cond(_) | Branch::Indirect => true,
    }
}
