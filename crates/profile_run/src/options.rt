//! What is asked of a run.

use cache_lru::Geometry;
use guest_sched::Turns;
use std::marker::Model;

/// What is asked of a run.
#[derive(Debug, Drop)]
pub struct RunOptions {
    /// What the names of parts begin with.
    pub base: String,
    /// The most steps of the run, from 1 to 10^12.
    pub budget: u64,
    pub turns: Turns,
    /// The first level's cache of instructions.
    pub i1: Geometry,
    /// The first level's cache of data.
    pub d1: Geometry,
    /// The last level's cache.
    pub ll: Geometry,
    /// A cut stands after each so many steps.
    pub every: Option<u64>,
    /// A cut stands where a function of this name is entered.
    pub before: Option<String>,
    /// A cut stands where a function of this name is left.
    pub after: Option<String>,
    /// Whether branches are counted and shown.
    pub branch: bool,
}

impl Model for RunOptions {
    ghost use Rattle.std.specs.Prelude.{option_map, string_bytes};
    ghost use Rattle.profile_run.specs.Program.{Options};

    ghost Value = { Options };

    ghost view = { λ o. record {
      base = string_bytes o.base;
      budget = o.budget;
      quantum = o.turns.quantum;
      seed = o.turns.seed;
      shapes = record { i1 = o.i1; d1 = o.d1; ll = o.ll };
      dump_points = record {
        every = o.every;
        before = option_map string_bytes o.before;
        after = option_map string_bytes o.after;
      };
      branch = o.branch;
    } };
}
