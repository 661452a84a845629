//! Lists of threads.

use event_costs::ThreadNo;
use std::marker::Model;

/// Threads in some order. Contracts see the list of them.
#[derive(Debug, Drop)]
pub struct ThreadList {
    pub items: Vec<ThreadNo>,
}

impl Model for ThreadList {
    ghost use Rattle.std.specs.Prelude.{List};
    ghost use Rattle.event_costs.specs.declared.numbers.ThreadNo.{ThreadNo};

    ghost Value = { List ThreadNo };

    ghost view = { λ l. l.items.items };
}
