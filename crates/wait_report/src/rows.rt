//! The rows of a report on waiting.

use event_costs::{Cost, ThreadNo};
use std::marker::Model;

/// A thread, and how many waits of a row it ended.
#[derive(Clone, Copy, Debug)]
pub struct Waker {
    pub thread: ThreadNo,
    pub times: u64,
}

/// Wakers by rising thread. Contracts see the list of them.
#[derive(Debug, Drop)]
pub struct WakerList {
    pub items: Vec<Waker>,
}

impl Model for WakerList {
    ghost use Rattle.std.specs.Prelude.{List};
    ghost use Rattle.wait_report.specs.declared.rows.Waker.{Waker};

    ghost Value = { List Waker };

    ghost view = { λ l. l.items.items };
}

/// The waits of one thread at one word.
#[derive(Debug, Drop)]
pub struct WaitRow {
    pub thread: ThreadNo,
    /// The address of the word.
    pub word: u32,
    pub waits: u64,
    /// Whether one of the waits is open: nobody has woken the thread since.
    pub unwoken: bool,
    /// What all events cost that passed during the waits.
    pub cost: Cost,
    pub wakers: WakerList,
}

/// Rows by rising thread and word. Contracts see the list of them.
#[derive(Debug, Drop)]
pub struct WaitRows {
    pub rows: Vec<WaitRow>,
}

impl Model for WaitRows {
    ghost use Rattle.std.specs.Prelude.{List};
    ghost use Rattle.wait_report.specs.declared.rows.WaitRow.{WaitRow};

    ghost Value = { List WaitRow };

    ghost view = { λ r. r.rows.items };
}
