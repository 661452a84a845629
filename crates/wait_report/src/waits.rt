//! The watch that counts what waiting costs.

ghost use Rattle.std.specs.Prelude.{◌≡◌, List, IfOk};
ghost use Rattle.part_dump.specs.Steps.{Step};
ghost use Rattle.cg_format.specs.Part.{AreKnown};
ghost use Rattle.wait_report.specs.Keeping.{IsRoomy, is_quiet, nothing, wakes_all, watching};
ghost use Rattle.wait_report.specs.Rows.{wait_rows};
ghost use Rattle.wait_report.specs.Standing.{CanSee, StandsFor};
ghost use Rattle.wait_report.specs.inner.Law.{watching_keeps_room, watching_lasts};
ghost use Rattle.wait_report.specs.inner.Room.{HasPassed, HasRoomForStep, books_of};

use crate::books::Books;
use crate::rows::WaitRows;
use arc_costs::TableRows;
use byte_text::{OutOfMemory, Text};
use cg_format::{PartHead, write_part};
use event_costs::{Cost, Event, ThreadNo};
use part_dump::Watch;
use std::alloc::Global;
use std::marker::Model;
use sym_map::SymMap;

/// Counts what passes while threads wait.
#[derive(Drop)]
pub struct Waits {
    alloc: Global,
    books: Books,
    /// How many rows more each table of the books takes without memory.
    room: usize,
}

impl Model for Waits {
    ghost use Rattle.wait_report.specs.Keeping.{WaitState};
    ghost use Rattle.wait_report.specs.inner.Room.{HasRoom, IsSound, books_of};

    ghost Value = { WaitState };

    ghost view = { λ w. record { books = books_of w.books; room = w.room } };

    ghost invariant = { λ w. IsSound (books_of w.books) × HasRoom w.room w.books };
}

impl Waits {
    /// A watch before any call. It takes no memory.
    pub fn new(alloc: Global) -> Waits
        ensures { result ≡ record { books = nothing; room = 0 } }
    {
        Waits {
            alloc,
            books: Books::new(alloc),
            room: 0,
        }
    }

    /// The waits of each thread at each word so far, by rising thread and word.
    pub fn rows(&self) -> Result<WaitRows, OutOfMemory>
        ensures { (xs : List Step) → StandsFor self.now.books xs → IfOk result (λ rows. rows ≡ wait_rows xs) }
    {
        self.books.rows()
    }
}

/// Whether a step began no wait and woke nobody.
fn is_quiet(wait: Option<u32>, woken: &[ThreadNo]) -> bool
    ensures { result ≡ is_quiet wait woken.now }
{
    wait.is_none() && woken.is_empty()
}

/// Each of these threads is woken by another, one after another. It is called seldom.
#[cold]
#[inline(never)]
fn wake_all(books: &mut Books, woken: &[ThreadNo], waker: ThreadNo)
    requires room { HasRoomForStep books.old }
    requires passed { HasPassed (books_of books.old) waker }
    ensures kept { books_of books.new ≡ wakes_all waker woken.now (books_of books.old) }
    ensures room { HasRoomForStep books.new }
{
    'woken: for thread in woken {
        books.wake(*thread, waker);
    }
}

impl Watch for Waits {
    ghost meaning = { watching };

    ghost fresh = { λ w syms. w.books ≡ nothing };

    ghost has_room = { λ w thread. IsRoomy w };

    ghost can_see = { CanSee };

    ghost can_write = { λ w head rows syms. AreKnown syms rows };

    ghost keeps_room = { watching_keeps_room };

    ghost lasts = { watching_lasts };

    #[inline(always)]
    fn ready(&mut self, _thread: ThreadNo, _pc: u32, _syms: &SymMap) -> Result<(), OutOfMemory> {
        if self.room <= self.books.waiting.len() {
            self.room = self.books.reserve()?;
        }
        Ok(())
    }

    #[inline(always)]
    fn seen(
        &mut self,
        event: &Event,
        cost: &Cost,
        wait: Option<u32>,
        woken: &[ThreadNo],
        _syms: &SymMap,
    ) {
        self.books.total.add(cost);
        if is_quiet(wait, woken) {
            return;
        }
        // What is left is not looked up here, but when room is made for the next step.
        self.room = 0;
        wake_all(&mut self.books, woken, event.thread);
        if let Some(word) = wait {
            self.books.begin(event.thread, word);
        }
    }

    fn part(
        &mut self,
        head: &PartHead,
        rows: &TableRows,
        syms: &SymMap,
    ) -> Result<Text, OutOfMemory> {
        write_part(self.alloc, head, rows, syms)
    }
}
