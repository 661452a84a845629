//! What is kept of the waits of all threads.

ghost use Rattle.std.specs.Prelude.{◌≡◌, ◌+◌, ◌*◌, ◌<◌, ◌≤◌, ◌^◌, List, ℕ, IfOk, IfSome, filter, length, map};
ghost use Rattle.std.specs.List.{IsDistinct};
ghost use Rattle.std.specs.List.Sorted.{IsSorted};
ghost use Rattle.std.specs.Map.{keys_of};
ghost use Rattle.arc_costs.specs.Digits.{digit_of, spread};
ghost use Rattle.arc_costs.specs.inner.Exact.{few_digits};
ghost use Rattle.part_dump.specs.Steps.{Step};
ghost use Rattle.wait_report.specs.Keeping.{begins, nothing, open_of, spot, sum_of, times_of, wakes};
ghost use Rattle.wait_report.specs.Rows.{row_at, spots_of, wait_rows, wakers_at};
ghost use Rattle.wait_report.specs.Standing.{StandsFor};
ghost use Rattle.wait_report.specs.inner.Lookups.{spot_tells, wake_tells};
ghost use Rattle.wait_report.specs.inner.Room.{AreInOrder, CanEnd, HasRoom, HasRoomForStep, IsSound, is_wake_of};
ghost use Rattle.wait_report.specs.inner.Room.{books_of, only_at, waker_in, wake_order};

use crate::rows::{WaitRow, WaitRows, Waker, WakerList};
use crate::tally::{put, value_of};
use arc_costs::{Digits, KeyTree, digit_of, spread};
use byte_text::OutOfMemory;
use event_costs::{Cost, ThreadNo};
use indexmap::IndexMap;
use std::alloc::Global;

/// A thread, and the address of a word at which it has waited.
#[derive(Clone, Copy, Debug, PartialEq, Eq, PartialOrd, Ord)]
pub struct Spot {
    pub thread: ThreadNo,
    pub word: u32,
}

/// A spot, and a thread that has ended a wait there.
#[derive(Clone, Copy, Debug, PartialEq, Eq, PartialOrd, Ord)]
pub struct Wake {
    pub spot: Spot,
    pub waker: ThreadNo,
}

impl Digits for Spot {
    ghost digit = { λ spot n. digit_of (spread (spot.thread.0 + spot.word * 2 ^ 32)) n };

    ghost few = { λ spot n. few_digits (spread (spot.thread.0 + spot.word * 2 ^ 32)) n };

    ghost exact = { spot_tells.alike };

    fn digit(&self, place: usize) -> usize {
        let number = u128::from(self.thread.0) + (u128::from(self.word) << 32);
        digit_of(spread(number), place)
    }
}

impl Digits for Wake {
    ghost digit = { λ wake n. digit_of (spread (wake.spot.thread.0 + wake.waker.0 * 2 ^ 32
        + wake.spot.word * 2 ^ 64)) n };

    ghost few = { λ wake n. few_digits (spread (wake.spot.thread.0 + wake.waker.0 * 2 ^ 32
        + wake.spot.word * 2 ^ 64)) n };

    ghost exact = { wake_tells.alike };

    fn digit(&self, place: usize) -> usize {
        let threads = u64::from(self.spot.thread.0) + (u64::from(self.waker.0) << 32);
        let number = u128::from(threads) + (u128::from(self.spot.word) << 64);
        digit_of(spread(number), place)
    }
}

/// A wait that nobody has ended: its word, and the cost of all events up to the one in which it began.
#[derive(Clone, Copy, Debug)]
pub struct Open {
    pub word: u32,
    pub start: Cost,
}

/// The waits at a spot: how many began, and the cost of those that were ended.
#[derive(Clone, Copy, Debug)]
pub struct Sum {
    pub waits: u64,
    pub cost: Cost,
}

/// The running total of all events, the open waits, and the sums of all waits.
#[derive(Drop)]
pub struct Books {
    /// The cost of all events so far.
    pub total: Cost,
    /// Of each thread that has waited, its open wait.
    pub waiting: IndexMap<ThreadNo, Option<Open>>,
    pub sums: KeyTree<Spot, Sum>,
    /// How many waits at a spot a thread has ended.
    pub wakes: KeyTree<Wake, u64>,
}

/// The keys of a tally, in the order in which they came.
fn keys_listed<K: Digits, V: Copy>(tally: &KeyTree<K, V>) -> Result<Vec<K>, OutOfMemory>
    ensures keys { IfOk result (λ v. v.items ≡ keys_of tally.now.entries) }
    ensures apart { IsDistinct K.eq (keys_of tally.now.entries) }
{
    let listed = tally.rows();
    let mut keys = Vec::with_capacity(tally.allocator(), listed.len())?;
    'keys: for (key, _) in listed {
        keys.push(*key)?;
    }
    Ok(keys)
}

/// Those of the wakes that are at a spot.
fn wakes_at(wakes: &[Wake], spot: Spot) -> &[Wake]
    requires { IsSorted wake_order wakes.now }
    ensures { result.now ≡ filter (is_wake_of spot) wakes.now }
{
    let start = wakes.partition_point(|wake| wake.spot < spot);
    let end = wakes.partition_point(|wake| wake.spot <= spot);
    &wakes[start..end]
}

impl Books {
    /// Nothing has happened. It takes no memory.
    pub fn new(alloc: Global) -> Books
        ensures { books_of result ≡ nothing }
    {
        Books {
            total: Cost::ZERO,
            waiting: IndexMap::new(alloc),
            sums: KeyTree::new(alloc),
            wakes: KeyTree::new(alloc),
        }
    }

    /// Makes room for one more wait, and for a wake of every thread that has waited: for how many rows.
    pub fn reserve(&mut self) -> Result<usize, OutOfMemory>
        ensures kept { books_of self.new ≡ books_of self.old }
        ensures rows { IfOk result (λ rows. rows ≡ length (books_of self.old).waiting + 1) }
        ensures room { IfOk result (λ rows. HasRoom rows self.new) }
        ensures stays { (rows : ℕ) → HasRoom rows self.old → HasRoom rows self.new }
    {
        let rows = self.waiting.len() + 1;
        self.waiting.reserve(rows)?;
        self.sums.reserve(rows)?;
        self.wakes.reserve(rows)?;
        Ok(rows)
    }

    /// The open wait of a thread.
    fn open_of(&self, thread: ThreadNo) -> Option<Open>
        ensures { result ≡ open_of thread (books_of self.now) }
    {
        match self.waiting.get(&thread) {
            Some(held) => *held,
            None => None,
        }
    }

    fn sum_of(&self, spot: Spot) -> Sum
        ensures { result ≡ sum_of spot (books_of self.now) }
    {
        match value_of(&self.sums, &spot) {
            Some(sum) => sum,
            None => Sum {
                waits: 0,
                cost: Cost::ZERO,
            },
        }
    }

    fn times_of(&self, wake: Wake) -> u64
        ensures { result ≡ times_of wake (books_of self.now) }
    {
        match value_of(&self.wakes, &wake) {
            Some(times) => times,
            None => 0,
        }
    }

    /// A thread begins to wait.
    pub fn begin(&mut self, thread: ThreadNo, word: u32)
        requires room { HasRoom 1 self.old }
        requires fits { (sum_of (spot thread word) (books_of self.old)).waits + 1 < 2 ^ 64 }
        ensures { books_of self.new ≡ begins thread word (books_of self.old) }
    {
        let spot = Spot { thread, word };
        let mut sum = self.sum_of(spot);
        sum.waits += 1;
        let begun = Open {
            word,
            start: self.total,
        };
        self.waiting.insert(thread, Some(begun)).unwrap();
        put(&mut self.sums, spot, sum).unwrap();
    }

    /// A thread is woken by another: its open wait ends, if it has one.
    pub fn wake(&mut self, thread: ThreadNo, waker: ThreadNo)
        requires room { HasRoomForStep self.old }
        requires fits { IfSome (open_of thread (books_of self.old)) (CanEnd (books_of self.old) waker thread) }
        ensures kept { books_of self.new ≡ wakes waker (books_of self.old) thread }
        ensures room { HasRoomForStep self.new }
    {
        let Some(held) = self.open_of(thread) else {
            return;
        };
        let spot = Spot {
            thread,
            word: held.word,
        };
        let wake = Wake { spot, waker };
        let mut sum = self.sum_of(spot);
        sum.cost.add(&self.total.minus(&held.start));
        let times = self.times_of(wake) + 1;
        self.waiting.insert(thread, None).unwrap();
        put(&mut self.sums, spot, sum).unwrap();
        put(&mut self.wakes, wake, times).unwrap();
    }

    /// The open wait at a spot.
    fn open_at(&self, spot: Spot) -> Option<Open>
        ensures { result ≡ only_at spot.word (open_of spot.thread (books_of self.now)) }
    {
        match self.open_of(spot.thread) {
            Some(held) if held.word == spot.word => Some(held),
            _ => None,
        }
    }

    /// The wakes by rising spot and waker.
    fn wakes(&self) -> Result<Vec<Wake>, OutOfMemory>
        ensures { IfOk result (λ wakes. AreInOrder (books_of self.now) wakes.items) }
    {
        let mut wakes = keys_listed(&self.wakes)?;
        wakes.sort()?;
        Ok(wakes)
    }

    /// The wakers of these wakes, each with how many waits at the spot it has ended.
    fn with_times(&self, spot: Spot, wakes: &[Wake]) -> Result<WakerList, OutOfMemory>
        ensures { IfOk result (λ wakers.
            wakers ≡ map (λ wake. waker_in spot (books_of self.now) wake.waker) wakes.now) }
    {
        let mut items = Vec::with_capacity(self.wakes.allocator(), wakes.len())?;
        'wakes: for wake in wakes {
            let waker = wake.waker;
            items.push(Waker {
                thread: waker,
                times: self.times_of(Wake { spot, waker }),
            })?;
        }
        Ok(WakerList { items })
    }

    /// The threads that have ended waits at a spot, by rising number, each with how many it has ended.
    fn wakers(&self, spot: Spot, wakes: &[Wake]) -> Result<WakerList, OutOfMemory>
        requires { AreInOrder (books_of self.now) wakes.now }
        ensures { (xs : List Step) → StandsFor (books_of self.now) xs
            → IfOk result (λ wakers. wakers ≡ wakers_at spot xs) }
    {
        self.with_times(spot, wakes_at(wakes, spot))
    }

    /// The row of a spot.
    fn row(&self, spot: Spot, wakes: &[Wake]) -> Result<WaitRow, OutOfMemory>
        requires sound { IsSound (books_of self.now) }
        requires wakes { AreInOrder (books_of self.now) wakes.now }
        ensures { (xs : List Step) → StandsFor (books_of self.now) xs → IfOk result (λ row. row ≡ row_at xs spot) }
    {
        let wakers = self.wakers(spot, wakes)?;
        let sum = self.sum_of(spot);
        let Some(held) = self.open_at(spot) else {
            return Ok(WaitRow {
                thread: spot.thread,
                word: spot.word,
                waits: sum.waits,
                unwoken: false,
                cost: sum.cost,
                wakers,
            });
        };
        let mut cost = sum.cost;
        cost.add(&self.total.minus(&held.start));
        Ok(WaitRow {
            thread: spot.thread,
            word: spot.word,
            waits: sum.waits,
            unwoken: true,
            cost,
            wakers,
        })
    }

    /// The spots by rising thread and word.
    fn spots(&self) -> Result<Vec<Spot>, OutOfMemory>
        ensures { (xs : List Step) → StandsFor (books_of self.now) xs
            → IfOk result (λ spots. spots.items ≡ spots_of xs) }
    {
        let mut spots = keys_listed(&self.sums)?;
        spots.sort()?;
        Ok(spots)
    }

    /// The rows of all spots.
    pub fn rows(&self) -> Result<WaitRows, OutOfMemory>
        requires { IsSound (books_of self.now) }
        ensures { (xs : List Step) → StandsFor (books_of self.now) xs → IfOk result (λ rows. rows ≡ wait_rows xs) }
    {
        let spots = self.spots()?;
        let wakes = self.wakes()?;
        let mut rows = Vec::new(self.sums.allocator());
        'rows: for spot in &spots {
            rows.push(self.row(*spot, &wakes)?)?;
        }
        Ok(WaitRows { rows })
    }
}
