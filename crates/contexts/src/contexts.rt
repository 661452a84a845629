//! All contexts that have come up, each with a number of its own.

ghost use Rattle.std.specs.Prelude.{◌≡◌, ◌↔◌, ◌+◌, ◌<◌, ◌≤◌, [], IfOk, OnErr, OnOk, length, true};
ghost use Rattle.contexts.specs.Contexts.{context_at, number, with_context};

use crate::context::Context;
use crate::context_ref::ContextRef;
use arc_costs::KeyTree;
use byte_text::OutOfMemory;
use event_costs::ContextNo;
use std::alloc::Global;
use std::marker::Model;

/// How many contexts may come up before room is made again: that of a thread's first function, and one that is entered.
const ROOM: usize = 2;

/// Contexts in the order in which they came up, which is that of their numbers. Contracts see the list of them, and how
/// many more fit without memory.
#[derive(Drop)]
pub struct Contexts {
    alloc: Global,
    known: KeyTree<Context, ()>,
    /// How many more may come up.
    room: usize,
}

impl Model for Contexts {
    ghost use Rattle.std.specs.Prelude.{◌≤◌};
    ghost use Rattle.std.specs.Map.{keys_of};
    ghost use Rattle.contexts.specs.Contexts.{Held};

    ghost Value = { Held };

    ghost view = { λ c. record { contexts = keys_of c.known.entries; room = c.room } };

    ghost invariant = { λ c. c.room ≤ c.known.spare };
}

impl Contexts {
    /// No context has come up.
    pub fn new(alloc: Global) -> Contexts
        ensures { result.contexts ≡ [] }
    {
        Contexts {
            alloc,
            known: KeyTree::new(alloc),
            room: 0,
        }
    }

    /// Makes room for two more contexts.
    pub fn reserve(&mut self) -> Result<(), OutOfMemory>
        ensures contexts { self.new.contexts ≡ self.old.contexts }
        ensures room { OnOk result (self.new.room ≡ 2) }
        ensures err { OnErr result (self.new ≡ self.old) }
    {
        if self.room == ROOM {
            return Ok(());
        }
        self.known.reserve(ROOM)?;
        self.room = ROOM;
        Ok(())
    }

    /// Whether there is room for one more.
    pub fn has_room(&self) -> bool
        ensures { result ≡ true ↔ 1 ≤ self.now.room }
    {
        self.room > 0
    }

    /// The number that a context has, or would get.
    pub fn next_number(&self, context: &Context) -> ContextNo
        ensures { result ≡ number self.now.contexts context.now }
    {
        match self.known.index_of(context) {
            Some(index) => ContextNo(index as u64),
            None => ContextNo(self.known.len() as u64),
        }
    }

    /// The number of a context. One that hasn't come up gets the next number, and takes room.
    pub fn number_of(&mut self, context: Context) -> ContextNo
        requires { 1 ≤ self.old.room }
        ensures number { result ≡ number self.old.contexts context }
        ensures contexts { self.new.contexts ≡ with_context self.old.contexts context }
        ensures room { self.old.room ≤ self.new.room + 1 }
    {
        match self.known.index_of(&context) {
            Some(index) => ContextNo(index as u64),
            None => {
                let number = ContextNo(self.known.len() as u64);
                self.known.push(context, ()).unwrap();
                self.room -= 1;
                number
            }
        }
    }

    /// The context of this number.
    pub fn context(&self, number: ContextNo) -> Context
        requires { number.0 < length self.now.contexts }
        ensures { result ≡ context_at self.now.contexts number }
    {
        self.known.rows()[number.0 as usize].0
    }

    /// The contexts by their numbers.
    pub fn refs(&self) -> Result<Vec<ContextRef<'_>>, OutOfMemory>
        ensures { IfOk result (λ refs. refs.items ≡ self.now.contexts) }
    {
        let rows = self.known.rows();
        let mut refs = Vec::with_capacity(self.alloc, rows.len())?;
        'contexts: for row in rows {
            refs.push(row.0.as_ref())?;
        }
        Ok(refs)
    }
}
