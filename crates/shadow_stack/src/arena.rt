//! The frames of all threads in one arena: each knows the key of the frame beneath it.

ghost use Rattle.std.specs.Prelude.{◌≡◌, ◌↔◌, ◌≢◌, ℕ, ◌+◌, ◌<◌, ◌≤◌, [], ◌∷◌, Some, None, OnOk, true, false, suc, ◌==◌, ◌^◌, drop};
ghost use Rattle.shadow_stack.specs.Arenas.{node_at, frames, LiesIn, ChangesChainOnly, StillLies, above};
ghost use Rattle.shadow_stack.specs.Arenas.{stack_at, links, base_in, Node, AreRestarted};
ghost use Rattle.shadow_stack.specs.Arenas.{agree, bit, first, greatest_sp, IsStep, least_sp, parts_at, same, turns_of};
ghost use Rattle.shadow_stack.specs.Entries.{beneath_entry, Forgets, Keeps, lead_key, lead_of, top_node};
ghost use Rattle.shadow_stack.specs.Changes.{down_to};
ghost use Rattle.shadow_stack.specs.declared.arena.Head.{Head as HeadValue};
ghost use Rattle.shadow_stack.specs.Frames.{activation};
ghost use Rattle.shadow_stack.specs.Kinds.{is_jump};
ghost use Rattle.shadow_stack.specs.Stacks.{is_rooted, is_top};
ghost use Rattle.slab.specs.Slab.{ContainsKey, HasRoomFor};

use crate::frame::{Frame, Kind};
use byte_text::OutOfMemory;
use event_costs::{ArcKey, Cost, FuncId};
use slab::Slab;
use std::alloc::Global;
use std::marker::Model;

/// A frame in an arena, and what it knows of the chain from it on down, which stops a search.
#[derive(Debug, Drop)]
pub struct Entry {
    pub frame: Frame,
    /// The key of the frame beneath; of no meaning in the lowest frame of a chain.
    pub below: usize,
    /// The least stack pointer of the calls, and the greatest.
    pub least: u32,
    pub greatest: u32,
    /// How many frames it has.
    pub depth: usize,
    /// The key of what a jump knows of its group; of no meaning in another frame. It stands apart, since most frames are
    /// calls.
    pub lead: usize,
}

/// What a jump knows of its group. It leads over the whole of it.
#[derive(Clone, Copy, Debug)]
pub struct Lead {
    /// The key of the frame with which the group begins.
    pub base: usize,
    /// Of the frames of its group beneath this jump, the keys of the highest one whose function parts from this one's at
    /// each level, or of the one with which the group begins where none does. A search of the group goes on there.
    pub turns: [usize; TURNS],
}

/// So many of the lowest bits of the numbers of functions tell them apart in a group.
const LEVELS: usize = 8;

/// A turn for each level, and one for those that agree at all of them.
const TURNS: usize = LEVELS + 1;

/// Whether the bits of two functions' numbers at a level are the same.
fn same_bit(a: FuncId, b: FuncId, level: usize) -> bool
    requires { level < 8 }
    ensures { result ≡ same (bit level a.0) (bit level b.0) }
{
    let first = (a.0 >> level) % 2 == 1;
    let second = (b.0 >> level) % 2 == 1;
    first == second
}

/// The level at which the numbers of two functions part; the last one, if they don't.
fn parting(a: FuncId, b: FuncId) -> usize
    ensures parts { parts_at result a.0 b.0 ≡ true }
    ensures within { result ≤ 8 }
{
    let mut level = 0;
    'levels: while level < LEVELS {
        if !same_bit(a, b, level) {
            return level;
        }
        level += 1;
    }
    level
}

/// A level of the turns of a new jump: the key of the frame that parts from it there, and the chain from the highest one
/// on that agrees with it there; either is where the group begins where there is none.
#[derive(Clone, Copy)]
struct Step {
    turn: usize,
    next: Head,
}

/// A chain of frames in an arena: the key of its top frame, and how many frames there are.
#[derive(Clone, Copy, Debug)]
pub struct Head {
    /// Of no meaning where there are no frames.
    pub top: usize,
    pub depth: usize,
}

impl Head {
    /// A chain without frames.
    pub(crate) const EMPTY: Head = Head { top: 0, depth: 0 };

    /// What is beneath the top, whose entry this is.
    pub fn beneath(self, entry: &Entry) -> Head
        requires { 0 < self.depth }
        ensures { result ≡ beneath_entry self entry.now }
    {
        Head {
            top: entry.below,
            depth: self.depth - 1,
        }
    }

    /// With a frame at this key on top.
    fn above(self, key: usize) -> Head
        requires { self.depth + 1 < 2 ^ 64 }
        ensures { result ≡ above self key }
    {
        Head {
            top: key,
            depth: self.depth + 1,
        }
    }
}

/// Frames of any number of chains. Contracts see the node or nothing at each key, and how many more fit without memory.
#[derive(Drop)]
pub struct Arena {
    entries: Slab<Entry>,
    leads: Slab<Lead>,
    /// So many frames of any kind fit without memory.
    room: usize,
}

/// Keeps what a frame that is put on a chain knows of its group, under the vacant key.
fn keep(leads: &mut Slab<Lead>, lead: Option<Lead>)
    requires { HasRoomFor leads.old 1 }
    ensures { Keeps lead leads.old leads.new }
{
    if let Some(lead) = lead {
        leads.insert_reserved(lead);
    }
}

/// Forgets what a frame that is taken off a chain knew of its group.
fn forget(leads: &mut Slab<Lead>, entry: &Entry)
    requires { is_jump entry.now.frame.kind ≡ true → ContainsKey leads.old entry.now.lead }
    ensures { Forgets (lead_key entry.now) leads.old leads.new }
{
    if entry.frame.kind.is_jump() {
        leads.remove(entry.lead);
    }
}

impl Model for Arena {
    ghost use Rattle.std.specs.Prelude.{◌-◌, ◌≤◌};
    ghost use Rattle.slab.specs.Slab.{slab_len};
    ghost use Rattle.shadow_stack.specs.Arenas.{Nodes};
    ghost use Rattle.shadow_stack.specs.Entries.{AreKept, nodes_with};

    ghost Value = { Nodes };

    ghost view = { λ a. record {
      slots = nodes_with a.leads.slots a.entries.slots;
      spare = a.room - slab_len a.entries;
    } };

    ghost invariant = { λ a. AreKept a.leads a.entries a.room };
}

impl Arena {
    /// An arena without frames and without room. It takes no memory.
    pub fn new(alloc: Global) -> Arena
        ensures none { result.slots ≡ [] }
        ensures room { result.spare ≡ 0 }
    {
        Arena {
            entries: Slab::new(alloc),
            leads: Slab::new(alloc),
            room: 0,
        }
    }

    /// Whether there is room for one more frame.
    #[inline(always)]
    pub fn has_room(&self) -> bool
        ensures { result ≡ true ↔ 1 ≤ self.now.spare }
    {
        self.entries.len() < self.room
    }

    /// Makes room for one more frame.
    pub fn reserve(&mut self) -> Result<(), OutOfMemory>
        ensures room { OnOk result (1 ≤ self.new.spare) }
        ensures kept { self.old.spare ≤ self.new.spare }
        ensures same { self.new.slots ≡ self.old.slots }
    {
        if self.has_room() {
            return Ok(());
        }
        self.entries.reserve(1)?;
        let most = self.entries.capacity();
        self.leads.reserve(most - self.leads.len())?;
        self.room = most;
        Ok(())
    }

    /// A new chain of one frame, a root of this function that begins at this cost. It takes no memory.
    pub fn root(&mut self, func: FuncId, total: &Cost) -> Head
        requires room { 1 ≤ self.old.spare }
        ensures lies { LiesIn self.new.slots result }
        ensures frames { frames self.new.slots result
            ≡ record { func = func; from = None; kind = Kind.Root; start = total.now } ∷ [] }
        ensures depth { result.depth ≡ 1 }
        ensures vacant { node_at self.old.slots result.top ≡ None }
        ensures others { (key : ℕ) → key ≢ result.top → node_at self.new.slots key ≡ node_at self.old.slots key }
        ensures apart { (other : HeadValue) → LiesIn self.old.slots other
            → StillLies self.old.slots self.new.slots result other }
        ensures room { self.new.spare + 1 ≡ self.old.spare }
    {
        let frame = Frame {
            func,
            from: None,
            kind: Kind::Root,
            start: *total,
        };
        self.push(Head::EMPTY, frame)
    }

    /// The entry of the top frame.
    pub(crate) fn top(&self, head: Head) -> &Entry
        requires lies { LiesIn self.now.slots head }
        requires some { 0 < head.depth }
        ensures node { node_at self.now.slots head.top ≡ Some (top_node self.now.slots head result.now) }
        ensures frames { frames self.now.slots head
            ≡ result.now.frame ∷ frames self.now.slots (beneath_entry head result.now) }
        ensures beneath { LiesIn self.now.slots (beneath_entry head result.now) }
        ensures least { result.now.least ≡ least_sp (frames self.now.slots head) }
        ensures greatest { result.now.greatest ≡ greatest_sp (frames self.now.slots head) }
    {
        &self.entries[head.top]
    }

    /// What the top frame, a jump, knows of its group.
    fn lead(&self, head: Head) -> &Lead
        requires { (node : Node) × (node_at self.now.slots head.top ≡ Some node) × (is_jump node.frame.kind ≡ true) }
        ensures base { (node : Node) → node_at self.now.slots head.top ≡ Some node
            → result.now.base ≡ node.summary.base }
        ensures turns { (node : Node) → node_at self.now.slots head.top ≡ Some node
            → result.now.turns ≡ node.summary.turns }
    {
        &self.leads[self.entries[head.top].lead]
    }

    /// The chain from the frame at this key on.
    fn chain_from(&self, key: usize) -> Head
        requires { (head : HeadValue) × LiesIn self.now.slots head × (0 < head.depth) × (head.top ≡ key) }
        ensures { (head : HeadValue) → LiesIn self.now.slots head → 0 < head.depth → head.top ≡ key → result ≡ head }
    {
        Head {
            top: key,
            depth: self.entries[key].depth,
        }
    }

    /// The chain from the first frame of the innermost group on.
    pub(crate) fn base(&self, head: Head) -> Head
        requires lies { LiesIn self.now.slots head }
        requires some { 0 < head.depth }
        ensures { result ≡ base_in (links self.now.slots head) }
    {
        let entry = self.top(head);
        if entry.frame.kind.is_jump() {
            self.chain_from(self.lead(head).base)
        } else {
            head
        }
    }

    /// What a frame of this kind and function on a chain knows of its group.
    fn lead_of(&self, head: Head, kind: Kind, func: FuncId) -> Option<Lead>
        requires lies { LiesIn self.now.slots head }
        requires rooted { is_jump kind ≡ true → 0 < head.depth }
        ensures { result ≡ lead_of kind func.0 (links self.now.slots head) }
    {
        if !kind.is_jump() {
            return None;
        }
        Some(Lead {
            base: self.base(head).top,
            turns: self.turns(head, func),
        })
    }

    /// The least stack pointer of the calls of a chain, and the greatest.
    fn bounds(&self, head: Head) -> (u32, u32)
        requires { LiesIn self.now.slots head }
        ensures least { result.0 ≡ least_sp (frames self.now.slots head) }
        ensures greatest { result.1 ≡ greatest_sp (frames self.now.slots head) }
    {
        if head.depth == 0 {
            return (u32::MAX, 0);
        }
        let entry = self.top(head);
        (entry.least, entry.greatest)
    }

    /// The turns of a jump of this function on a chain.
    fn turns(&self, head: Head, func: FuncId) -> [usize; TURNS]
        requires lies { LiesIn self.now.slots head }
        requires some { 0 < head.depth }
        ensures { result ≡ turns_of Kind.Jump func.0 (links self.now.slots head) }
    {
        let mut turns = [0; TURNS];
        let mut at = head;
        'levels: for level in 0..LEVELS {
            let step = self.step(at, level, func);
            turns[level] = step.turn;
            at = step.next;
        }
        turns[LEVELS] = at.top;
        turns
    }

    /// A level of them, from the highest frame on that agrees with the function below it.
    fn step(&self, at: Head, level: usize, func: FuncId) -> Step
        requires lies { LiesIn self.now.slots at }
        requires some { 0 < at.depth }
        requires level { level < 8 }
        requires found { first (agree level func.0) (links self.now.slots at) ≡ at }
        ensures { IsStep self.now.slots func.0 level at result.turn result.next }
    {
        let entry = self.top(at);
        if !entry.frame.kind.is_jump() {
            return Step {
                turn: at.top,
                next: at,
            };
        }
        let turn = self.lead(at).turns[level];
        if same_bit(func, entry.frame.func, level) {
            Step { turn, next: at }
        } else {
            Step {
                turn: at.top,
                next: self.chain_from(turn),
            }
        }
    }

    /// Where the search of a group goes on for a function that isn't the top's; no frames where it ends.
    pub(crate) fn turn(&self, at: Head, func: FuncId) -> Head
        requires lies { LiesIn self.now.slots at }
        requires some { 0 < at.depth }
        requires other { is_top func (stack_at self.now.slots at) ≡ false }
        ensures lies { LiesIn self.now.slots result }
        ensures found { down_to func (stack_at self.now.slots result) ≡ down_to func (stack_at self.now.slots at) }
        ensures shorter { result.depth < at.depth }
    {
        let entry = self.top(at);
        if !entry.frame.kind.is_jump() {
            return Head::EMPTY;
        }
        let level = parting(entry.frame.func, func);
        self.chain_from(self.lead(at).turns[level])
    }

    /// Puts a frame on a chain.
    pub(crate) fn push(&mut self, head: Head, frame: Frame) -> Head
        requires room { 1 ≤ self.old.spare }
        requires lies { LiesIn self.old.slots head }
        requires rooted { is_rooted (activation frame ∷ stack_at self.old.slots head) ≡ true }
        ensures lies { LiesIn self.new.slots result }
        ensures frames { frames self.new.slots result ≡ frame ∷ frames self.old.slots head }
        ensures depth { result.depth ≡ head.depth + 1 }
        ensures vacant { node_at self.old.slots result.top ≡ None }
        ensures others { (key : ℕ) → key ≢ result.top → node_at self.new.slots key ≡ node_at self.old.slots key }
        ensures chain { ChangesChainOnly self.old.slots head self.new.slots result }
        ensures room { self.new.spare + 1 ≡ self.old.spare }
    {
        prove!(self.entries.len() < self.room);
        let (least, greatest) = self.bounds(head);
        let lead = self.lead_of(head, frame.kind, frame.func);
        // Named, so that the checker knows its type.
        let from: Option<ArcKey> = frame.from;
        let entry = Entry {
            frame: Frame { from, ..frame },
            below: head.top,
            least: frame.kind.least_with(least),
            greatest: frame.kind.greatest_with(greatest),
            depth: head.depth + 1,
            lead: self.leads.vacant_key(),
        };
        let key = self.entries.insert_reserved(entry);
        keep(&mut self.leads, lead);
        head.above(key)
    }

    /// Takes the top frame off a chain.
    pub(crate) fn pop(&mut self, head: Head) -> Head
        requires lies { LiesIn self.old.slots head }
        requires some { 0 < head.depth }
        ensures lies { LiesIn self.new.slots result }
        ensures frames { frames self.new.slots result ≡ drop 1 (frames self.old.slots head) }
        ensures depth { result.depth + 1 ≡ head.depth }
        ensures chain { ChangesChainOnly self.old.slots head self.new.slots result }
        ensures room { self.new.spare ≡ self.old.spare + 1 }
    {
        let entry = self.entries.remove(head.top);
        forget(&mut self.leads, &entry);
        head.beneath(&entry)
    }

    /// Gives the top frame another start.
    pub(crate) fn restart_top(&mut self, head: Head, total: &Cost)
        requires lies { LiesIn self.old.slots head }
        requires some { 0 < head.depth }
        ensures nodes { AreRestarted (λ key. key == head.top) total.now self.old.slots self.new.slots }
        ensures room { self.new.spare ≡ self.old.spare }
    {
        let entry = &mut self.entries[head.top];
        entry.frame.start = *total;
    }
}
