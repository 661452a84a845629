//! Who watches a run.

ghost use Rattle.std.specs.Prelude.{◌≡◌, ◌++◌, ◌∷◌, [], ℕ, List, Option, OnOk, OnErr, IfOk};
ghost use Rattle.event_costs.specs.declared.event.Event.{Event};
ghost use Rattle.event_costs.specs.declared.numbers.ThreadNo.{ThreadNo};
ghost use Rattle.arc_costs.specs.Contents.{Listed};
ghost use Rattle.sym_map.specs.SymbolMap.{SymbolMap};
ghost use Rattle.cg_format.specs.declared.head.PartHead.{PartHead as Head};
ghost use Rattle.part_dump.specs.Calls.{Call};
ghost use Rattle.part_dump.specs.Watched.{AreWatched};
ghost use Rattle.part_dump.specs.Watching.{Can, KeepsRoom, Meaning, after_calls};

use arc_costs::TableRows;
use byte_text::{OutOfMemory, Text};
use cg_format::PartHead;
use event_costs::{Cost, Event, ThreadNo};
use sym_map::SymMap;

/// Is told of each step of a run, and writes the text of its parts. Contracts see it as plain data, its state.
pub trait Watch {
    /// the state after each call, and the text of a part
    ghost meaning: { Meaning Self };

    /// a state before any call, in a run with this map
    ghost fresh: { Self → SymbolMap → Type 0 };

    /// whether there is room for a step of a thread, so that it takes no memory
    ghost has_room: { Self → ThreadNo → Type 0 };

    /// when a step may be told, and when a part may be written
    ghost can_see: { Self → Event → List ℕ → Option ℕ → List ThreadNo → SymbolMap → Type 0 };

    ghost can_write: { Self → Head → Listed → SymbolMap → Type 0 };

    /// A thread is about to step at this pc: room is made for the step. The thread is started where it is new. After a
    /// refusal the state is as before.
    fn ready(&mut self, thread: ThreadNo, pc: u32, syms: &SymMap) -> Result<(), OutOfMemory>
        ensures ok { OnOk result (self.new ≡ meaning.after_ready self.old thread pc syms.now) }
        ensures err { OnErr result (self.new ≡ self.old) };

    /// A step was made: its event and its cost, the address at which its thread began to wait, and the threads that it
    /// woke. It takes no memory: there is room for it.
    fn seen(
        &mut self,
        event: &Event,
        cost: &Cost,
        wait: Option<u32>,
        woken: &[ThreadNo],
        syms: &SymMap,
    )
        requires { can_see self.old event.now cost.now wait woken.now syms.now }
        ensures { self.new ≡ meaning.after_seen self.old event.now cost.now wait woken.now syms.now };

    /// The text of a part with these rows. After a refusal the state is as before.
    fn part(
        &mut self,
        head: &PartHead,
        rows: &TableRows,
        syms: &SymMap,
    ) -> Result<Text, OutOfMemory>
        requires { can_write self.old head.now rows.now syms.now }
        ensures text { IfOk result (λ text. text ≡ meaning.text self.old head.now rows.now syms.now) }
        ensures ok { OnOk result (self.new ≡ meaning.after_part self.old head.now rows.now syms.now) }
        ensures err { OnErr result (self.new ≡ self.old) };

    /// `ready` makes room, and a step is told where there is room.
    ghost keeps_room: { KeepsRoom meaning has_room can_see };

    /// After each watched run from a fresh state, a call that goes on with it may be made.
    ghost lasts: { (syms : SymbolMap) (first : Self) (calls : List Call) (call : Call) → fresh first syms
        → AreWatched syms (calls ++ call ∷ []) → Can can_see can_write syms (after_calls meaning syms first calls) call };
}
