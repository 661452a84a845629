//! What holds of every run that is watched by calling context.

ghost use Rattle.std.specs.Prelude.{◌≡◌, ◌++◌, ◌∷◌, [], ℕ, List, Option, true};
ghost use Rattle.std.specs.List.{AllByRecursion};
ghost use Rattle.event_costs.specs.declared.numbers.ThreadNo.{ThreadNo};
ghost use Rattle.sym_map.specs.SymbolMap.{SymbolMap};
ghost use Rattle.shadow_stack.specs.Traces.{EventOnStack};
ghost use Rattle.arc_costs.specs.Contents.{Listed};
ghost use Rattle.cg_format.specs.declared.head.PartHead.{PartHead};
ghost use Rattle.part_dump.specs.Calls.{Call, calls, closed_calls, steps_calls};
ghost use Rattle.part_dump.specs.Cuts.{DumpPoints, cuts};
ghost use Rattle.part_dump.specs.Steps.{Step};
ghost use Rattle.part_dump.specs.Watched.{AreWatched, steps_in};
ghost use Rattle.part_dump.specs.Watching.{Can, after_calls, puts};
ghost use Rattle.recorder.specs.Rows.{rows_of};
ghost use Rattle.ctx_rows.specs.Folding.{AreSumsOf, plain};
ghost use Rattle.ctx_rows.specs.Rows.{ctx_rows_of};
ghost use Rattle.ctx_rows.specs.Files.{closed_files, ctx_files};
ghost use Rattle.ctx_rows.specs.Telling.{CanSee, CanWrite, rows_in};
ghost use Rattle.ctx_rows.specs.Since.{StandsOn, since};
ghost use Rattle.ctx_rows.specs.States.{CtxState, knows};
ghost use Rattle.ctx_rows.specs.Watching.{IsFresh, by_context};

/// After each watched run from a fresh state, a call that goes on with it may be made. It does nothing: its contract is
/// a law.
pub fn a_call_that_goes_on_may_be_made()
    ensures { (syms : SymbolMap) (first : CtxState) (told : List Call) (call : Call) → IsFresh first
        → AreWatched syms (told ++ call ∷ [])
        → Can (λ w event cost wait woken m. CanSee w event cost) (λ w head rows m. CanWrite w head.thread m) syms
        (after_calls by_context syms first told) call }
{}

/// After each watched run, the rows of a thread are those of its events since its last part, by calling context. It
/// does nothing: its contract is a law.
pub fn rows_are_those_of_the_events()
    ensures { (syms : SymbolMap) (first : CtxState) (told : List Call) (thread : ThreadNo) → IsFresh first
        → AreWatched syms told → knows (after_calls by_context syms first told) thread ≡ true
        → rows_in (after_calls by_context syms first told) thread
        ≡ ctx_rows_of first.callers syms (since thread.0 told) }
{}

/// The parts of a watched run have the texts of the rows by context of their events: those of the whole run, and those
/// of its cuts so far. It does nothing: its contract is a law.
pub fn parts_have_the_rows_of_their_events()
    ensures whole { (row_list : List EventOnStack → Listed) (head : PartHead) (syms : SymbolMap) (base : List ℕ) (asked : DumpPoints)
        (trace : List Step) (tried : Option (ThreadNo × ℕ)) (first : CtxState) → IsFresh first
        → AreWatched syms (calls row_list head syms asked trace tried)
        → puts by_context syms base first (calls row_list head syms asked trace tried)
        ≡ ctx_files first.callers head syms base asked trace }
    ensures so_far { (row_list : List EventOnStack → Listed) (head : PartHead) (syms : SymbolMap) (base : List ℕ)
        (asked : DumpPoints)
        (trace : List Step) (first : CtxState) → IsFresh first
        → AreWatched syms (closed_calls row_list head (cuts syms asked trace).closed
        ++ steps_calls (cuts syms asked trace).recent)
        → puts by_context syms base first (closed_calls row_list head (cuts syms asked trace).closed
        ++ steps_calls (cuts syms asked trace).recent)
        ≡ closed_files first.callers head syms base (cuts syms asked trace).closed }
{}

/// The events of each watched run stand on their stacks. It does nothing: its contract is a law.
pub fn events_stand_on_their_stacks()
    ensures { (syms : SymbolMap) (told : List Call) → AreWatched syms told
        → AllByRecursion (λ (x : Step). StandsOn syms x.on_stack) (steps_in told) }
{}

/// The rows of events by context fold back to their plain rows. It does nothing: its contract is a law.
pub fn rows_fold_back_to_the_plain_ones()
    ensures { (callers : ℕ) (syms : SymbolMap) (xs : List EventOnStack) (rows : Listed) → AllByRecursion (StandsOn syms) xs
        → AreSumsOf (plain (ctx_rows_of callers syms xs)) rows → rows ≡ rows_of syms xs }
{}
