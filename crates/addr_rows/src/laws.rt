//! What holds of every run that is watched by address.

ghost use Rattle.std.specs.Prelude.{◌≡◌, ◌++◌, ◌∷◌, [], ℕ, List, Option, IfSome};
ghost use Rattle.std.specs.List.{AllByRecursion};
ghost use Rattle.event_costs.specs.declared.numbers.ThreadNo.{ThreadNo};
ghost use Rattle.sym_map.specs.SymbolMap.{SymbolMap, is_entry_at, place_of};
ghost use Rattle.shadow_stack.specs.Traces.{EventOnStack};
ghost use Rattle.arc_costs.specs.Contents.{Listed};
ghost use Rattle.cg_format.specs.declared.head.PartHead.{PartHead};
ghost use Rattle.part_dump.specs.Calls.{Call, calls, closed_calls, steps_calls};
ghost use Rattle.part_dump.specs.Cuts.{DumpPoints, cuts};
ghost use Rattle.part_dump.specs.Steps.{Step};
ghost use Rattle.part_dump.specs.Watched.{AreWatched};
ghost use Rattle.part_dump.specs.Watching.{Can, after_calls, puts};
ghost use Rattle.addr_rows.specs.EventRows.{addr_rows_of};
ghost use Rattle.addr_rows.specs.Files.{addr_files, closed_files};
ghost use Rattle.addr_rows.specs.Stacked.{AreOn, with_stacks_of, since};
ghost use Rattle.addr_rows.specs.Translated.{translation};
ghost use Rattle.recorder.specs.Rows.{rows_of};
ghost use Rattle.sym_map.specs.AddressMap.{address_map};
ghost use Rattle.sym_map.specs.AddressMap.{address_line, no_file};
ghost use Rattle.addr_rows.specs.Telling.{CanSee, CanWrite, thread_rows};
ghost use Rattle.addr_rows.specs.States.{AddrState};
ghost use Rattle.addr_rows.specs.Watching.{IsFresh, by_address};

/// The map that tells code by its addresses has the functions and entries of the other one, and each address is its own
/// line in no file. It does nothing: its contract is a law.
pub fn addresses_are_lines()
    ensures places { (m : SymbolMap) (address : ℕ) → place_of (address_map m) address
        ≡ record { func = (place_of m address).func; file = no_file; line = address_line address } }
    ensures entries { (m : SymbolMap) (address : ℕ) → is_entry_at (address_map m) address ≡ is_entry_at m address }
{}

/// After each watched run from a fresh state, a call that goes on with it may be made. It does nothing: its contract is
/// a law.
pub fn a_call_that_goes_on_may_be_made()
    ensures { (m : SymbolMap) (first : AddrState) (told : List Call) (call : Call) → IsFresh first
        → AreWatched m (told ++ call ∷ [])
        → Can (λ w event cost wait woken n. CanSee w event cost)
        (λ w head rows n. CanWrite n (thread_rows w head.thread)) m (after_calls by_address m first told) call }
{}

/// After each watched run, the rows of a thread are those of its events since its last part, by address. It does
/// nothing: its contract is a law.
pub fn rows_are_those_of_the_events()
    ensures { (m : SymbolMap) (first : AddrState) (told : List Call) (thread : ThreadNo) → IsFresh first
        → AreWatched m told → IfSome (thread_rows (after_calls by_address m first told) thread)
        (λ rows. rows ≡ addr_rows_of m (since (address_map m) thread.0 told)) }
{}

/// The parts of a watched run have the texts of the rows by address of their events: those of the whole run, and those
/// of its cuts so far. It does nothing: its contract is a law.
pub fn parts_have_the_rows_of_their_events()
    ensures whole { (row_list : List EventOnStack → Listed) (head : PartHead) (m : SymbolMap) (base : List ℕ) (asked : DumpPoints)
        (trace : List Step) (tried : Option (ThreadNo × ℕ)) (first : AddrState) → IsFresh first
        → AreWatched m (calls row_list head m asked trace tried)
        → puts by_address m base first (calls row_list head m asked trace tried)
        ≡ addr_files head m base asked trace }
    ensures so_far { (row_list : List EventOnStack → Listed) (head : PartHead) (m : SymbolMap) (base : List ℕ)
        (asked : DumpPoints)
        (trace : List Step) (first : AddrState) → IsFresh first
        → AreWatched m (closed_calls row_list head (cuts m asked trace).closed
        ++ steps_calls (cuts m asked trace).recent)
        → puts by_address m base first (closed_calls row_list head (cuts m asked trace).closed
        ++ steps_calls (cuts m asked trace).recent)
        ≡ closed_files head m base (cuts m asked trace).closed }
{}

/// A run over the map that tells code by its addresses has the files of the run by address, where its rows get the
/// places of the map: of the whole run, and of its cuts so far. It does nothing: its contract is a law.
pub fn parts_by_an_address_map_are_those_by_address()
    ensures whole { (head : PartHead) (m : SymbolMap) (base : List ℕ) (asked : DumpPoints) (steps : List Step)
        (tried : Option (ThreadNo × ℕ)) → AreOn (address_map m) [] steps
        → puts translation (address_map m) base m
        (calls (rows_of (address_map m)) head (address_map m) asked steps tried)
        ≡ addr_files head m base asked (with_stacks_of m [] steps) }
    ensures so_far { (head : PartHead) (m : SymbolMap) (base : List ℕ) (asked : DumpPoints) (steps : List Step)
        → AreOn (address_map m) [] steps
        → puts translation (address_map m) base m
        (closed_calls (rows_of (address_map m)) head (cuts (address_map m) asked steps).closed
        ++ steps_calls (cuts (address_map m) asked steps).recent)
        ≡ closed_files head m base (cuts m asked (with_stacks_of m [] steps)).closed }
{}
