//! The parts of a trace, written and read again.

ghost use Rattle.std.specs.Prelude.{List, Option, ℕ, All, Contains};
ghost use Rattle.sym_map.specs.SymbolMap.{IsSound, SymbolMap};
ghost use Rattle.shadow_stack.specs.Traces.{CountedEvent, EventOnStack, events_on_stacks};
ghost use Rattle.arc_costs.specs.Contents.{Listed};
ghost use Rattle.recorder.specs.Standing.{AreRowsOf};
ghost use Rattle.cg_format.specs.declared.head.PartHead.{PartHead};
ghost use Rattle.cg_read.specs.Profiles.{Contents, IsProfile};
ghost use Rattle.once_each.specs.Orderly.{IsRunSized};
ghost use Rattle.once_each.specs.Parts.{ArePartsOfTrace, ThreadRows};
ghost use Rattle.once_each.specs.Texts.{IsReadOf};
ghost use Rattle.reads_back.specs.Joined.{AreWhole, rows_of_parts};
ghost use Rattle.reads_back.specs.Rows.{AreWritable, IsOfRows, naming};

/// The rows of any events of a trace, of which there are no more and no greater ones than a run has, can be written:
/// they are of the map, and no number of theirs passes 64 bits.
pub fn rows_of_a_run_can_be_written()
    ensures { (m : SymbolMap) (trace : List CountedEvent) (xs : List EventOnStack) (rows : Listed) → IsSound m
        → All (Contains (events_on_stacks m trace)) xs → IsRunSized xs → AreRowsOf m xs rows → AreWhole rows → AreWritable m rows }
{}

/// A profile of all rows of a trace's parts is what the laws on a trace's profiles speak of: so the groups of the trace
/// and the sums over them go over to it.
pub fn profiles_of_all_rows_are_read_of_the_trace()
    ensures { (head : PartHead) (command : Option (List ℕ)) (m : SymbolMap) (trace : List CountedEvent)
        (parts : List (List ThreadRows)) (p : Contents) → ArePartsOfTrace m trace parts → IsProfile p
        → IsOfRows head command (rows_of_parts parts) m p → IsReadOf m trace (naming head m) p }
{}
