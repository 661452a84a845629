//! What holds of the cuts and the files of every run.

ghost use Rattle.std.specs.Prelude.{◌≡◌, ◌≢◌, ◌+◌, ◌++◌, ◌<◌, ◌≤◌, ◌^◌, ◌∷◌, [], ℕ, List};
ghost use Rattle.std.specs.Prelude.{Option, All, AllPairs, flat_map, length, map};
ghost use Rattle.event_costs.specs.declared.numbers.ThreadNo.{ThreadNo};
ghost use Rattle.arc_costs.specs.Contents.{Listed};
ghost use Rattle.cg_format.specs.declared.head.PartHead.{PartHead};
ghost use Rattle.shadow_stack.specs.Traces.{EventOnStack};
ghost use Rattle.sym_map.specs.SymbolMap.{SymbolMap};
ghost use Rattle.part_dump.specs.Calls.{calls};
ghost use Rattle.part_dump.specs.Cuts.{DumpPoints, cut_after, cuts, most_cuts, with_last};
ghost use Rattle.part_dump.specs.Parts.{files};
ghost use Rattle.part_dump.specs.Plain.{Stateless, plain};
ghost use Rattle.part_dump.specs.Steps.{Step, thread_of};
ghost use Rattle.part_dump.specs.Watching.{puts};

/// The segments of a trace put together are the trace, and at most 4,095 cuts count; one step more is the last of the
/// segment after the last cut, or ends it. It does nothing: its contract is a law.
pub fn segments_make_the_trace()
    ensures together { (syms : SymbolMap) (asked : DumpPoints) (trace : List Step)
        → flat_map (λ s. s.0) (cuts syms asked trace).closed ++ (cuts syms asked trace).recent ≡ trace }
    ensures most { (syms : SymbolMap) (asked : DumpPoints) (trace : List Step)
        → length (cuts syms asked trace).closed ≤ most_cuts }
    ensures one_more { (syms : SymbolMap) (asked : DumpPoints) (trace : List Step) (x : Step)
        → cuts syms asked (trace ++ x ∷ [])
        ≡ with_last most_cuts (cuts syms asked trace) x (cut_after syms asked (length trace + 1) x.on_stack) }
{}

/// The parts that are written where nobody watches are the files of the run, and their names differ. It does nothing:
/// its contract is a law.
pub fn plain_parts_are_the_files()
    ensures puts { (rows_of : List EventOnStack → Listed) (head : PartHead) (syms : SymbolMap) (base : List ℕ) (asked : DumpPoints)
        (trace : List Step) (tried : Option (ThreadNo × ℕ)) (watch : Stateless)
        → puts plain syms base watch (calls rows_of head syms asked trace tried)
        ≡ files rows_of head syms base asked trace }
    ensures names { (rows_of : List EventOnStack → Listed) (head : PartHead) (syms : SymbolMap) (base : List ℕ) (asked : DumpPoints)
        (trace : List Step) → All (λ x. thread_of x < 2 ^ 32) trace
        → AllPairs (λ f g. f.0 ≢ g.0) (files rows_of head syms base asked trace) }
{}
