//! Reports on profiles whose rows have equal sums.

ghost use Rattle.std.specs.Prelude.{ℕ, List, Option};
ghost use Rattle.arc_costs.specs.Contents.{Listed};
ghost use Rattle.cg_format.specs.declared.head.PartHead.{PartHead};
ghost use Rattle.cg_read.specs.Profiles.{Contents, IsProfile};
ghost use Rattle.reads_back.specs.Rows.{IsOfRows};
ghost use Rattle.sym_map.specs.SymbolMap.{SymbolMap};
ghost use Rattle.report_laws.specs.Sums.{HaveEqualSums, StandsFor};

/// A profile of rows may stand for one of other rows with equal sums: there is one with the same functions and files,
/// and every report on the other is a report on it. So it doesn't show in a report how the costs of a line, or of the
/// calls there, are split into rows.
pub fn reports_follow_from_sums()
    ensures { (head : PartHead) (command : Option (List ℕ)) (rows others : Listed) (m : SymbolMap) (q : Contents)
        → HaveEqualSums rows others → IsProfile q → IsOfRows head command others m q
        → StandsFor head command rows m q }
{}
