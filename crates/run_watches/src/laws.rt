//! What one of the watches makes of a run.

ghost use Rattle.part_dump.specs.Plain.{plain};
ghost use Rattle.wait_report.specs.Keeping.{watching};
ghost use Rattle.ctx_rows.specs.Watching.{by_context};
ghost use Rattle.addr_rows.specs.Translated.{translation};
ghost use Rattle.run_watches.specs.Laws.{IsOfKind};
ghost use Rattle.run_watches.specs.declared.run_watch.RunWatch.TheVariants.{Addresses, Contexts, Nobody, Waits};

/// Each makes of a run what the watch of its kind makes of it. It does nothing: its contract is a law.
pub fn each_watch_is_of_its_kind()
    ensures nobody { IsOfKind plain Nobody }
    ensures waits { IsOfKind watching Waits }
    ensures contexts { IsOfKind by_context Contexts }
    ensures addresses { IsOfKind translation Addresses }
{}
