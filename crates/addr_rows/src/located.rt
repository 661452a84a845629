//! Rows in which an address stands for its file and line, with the places of the addresses.

ghost use Rattle.std.specs.Prelude.{◌≡◌};
ghost use Rattle.addr_rows.specs.EventRows.{located_arc, located_line};

use crate::rows::{AddrArc, AddrLine};
use arc_costs::{ArcRow, LineRow};
use event_costs::ArcKey;
use sym_map::SymMap;

/// A line row with the place of its address.
pub fn located_line(row: &LineRow, syms: &SymMap) -> AddrLine
    ensures { result ≡ located_line syms.now row.now }
{
    let addr = row.place.line;
    AddrLine {
        addr,
        place: syms.place(addr),
        cost: row.cost,
    }
}

/// An arc row with the file and line of its address.
pub fn located_arc(row: &ArcRow, syms: &SymMap) -> AddrArc
    ensures { result ≡ located_arc syms.now row.now }
{
    let addr = row.arc.line;
    let place = syms.place(addr);
    AddrArc {
        addr,
        arc: ArcKey {
            caller: row.arc.caller,
            file: place.file,
            line: place.line,
            callee: row.arc.callee,
        },
        calls: row.calls,
        cost: row.cost,
    }
}
