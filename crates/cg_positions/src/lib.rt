//! What the positions of lines in the Callgrind format count from.
#![tactic(auto)]

ghost use Rattle.std.specs.Prelude.{◌≡◌, ◌∷◌, List};
ghost use Rattle.cg_lines.specs.declared.line.Line.{Line as AnyLine};
ghost use Rattle.cg_positions.specs.Positions.{position};

use cg_lines::{Line, position_at};

/// The position from which relative ones count after a line, where they counted from this one before it: that of the
/// last cost line, and never that which a call goes to (Callgrind Format Specification, version 1).
pub fn position_after(from: u64, line: &Line<'_>) -> u64
    ensures { (before : List AnyLine) → from ≡ position before → result ≡ position (line.now ∷ before) }
{
    match line {
        Line::Cost(place, _) => position_at(from, *place).unwrap_or(0),
        _ => from,
    }
}
