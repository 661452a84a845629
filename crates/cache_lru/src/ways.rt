//! The lines of a set, in which the block that was referred to last stands first.

ghost use Rattle.std.specs.Prelude.{◌≡◌, ◌≢◌, ℕ, ◌+◌, ◌*◌, ◌≤◌, ◌==◌, false, not, length};
ghost use Rattle.std.specs.List.{list_any};
ghost use Rattle.cache_lru.specs.Lines.{lines_of};
ghost use Rattle.cache_lru.specs.inner.Layout.{to_front};

/// A set of so many lines, as the caches of the first level have by default, is compared and moved as a whole where it
/// doesn't hold the block: the compiler makes no jump for each line of it.
const EIGHT: usize = 8;

/// So is a set of so many, as the last cache has by default, for a block that it seldom holds. Where half of the blocks
/// are held, in any line, that would take longer.
const SIXTEEN: usize = 16;

/// Refers to a block in the set of this number, as `touch` does, and leaves the other sets as they are.
#[inline(always)]
pub fn touch_set(
    lines: &mut [u32],
    set: usize,
    assoc: usize,
    block: u32,
    is_seldom_held: bool,
) -> usize
    requires some { 1 ≤ assoc }
    requires within { set * assoc + assoc ≤ length lines.old }
    ensures touched { lines_of assoc set lines.new ≡ to_front block (lines_of assoc set lines.old) }
    ensures others { (other : ℕ) → other ≢ set → lines_of assoc other lines.new ≡ lines_of assoc other lines.old }
    ensures same_length { length lines.new ≡ length lines.old }
    ensures miss { (result == assoc) ≡ not (list_any (λ kept. kept == block) (lines_of assoc set lines.old)) }
{
    let start = set * assoc;
    if assoc == EIGHT && !holds(&lines[start..start + EIGHT], block) {
        bring_in(&mut lines[start..start + EIGHT], block);
        return EIGHT;
    }
    if is_seldom_held && assoc == SIXTEEN && !holds(&lines[start..start + SIXTEEN], block) {
        bring_in(&mut lines[start..start + SIXTEEN], block);
        return SIXTEEN;
    }
    touch(&mut lines[start..start + assoc], block)
}

/// Whether one of the lines holds the block. It looks at all of them.
#[inline(always)]
fn holds(lines: &[u32], block: u32) -> bool
    ensures { result ≡ list_any (λ kept. kept == block) lines.now }
{
    let mut found = false;
    'lines: for place in 0..lines.len() {
        found |= lines[place] == block;
    }
    found
}

/// Puts a block that none of the lines holds into the first one. The others move on by one line each, and the last one
/// goes.
#[inline(always)]
fn bring_in(lines: &mut [u32], block: u32)
    requires { list_any (λ kept. kept == block) lines.old ≡ false }
    ensures { lines.new ≡ to_front block lines.old }
{
    let mut carried = block;
    'lines: for place in 0..lines.len() {
        let kept = lines[place];
        lines[place] = carried;
        carried = kept;
    }
}

/// Puts the block into the first line. The blocks before the place where it stood move on by one line each; where it
/// stood in none, all do, and the last one goes. The answer is the place where it stood, or the number of lines: a
/// truth value would be reckoned anew at each line.
#[inline(always)]
fn touch(lines: &mut [u32], block: u32) -> usize
    requires { 1 ≤ length lines.old }
    ensures moved { lines.new ≡ to_front block lines.old }
    ensures miss { (result == length lines.old) ≡ not (list_any (λ kept. kept == block) lines.old) }
{
    let mut carried = lines[0];
    lines[0] = block;
    if carried == block {
        return 0;
    }
    'lines: for place in 1..lines.len() {
        let kept = lines[place];
        lines[place] = carried;
        if kept == block {
            return place;
        }
        carried = kept;
    }
    lines.len()
}
