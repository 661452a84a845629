//! Stretches of addresses.

ghost use Rattle.std.specs.Prelude.{◌≡◌, ◌+◌, ◌≤◌, IsTrue};
ghost use Rattle.std.specs.List.{All, list_any};
ghost use Rattle.prog_make.specs.inner.Spans.{overlaps, AreSpansApart};

/// So many addresses from the first one on.
#[derive(Clone, Copy, Debug, PartialEq, Eq)]
pub struct Span {
    pub start: u32,
    pub len: u32,
}

impl Span {
    fn end(&self) -> u64
        ensures { result ≡ self.now.start + self.now.len }
    {
        u64::from(self.start) + u64::from(self.len)
    }

    /// Whether some address lies in both.
    fn overlaps(&self, other: &Span) -> bool
        ensures { result ≡ overlaps self.now other.now }
    {
        u64::from(self.start.max(other.start)) < self.end().min(other.end())
    }
}

/// Whether a span shares an address with one of those before it, which end at `reach` at most.
fn meets(before: &[Span], span: &Span, reach: u64) -> bool
    requires { All (λ s. s.start + s.len ≤ reach) before.now }
    ensures { result ≡ list_any (overlaps span.now) before.now }
{
    if u64::from(span.start) >= reach {
        return false;
    }
    before.iter().any(|other| span.overlaps(other))
}

/// Whether no two spans share an address. This takes a look at each span once where they stand in the order of their
/// addresses.
pub fn are_apart(spans: &[Span]) -> bool
    ensures apart { IsTrue result → AreSpansApart spans.now }
    ensures shared { AreSpansApart spans.now → IsTrue result }
{
    let mut reach = 0;
    'spans: for (i, span) in spans.iter().enumerate() {
        if meets(&spans[..i], span, reach) {
            return false;
        }
        reach = reach.max(span.end());
    }
    true
}
