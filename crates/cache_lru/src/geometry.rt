//! The geometry of a cache.

ghost use Rattle.std.specs.Prelude.{◌≡◌, ◌^◌, ◌<◌, ◌↔◌, IsTrue, IsSome, IfSome};
ghost use Rattle.std.specs.Int.{IsPowerOfTwo};
ghost use Rattle.cache_lru.specs.Shape.{IsGeometry, sets_of};

use std::marker::Model;

/// The size of the smallest and of the largest line, in bytes.
const LEAST_LINE: u32 = 16;

const MOST_LINE: u32 = 1024;

/// How many lines a set has at most.
const MOST_LINES_OF_A_SET: u32 = 64;

/// The size of the largest cache, in bytes.
const MOST_BYTES: u32 = 67_108_864;

/// The size of a cache in bytes, how many lines a set has, and the length of a line in bytes. The line length and the
/// number of sets are powers of two.
#[derive(Clone, Copy, Debug, PartialEq, Eq)]
pub struct Geometry {
    size: u32,
    assoc: u32,
    line: u32,
}

impl Model for Geometry {
    ghost use Rattle.cache_lru.specs.Shape.{Shape, IsGeometry};

    ghost Value = { Shape };

    ghost view = { λ g. record { size = g.size; assoc = g.assoc; line = g.line } };

    ghost invariant = { λ g. IsGeometry (record { size = g.size; assoc = g.assoc; line = g.line }) };

    ghost inverse = { λ s. record { size = s.size; assoc = s.assoc; line = s.line } };
}

impl Geometry {
    /// None exactly where the line isn't a power of two from 16 to 1,024, the associativity isn't from 1 to 64, the
    /// size is above 67,108,864, or it isn't the associativity times the line times a power of two.
    pub fn new(size: u32, assoc: u32, line: u32) -> Option<Geometry>
        ensures accepted { IsSome result ↔ IsGeometry (record { size = size; assoc = assoc; line = line }) }
        ensures value { IfSome result (λ g. g ≡ record { size = size; assoc = assoc; line = line }) }
    {
        if line < LEAST_LINE
            || line > MOST_LINE
            || assoc < 1
            || assoc > MOST_LINES_OF_A_SET
            || size > MOST_BYTES
        {
            return None;
        }
        if !is_power_of_two(line) {
            return None;
        }
        let bytes_of_set = assoc * line;
        if size % bytes_of_set != 0 {
            return None;
        }
        if !is_power_of_two(size / bytes_of_set) {
            return None;
        }
        Some(Geometry { size, assoc, line })
    }

    /// The size of the cache in bytes.
    pub fn size(&self) -> u32
        ensures { result ≡ self.now.size }
    {
        self.size
    }

    /// How many lines a set has.
    pub fn assoc(&self) -> u32
        ensures { result ≡ self.now.assoc }
    {
        self.assoc
    }

    /// The length of a line in bytes.
    pub fn line(&self) -> u32
        ensures { result ≡ self.now.line }
    {
        self.line
    }

    /// The number of sets.
    pub(crate) fn sets(&self) -> u32
        ensures sets { result ≡ sets_of self.now }
        ensures power { IsPowerOfTwo result }
        ensures geometry { IsGeometry self.now }
    {
        self.size / (self.assoc * self.line)
    }

    /// The power of two that the line length is.
    pub(crate) fn line_bits(&self) -> u32
        ensures power { self.now.line ≡ 2 ^ result }
        ensures bound { result < 32 }
    {
        self.line.ilog2()
    }
}

/// Whether the number is 2 to some power.
fn is_power_of_two(number: u32) -> bool
    ensures { IsTrue result ↔ IsPowerOfTwo number }
{
    if number == 0 {
        return false;
    }
    number == 1 << number.ilog2()
}
