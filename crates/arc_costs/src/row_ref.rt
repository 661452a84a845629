//! A row of a table where it stands.

ghost use Rattle.std.specs.Prelude.{◌≡◌};

use std::marker::Model;

/// A row that stands elsewhere, so that rows are sorted without a copy of each. Contracts see its key and its amount.
#[derive(Drop)]
pub struct RowRef<'a, K: Copy, A: Copy> {
    row: &'a (K, A),
}

impl<'a, K: Copy, A: Copy> Model for RowRef<'a, K, A> {
    ghost Value = { K × A };

    ghost view = { λ r. r.row.now };
}

impl<'a, K: Copy, A: Copy> RowRef<'a, K, A> {
    /// Of this row.
    pub fn of(row: &'a (K, A)) -> RowRef<'a, K, A>
        ensures { result ≡ row.now }
    {
        RowRef { row }
    }

    /// Its key.
    pub fn key(&self) -> K
        ensures { result ≡ self.now.0 }
    {
        self.row.0
    }

    /// Its amount.
    pub fn amount(&self) -> A
        ensures { result ≡ self.now.1 }
    {
        self.row.1
    }
}
