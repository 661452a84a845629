//! What is current where a line stands.

ghost use Rattle.std.specs.Prelude.{◌≡◌};

use crate::function_numbers::FunctionNumbers;

/// What the next row belongs to, by the numbers of texts.
#[derive(Drop)]
pub(crate) struct Current {
    pub(crate) object: usize,
    pub(crate) file: usize,
    pub(crate) function: FunctionNumbers,
}

impl Current {
    /// Before the first line: an empty object, and a file and a function that are not known.
    pub(crate) fn new(empty: usize, unknown: usize) -> Current
        ensures object { result.object ≡ empty }
        ensures file { result.file ≡ unknown }
        ensures function { result.function ≡ record { object = empty; file = unknown; name = unknown } }
    {
        Current {
            object: empty,
            file: unknown,
            function: FunctionNumbers {
                object: empty,
                file: unknown,
                name: unknown,
            },
        }
    }
}
