//! What the functions and files of a part are called.

ghost use Rattle.std.specs.Prelude.{◌≡◌};
ghost use Rattle.sym_map.specs.SymbolMap.{IsFile, IsFunc, SymbolMap, entry_line_of, file_text, home_of, identity_of};

use event_costs::{ContextNo, FileId, FuncId};
use sym_map::{SymMap, maps_are_sound};

/// What functions and files are called, by their numbers. Calling contexts may stand for functions. Contracts see it as a map of symbols.
pub trait Naming {
    /// the functions, with their files, names and entries, and the files
    ghost map: { Self → SymbolMap };

    /// The file in which a function begins.
    fn home(&self, func: ContextNo) -> FileId
        requires { IsFunc (map self.now) func }
        ensures number { result ≡ home_of (map self.now) func }
        ensures file_known { IsFile (map self.now) result };

    /// The name of a function.
    fn name(&self, func: ContextNo) -> &[u8]
        requires { IsFunc (map self.now) func }
        ensures { result.now ≡ (identity_of (map self.now) func).name };

    /// The line of a function's entry, 0 where it has none.
    fn entry_line(&self, func: ContextNo) -> u32
        requires { IsFunc (map self.now) func }
        ensures { result ≡ entry_line_of (map self.now) func };

    /// The name of a file.
    fn file_name(&self, file: FileId) -> &[u8]
        requires { IsFile (map self.now) file }
        ensures { result.now ≡ file_text (map self.now) file };
}

/// The number of a function of this map: it has 32 bits.
fn function(syms: &SymMap, func: ContextNo) -> FuncId
    requires { IsFunc syms.now func }
    ensures { result ≡ func }
{
    maps_are_sound(syms);
    FuncId(func.0 as u32)
}

impl Naming for SymMap {
    ghost map = { λ m. m };

    fn home(&self, func: ContextNo) -> FileId {
        SymMap::home(self, function(self, func))
    }

    fn name(&self, func: ContextNo) -> &[u8] {
        SymMap::name(self, function(self, func))
    }

    fn entry_line(&self, func: ContextNo) -> u32 {
        SymMap::entry_line(self, function(self, func))
    }

    fn file_name(&self, file: FileId) -> &[u8] {
        SymMap::file_name(self, file)
    }
}
