//! The map of a program's symbols and lines.

ghost use Rattle.std.specs.Prelude.{◌≡◌, ◌<◌, ◌↔◌, IfOk, IfSome, Contains, length, slice_get, Some, false};
ghost use Rattle.sym_map.specs.SymbolMap.{place_of, is_entry_at, entry_of, entry_line_of, home_of, identity_of};
ghost use Rattle.sym_map.specs.SymbolMap.{file_text, IsFunc, IsFile, IsNamed};
ghost use Rattle.sym_map.specs.inner.Ranges.{place_in};
ghost use Rattle.sym_map.specs.AddressMap.{address_line, address_map, no_file};
ghost use Rattle.std.specs.Prelude.{ℕ};
ghost use Rattle.event_costs.specs.declared.numbers.FuncId.{FuncId as FuncIdValue};

use crate::function::named_among;
use crate::functions::Functions;
use crate::known_ranges::Ranges;
use crate::place_index::PlaceIndex;
use crate::range::Here;
use byte_text::{OutOfMemory, Text};
use event_costs::{FileId, FuncId, FuncSet, Place};
use std::alloc::Global;
use std::marker::Model;

/// The place of an instruction, and the function of the one that it leads to.
#[derive(Clone, Copy, Debug)]
pub struct Way {
    pub place: Place,
    pub next_func: FuncId,
}

/// The function, the file and the line of every address of a program. Functions and files are known by numbers from 0.
#[derive(Drop)]
pub struct SymMap {
    pub(crate) alloc: Global,
    /// By the bytes of the file and then of the name.
    pub(crate) functions: Functions,
    /// By their bytes.
    pub(crate) files: Vec<Text>,
    /// The entries of the functions.
    pub(crate) entries: Vec<Option<u32>>,
    pub(crate) ranges: Ranges,
    /// The place of code without a symbol and a line.
    pub(crate) unknown: Place,
    /// The places of most of the code.
    pub(crate) index: PlaceIndex,
}

impl Model for SymMap {
    ghost use Rattle.sym_map.specs.SymbolMap.{SymbolMap};
    ghost use Rattle.sym_map.specs.inner.Maps.{IsMap};
    ghost use Rattle.sym_map.specs.inner.Ranges.{map_of};

    ghost Value = { SymbolMap };

    ghost view = { λ m. map_of m.functions m.files.items m.entries.items m.ranges m.unknown };

    ghost use Rattle.sym_map.specs.inner.Indexed.{AreIndexed};

    ghost invariant = { λ m. IsMap m.functions m.files.items m.entries.items m.ranges m.unknown
        × AreIndexed m.ranges m.unknown m.index.first m.index.spots.items };
}

impl SymMap {
    /// The same map once more.
    pub fn try_clone(&self, alloc: Global) -> Result<SymMap, OutOfMemory>
        ensures { IfOk result (λ m. m ≡ self.now) }
    {
        let functions = self.functions.try_clone(alloc)?;
        let files = texts_again(alloc, &self.files)?;
        let mut entries = Vec::new(alloc);
        entries.extend_from_slice(&self.entries)?;
        let ranges = self.ranges.try_clone(alloc)?;
        let index = self.index.try_clone(alloc)?;
        Ok(SymMap {
            alloc,
            functions,
            files,
            entries,
            ranges,
            unknown: self.unknown,
            index,
        })
    }

    /// The map that tells code by its addresses: each address is a line of its own, in the first file. Functions and
    /// entries stay. It takes no memory.
    pub fn by_address(self) -> SymMap
        ensures map { result ≡ address_map self }
        ensures places { (address : ℕ) → place_of result address
            ≡ record { func = (place_of self address).func; file = no_file; line = address_line address } }
        ensures entry_addresses { (address : ℕ) → is_entry_at result address ≡ is_entry_at self address }
    {
        let mut index = self.index;
        index.tell_addresses();
        SymMap {
            ranges: Ranges {
                by_address: true,
                ..self.ranges
            },
            index,
            ..self
        }
    }

    /// The function of an address, and the file and line that it comes from. Code without a symbol is of the function
    /// `???` in the file `???`, and code without a line is at line 0 of the file `???`. It takes no memory.
    pub fn place(&self, pc: u32) -> Place
        ensures place { result ≡ place_of self.now pc }
        ensures func_known { IsFunc self.now result.func }
        ensures file_known { IsFile self.now result.file }
    {
        if let Some(place) = self.index.place(pc) {
            return place;
        }
        place_in(self.unknown, self.ranges.here_at(pc))
    }

    /// The place of an address, where it is found without a search. It takes no memory.
    #[inline(always)]
    pub fn indexed_place(&self, pc: u32) -> Option<Place>
        ensures { IfSome result (λ place. place ≡ place_of self.now pc) }
    {
        self.index.place(pc)
    }

    /// What `way` answers, where it is found without a search and stays in one function. It takes no memory.
    #[inline(always)]
    pub fn way_within(&self, pc: u32, next: u32) -> Option<Way>
        ensures place { IfSome result (λ way. way.place ≡ place_of self.now pc) }
        ensures next_func { IfSome result (λ way. way.next_func ≡ (place_of self.now next).func) }
    {
        let place = self.index.place_within(pc, next)?;
        Some(Way {
            place,
            next_func: place.func,
        })
    }

    /// The way from an instruction at one address to one at another. It takes no memory.
    pub fn way(&self, pc: u32, next: u32) -> Way
        ensures place { result.place ≡ place_of self.now pc }
        ensures next_func { result.next_func ≡ (place_of self.now next).func }
    {
        Way {
            place: self.place(pc),
            next_func: self.place(next).func,
        }
    }

    /// Whether the symbol of the address has the address as its value. It takes no memory.
    pub fn is_entry(&self, pc: u32) -> bool
        ensures { result ≡ is_entry_at self.now pc }
    {
        match self.ranges.here_at(pc).symbol {
            Some(symbol) => symbol.value == pc,
            None => false,
        }
    }

    /// The lowest address at which a symbol of the function begins and is the symbol of that address; nothing exactly
    /// where there is no such address.
    pub fn entry(&self, func: FuncId) -> Option<u32>
        requires { IsFunc self.now func }
        ensures { result ≡ entry_of self.now func }
    {
        self.entries[func.0 as usize]
    }

    /// The line of the function's entry, 0 where it has none.
    pub fn entry_line(&self, func: FuncId) -> u32
        requires { IsFunc self.now func }
        ensures { result ≡ entry_line_of self.now func }
    {
        match self.entry(func) {
            Some(entry) => self.place(entry).line,
            None => 0,
        }
    }

    /// The cleaned name of a function.
    pub fn name(&self, func: FuncId) -> &[u8]
        requires { IsFunc self.now func }
        ensures { result.now ≡ (identity_of self.now func).name }
    {
        self.functions.get(func.0 as usize).name.as_bytes()
    }

    /// The file in which a function begins.
    pub fn home(&self, func: FuncId) -> FileId
        requires { IsFunc self.now func }
        ensures number { result ≡ home_of self.now func }
        ensures file { file_text self.now result ≡ (identity_of self.now func).file }
        ensures file_known { IsFile self.now result }
    {
        self.functions.get(func.0 as usize).home
    }

    /// The cleaned name of a file.
    pub fn file_name(&self, file: FileId) -> &[u8]
        requires { IsFile self.now file }
        ensures { result.now ≡ file_text self.now file }
    {
        self.files[file.0 as usize].as_bytes()
    }

    /// All functions of a cleaned name.
    pub fn named(&self, name: &str) -> Result<FuncSet, OutOfMemory>
        ensures { IfOk result (λ set. (func : FuncIdValue)
            → Contains set func ↔ IsNamed self.now.functions name.now func) }
    {
        let items = named_among(self.alloc, &self.functions, name.as_bytes())?;
        Ok(FuncSet { items })
    }
}

/// The place that is known of an address.
#[inline(always)]
pub(crate) fn place_in(unknown: Place, here: Here) -> Place
    ensures { result ≡ place_in unknown here }
{
    let func = match here.symbol {
        Some(symbol) => symbol.func,
        None => unknown.func,
    };
    match here.line {
        Some(line) => Place {
            func,
            file: line.file,
            line: line.line,
        },
        None => Place {
            func,
            file: unknown.file,
            line: 0,
        },
    }
}

/// The same texts once more.
fn texts_again(alloc: Global, texts: &[Text]) -> Result<Vec<Text>, OutOfMemory>
    ensures { IfOk result (λ copies. copies.items ≡ texts.now) }
{
    let mut copies = Vec::with_capacity(alloc, texts.len())?;
    'texts: for text in texts {
        copies.push(text.try_clone(alloc)?)?;
    }
    Ok(copies)
}
