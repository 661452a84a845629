//! The text of a part by context.

ghost use Rattle.std.specs.Prelude.{◌≡◌, All, IfOk, map};
ghost use Rattle.ctx_rows.specs.Known.{AreKnown, IsKnownContext};
ghost use Rattle.ctx_rows.specs.Telling.{named_rows};
ghost use Rattle.ctx_rows.specs.Texts.{context_name, ctx_text};

use crate::numbering::{by_number, contexts_of};
use crate::ranking::rank;
use crate::rows::CtxRows;
use arc_costs::TableRows;
use byte_text::{OutOfMemory, Text};
use cg_format::{Naming, PartHead, write_named};
use contexts::ContextRef;
use event_costs::{ContextNo, FileId, FuncId};
use std::alloc::Global;
use std::marker::Model;
use sym_map::SymMap;

/// The names of a context's functions, joined by an apostrophe.
fn context_name(alloc: Global, syms: &SymMap, context: &ContextRef<'_>) -> Result<Text, OutOfMemory>
    requires { IsKnownContext syms.now context.now }
    ensures { IfOk result (λ text. text ≡ context_name syms.now context.now) }
{
    let mut text = Text::new(alloc);
    'functions: for (place, func) in context.as_slice().iter().enumerate() {
        if place > 0 {
            text.push(b"'")?;
        }
        text.push(syms.name(FuncId(*func)))?;
    }
    Ok(text)
}

/// The names of contexts, in their order.
fn context_names(
    alloc: Global,
    syms: &SymMap,
    contexts: &[ContextRef<'_>],
) -> Result<Vec<Text>, OutOfMemory>
    requires { All (IsKnownContext syms.now) contexts.now }
    ensures { IfOk result (λ names. names.items ≡ map (context_name syms.now) contexts.now) }
{
    let mut names = Vec::with_capacity(alloc, contexts.len())?;
    'contexts: for context in contexts {
        names.push(context_name(alloc, syms, context)?)?;
    }
    Ok(names)
}

/// Contexts in place of a map's functions, by their places in a list. Contracts see the map that has them so.
#[derive(Drop)]
struct ContextMap<'a> {
    syms: &'a SymMap,
    contexts: &'a [ContextRef<'a>],
    names: &'a [Text],
}

impl<'a> Model for ContextMap<'a> {
    ghost use Rattle.sym_map.specs.SymbolMap.{SymbolMap};
    ghost use Rattle.ctx_rows.specs.Texts.{context_map};
    ghost use Rattle.ctx_rows.specs.inner.Named.{AreNamed};

    ghost Value = { SymbolMap };

    ghost view = { λ m. context_map m.syms.now m.contexts.now };

    ghost invariant = { λ m. AreNamed m.syms.now m.contexts.now m.names.now };
}

impl<'a> Naming for ContextMap<'a> {
    ghost map = { λ m. m };

    fn home(&self, func: ContextNo) -> FileId {
        self.syms.home(self.contexts[func.0 as usize].first())
    }

    fn name(&self, func: ContextNo) -> &[u8] {
        let names = self.names;
        names[func.0 as usize].as_bytes()
    }

    fn entry_line(&self, func: ContextNo) -> u32 {
        self.syms.entry_line(self.contexts[func.0 as usize].first())
    }

    fn file_name(&self, file: FileId) -> &[u8] {
        self.syms.file_name(file)
    }
}

/// The text of a part in Callgrind's format, with contexts for functions: the name of a context is that of its
/// functions, joined by apostrophes, and its file and entry are those of the first one. Each context has an id of its
/// own, so two may have one name. No context is empty, and each function and file of the rows is one of the map.
pub fn write_ctx(
    alloc: Global,
    head: &PartHead,
    rows: &CtxRows,
    syms: &SymMap,
) -> Result<Text, OutOfMemory>
    requires { AreKnown syms.now rows.now.rows }
    ensures { IfOk result (λ text. text ≡ ctx_text head.now rows.now.rows syms.now) }
{
    let mut lists = Vec::new(alloc);
    let numbered = by_number(alloc, rows, &mut lists)?;
    let contexts = contexts_of(alloc, &lists)?;
    write_by_number(alloc, head, numbered, &contexts, syms)
}

/// What `write_ctx` writes, of rows by the numbers of these contexts. They get other numbers in their places.
pub fn write_by_number(
    alloc: Global,
    head: &PartHead,
    rows: TableRows<ContextNo>,
    contexts: &[ContextRef<'_>],
    syms: &SymMap,
) -> Result<Text, OutOfMemory>
    requires { AreKnown syms.now (named_rows contexts.now rows) }
    ensures { IfOk result (λ text. text ≡ ctx_text head.now (named_rows contexts.now rows) syms.now) }
{
    let mut rows = rows;
    let ranked = rank(alloc, &mut rows, contexts)?;
    let names = context_names(alloc, syms, &ranked)?;
    let map = ContextMap {
        syms,
        contexts: &ranked,
        names: &names,
    };
    write_named(alloc, head, &rows, &map)
}
