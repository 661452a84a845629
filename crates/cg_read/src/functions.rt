//! Functions, whose texts stand once each.

ghost use Rattle.std.specs.Prelude.{◌≡◌, ◌++◌, ◌+◌, ◌<◌, ◌≤◌, All, IfOk, OnErr, OnOk, [], length, map, take};
ghost use Rattle.std.specs.Prelude.{vec_capacity, vec_len};
ghost use Rattle.cg_read.specs.Merge.{missing};
ghost use Rattle.cg_read.specs.Profiles.{AreApart, function_at, same_function};
ghost use Rattle.cg_read.specs.Ranks.{AreRanks};
ghost use Rattle.cg_read.specs.inner.Gains.{NumberEach, renumber};
ghost use Rattle.cg_read.specs.inner.Texts.{IsOfTexts, function_in};

use crate::function_numbers::FunctionNumbers;
use crate::rows::FuncKey;
use crate::texts::texts_of;
use byte_text::{OutOfMemory, Text, TextRef};
use key_tables::{Index, text_ranks};
use std::alloc::Global;
use std::marker::Model;

/// Functions by the numbers of their texts, each of which stands once, however many functions have it. Contracts see
/// the list of the functions.
#[derive(Drop)]
pub struct Functions {
    texts: Vec<Text>,
    text_index: Index<Text>,
    numbered: Vec<FunctionNumbers>,
    index: Index<FunctionNumbers>,
}

impl Model for Functions {
    ghost use Rattle.std.specs.Prelude.{List, map};
    ghost use Rattle.cg_read.specs.Ranks.{text_order};
    ghost use Rattle.key_tables.specs.Indexes.{Knows};
    ghost use Rattle.cg_read.specs.inner.Texts.{AreOfTexts, function_in, numbers_order};
    ghost use Rattle.cg_read.specs.declared.rows.FuncKey.{FuncKey};

    ghost Value = { List FuncKey };

    ghost view = { λ f. map (function_in f.texts.items) f.numbered.items };

    ghost invariant = { λ f. (of_texts : AreOfTexts f.texts.items f.numbered.items)
        × (texts : Knows text_order f.texts.items f.text_index) × Knows numbers_order f.numbered.items f.index };
}

/// Functions whose texts have other numbers.
fn renumber(
    alloc: Global,
    functions: &[FunctionNumbers],
    numbers: &[usize],
) -> Result<Vec<FunctionNumbers>, OutOfMemory>
    requires { All (IsOfTexts (length numbers.now)) functions.now }
    ensures { IfOk result (λ copies. copies.items ≡ map (renumber numbers.now) functions.now) }
{
    let mut copies = Vec::with_capacity(alloc, functions.len())?;
    'functions: for function in functions {
        copies.push(FunctionNumbers {
            object: numbers[function.object],
            file: numbers[function.file],
            name: numbers[function.name],
        })?;
    }
    Ok(copies)
}

impl Functions {
    pub(crate) fn new(alloc: Global) -> Functions
        ensures { result ≡ [] }
    {
        Functions {
            texts: Vec::new(alloc),
            text_index: Index::new(alloc),
            numbered: Vec::new(alloc),
            index: Index::new(alloc),
        }
    }

    /// The functions that have texts of these numbers.
    pub(crate) fn of_numbers(
        alloc: Global,
        texts: &[TextRef<'_>],
        numbered: &[FunctionNumbers],
    ) -> Result<Functions, OutOfMemory>
        requires texts { AreApart texts.now }
        requires numbered { All (IsOfTexts (length texts.now)) numbered.now }
        ensures { IfOk result (λ functions. functions ≡ map (function_in texts.now) numbered.now) }
    {
        let texts = texts_of(alloc, texts)?;
        let numbered = Vec::from_slice(alloc, numbered)?;
        Ok(Functions {
            texts,
            text_index: Index::new(alloc),
            numbered,
            index: Index::new(alloc),
        })
    }

    /// How many there are.
    pub fn len(&self) -> usize
        ensures { result ≡ length self.now }
    {
        self.numbered.len()
    }

    /// The function of this number.
    pub fn at(&self, number: usize) -> FuncKey<'_>
        requires { number < length self.now }
        ensures { result ≡ function_at self.now number }
    {
        let FunctionNumbers { object, file, name } = self.numbered[number];
        FuncKey {
            object: self.texts[object].as_ref(),
            file: self.texts[file].as_ref(),
            name: self.texts[name].as_ref(),
        }
    }

    /// The functions by the ranks of their texts, so that the order of two functions is that of their numbers.
    pub fn ranks(&self, alloc: Global) -> Result<Vec<FunctionNumbers>, OutOfMemory>
        ensures { IfOk result (λ ranks. AreRanks self.now ranks.items) }
    {
        let ranks = text_ranks(alloc, &self.texts)?;
        renumber(alloc, &self.numbered, &ranks)
    }

    /// Appends those of other functions that aren't among these, and gives the numbers that the others then have. It
    /// costs what the others do, but for what these have gained since the last time.
    pub(crate) fn join(
        &mut self,
        alloc: Global,
        others: &Functions,
    ) -> Result<Vec<usize>, OutOfMemory>
        requires own { AreApart self.old }
        requires others { AreApart others.now }
        ensures functions { OnOk result (self.new ≡ self.old ++ missing same_function self.old others.now) }
        ensures numbers { IfOk result (λ numbers. NumberEach self.new numbers.items others.now) }
        ensures apart { OnOk result (AreApart self.new) }
        ensures err { OnErr result (self.new ≡ self.old) }
    {
        let texts = self.text_index.gain(alloc, &self.texts, &others.texts)?;
        let others = renumber(alloc, &others.numbered, &texts.numbers)?;
        let functions = self.index.gain(alloc, &self.numbered, &others)?;
        self.texts.reserve(texts.added.len())?;
        self.numbered.reserve(functions.added.len())?;
        append_all(&mut self.texts, texts.added);
        append_all(&mut self.numbered, functions.added);
        Ok(functions.numbers)
    }

    /// Takes away all but the first so many.
    pub(crate) fn truncate(&mut self, alloc: Global, count: usize)
        ensures { self.new ≡ take count self.old }
    {
        self.numbered.truncate(count);
        self.index = Index::new(alloc);
    }
}

/// Moves the elements to the end of a vector that has room for them.
pub(crate) fn append_all<T: Drop>(to: &mut Vec<T>, mut from: Vec<T>)
    requires { vec_len to.old + vec_len from ≤ vec_capacity to.old }
    ensures { to.new.items ≡ to.old.items ++ from.items }
{
    to.append(&mut from).unwrap();
}
