//! The texts that ids stand for.

ghost use Rattle.std.specs.Prelude.{◌≡◌, None, Some, ℕ, List, Option, IfOk, OnOk};
ghost use Rattle.std.specs.Prelude.{IfErr, cond, option_copied, slice_get};
ghost use Rattle.std.specs.Str.{bytes_eq};
ghost use Rattle.cg_read.specs.Meaning.{text_of, ids_after, id_fault};
ghost use Rattle.cg_read.specs.inner.Ids.{is_same, number_in, other_number, place_of};
ghost use Rattle.cg_lines.specs.Faults.{Refuses};
ghost use Rattle.cg_read.specs.inner.Texts.{Keeps, Means, Tells};

use byte_text::{OutOfMemory, TextRef};
use cg_lines::{Fault, Name, Number, number_of};
use key_tables::Table;
use std::alloc::Global;
use std::collections::BTreeMap;

/// An id, and the number of the text that it stands for.
#[derive(Drop)]
pub(crate) struct CountedId<'a> {
    pub(crate) id: TextRef<'a>,
    pub(crate) number: usize,
}

/// The numbers of the texts that the ids of one kind stand for. Writers count their ids from 1, and such ids are found
/// at their places. Only others are searched for.
#[derive(Drop)]
pub(crate) struct Ids<'a> {
    pub(crate) slots: Vec<CountedId<'a>>,
    pub(crate) others: BTreeMap<TextRef<'a>, usize>,
}

/// The place of an id among those that count from 1.
fn place_of(id: &TextRef<'_>) -> Option<usize>
    ensures { result ≡ place_of id.now }
{
    let Number::Fits(number) = number_of(id.as_bytes())? else {
        return None;
    };
    (number as usize).checked_sub(1)
}

/// Whether an id stands at a place.
fn is_at(counted: &[CountedId<'_>], place: usize, id: &TextRef<'_>) -> bool
    ensures { result ≡ is_same id.now (slice_get counted.now place) }
{
    match counted.get(place) {
        Some(counted) => counted.id == *id,
        None => false,
    }
}

impl<'a> Ids<'a> {
    /// No id stands for anything yet.
    #[tactic(auto, unfolding(crate::specs::inner::Ids::number_in))]
    fn new(alloc: Global) -> Ids<'a>
        ensures { (id : List ℕ) → number_in result id ≡ None }
    {
        Ids {
            slots: Vec::new(alloc),
            others: BTreeMap::new(alloc),
        }
    }

    fn other_number(&self, id: &TextRef<'a>) -> Option<usize>
        ensures { result ≡ other_number self.now id.now }
    {
        match self.others.get(id) {
            Some(number) => Some(*number),
            None => None,
        }
    }

    /// The number of the text that an id stands for.
    #[tactic(auto, unfolding(crate::specs::inner::Ids::number_in))]
    fn number(&self, id: &TextRef<'a>) -> Option<usize>
        ensures { result ≡ number_in self.now id.now }
    {
        let Some(place) = place_of(id) else {
            return self.other_number(id);
        };
        if is_at(&self.slots, place, id) {
            Some(self.slots[place].number)
        } else {
            self.other_number(id)
        }
    }

    /// Lets an id that isn't counted stand for the text of this number.
    fn set_other(&mut self, id: &TextRef<'a>, number: usize) -> Result<(), OutOfMemory>
        ensures counted { self.new.slots ≡ self.old.slots }
        ensures others { OnOk result ((q : List ℕ) → other_number self.new q
            ≡ cond (bytes_eq id.now q) (Some number) (other_number self.old q)) }
    {
        self.others.insert(id.again(), number)?;
        Ok(())
    }

    /// From here on an id stands for the text of this number.
    #[tactic(auto, unfolding(crate::specs::inner::Ids::number_in))]
    fn set(&mut self, id: &TextRef<'a>, number: usize) -> Result<(), OutOfMemory>
        ensures { OnOk result ((q : List ℕ) → number_in self.new q
            ≡ cond (bytes_eq id.now q) (Some number) (number_in self.old q)) }
    {
        let Some(spot) = place_of(id) else {
            return self.set_other(id, number);
        };
        if is_at(&self.slots, spot, id) {
            self.slots[spot] = CountedId {
                id: id.again(),
                number,
            };
            return Ok(());
        }
        if spot != self.slots.len() {
            return self.set_other(id, number);
        }
        self.slots.push(CountedId {
            id: id.again(),
            number,
        })?;
        Ok(())
    }
}

/// The texts that ids stand for. Objects, files and functions have ids of their own.
#[derive(Drop)]
pub(crate) struct KnownIds<'a> {
    pub(crate) objects: Ids<'a>,
    pub(crate) files: Ids<'a>,
    pub(crate) functions: Ids<'a>,
}

impl<'a> KnownIds<'a> {
    /// No id stands for anything yet.
    pub(crate) fn new(alloc: Global) -> KnownIds<'a>
        ensures objects { (id : List ℕ) → number_in result.objects id ≡ None }
        ensures files { (id : List ℕ) → number_in result.files id ≡ None }
        ensures functions { (id : List ℕ) → number_in result.functions id ≡ None }
    {
        KnownIds {
            objects: Ids::new(alloc),
            files: Ids::new(alloc),
            functions: Ids::new(alloc),
        }
    }
}

/// The number of the text that a name stands for, and what its id stands for from here on, where it defines one. A text
/// is looked up where it stands in full and nowhere else, however many lines name it by its id.
pub(crate) fn resolve<'a>(
    ids: &mut Ids<'a>,
    texts: &mut Table<'a>,
    name: &Name<'a>,
) -> Result<usize, Fault>
    ensures kept { OnOk result (Keeps texts.old texts.new) }
    ensures number { IfOk result (λ number. (meant : List ℕ → Option (List ℕ)) → Tells texts.old ids.old meant
        → Means texts.new (Some number) (text_of meant name.now)) }
    ensures ids { OnOk result ((meant : List ℕ → Option (List ℕ)) → Tells texts.old ids.old meant
        → Tells texts.new ids.new (ids_after meant name.now)) }
    ensures err { IfErr result (λ e. (meant : List ℕ → Option (List ℕ)) → Tells texts.old ids.old meant
        → Refuses e (id_fault (text_of meant name.now))) }
{
    match name {
        Name::Plain(text) => Ok(texts.number(text.again())?),
        Name::Id(id) => match ids.number(id) {
            Some(number) => Ok(number),
            None => Err(Fault::UnknownId),
        },
        Name::Named(id, text) => {
            let number = texts.number(text.again())?;
            ids.set(id, number)?;
            Ok(number)
        }
    }
}
