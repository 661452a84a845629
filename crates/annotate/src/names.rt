//! How functions and costs are written.

ghost use Rattle.std.specs.Prelude.{◌≡◌, ◌++◌, codes, All, IfOk, OnOk, map};
ghost use Rattle.std.specs.List.{join_by};
ghost use Rattle.byte_text.specs.Names.{clean_name};
ghost use Rattle.annotate.specs.Names.{costs_text, name_text, object_text};
ghost use Rattle.report_rows.specs.Entries.{AreWithin, costs_of, entry_values};

use byte_text::{OutOfMemory, Text, clean_name};
use cg_read::FuncKey;
use report_rows::{Entry, sum_of};
use std::alloc::Global;

/// Appends the cleaned form of a name.
pub(crate) fn push_clean(alloc: Global, text: &mut Text, name: &[u8]) -> Result<(), OutOfMemory>
    ensures { OnOk result (text.new ≡ text.old ++ clean_name name.now) }
{
    let name = clean_name(alloc, name)?;
    text.push(name.as_bytes())
}

/// Appends costs with a space between them.
pub(crate) fn push_costs(text: &mut Text, costs: &[u64]) -> Result<(), OutOfMemory>
    ensures { OnOk result (text.new ≡ text.old ++ costs_text costs.now) }
{
    let Some((first, rest)) = costs.split_first() else {
        return Ok(());
    };
    text.push_number(*first)?;
    'costs: for cost in rest {
        text.push(b" ")?;
        text.push_number(*cost)?;
    }
    Ok(())
}

/// Appends texts with a space between them.
pub(crate) fn push_texts(text: &mut Text, texts: &[Text]) -> Result<(), OutOfMemory>
    ensures { OnOk result (text.new ≡ text.old ++ join_by (λ t. t) (codes " ") texts.now) }
{
    let Some((first, rest)) = texts.split_first() else {
        return Ok(());
    };
    text.push(first.as_bytes())?;
    'texts: for piece in rest {
        text.push(b" ")?;
        text.push(piece.as_bytes())?;
    }
    Ok(())
}

/// Appends the object of a function, where it isn't empty.
fn push_object(alloc: Global, text: &mut Text, object: &[u8]) -> Result<(), OutOfMemory>
    ensures { OnOk result (text.new ≡ text.old ++ object_text object.now) }
{
    if object.is_empty() {
        return Ok(());
    }
    text.push(b" [")?;
    push_clean(alloc, text, object)?;
    text.push(b"]")
}

/// Appends the printed name of a function.
pub(crate) fn push_name(
    alloc: Global,
    text: &mut Text,
    function: &FuncKey<'_>,
) -> Result<(), OutOfMemory>
    ensures { OnOk result (text.new ≡ text.old ++ name_text function.now) }
{
    push_clean(alloc, text, function.file.as_bytes())?;
    text.push(b":")?;
    push_clean(alloc, text, function.name.as_bytes())?;
    push_object(alloc, text, function.object.as_bytes())
}

/// Appends the sums of entries for so many events.
pub(crate) fn push_sums(
    alloc: Global,
    text: &mut Text,
    events: usize,
    entries: &[Entry<'_>],
) -> Result<(), OutOfMemory>
    requires { AreWithin events (entry_values entries.now) }
    ensures { OnOk result (text.new ≡ text.old ++ costs_text (costs_of events (entry_values entries.now))) }
{
    let sum = sum_of(alloc, events, entries)?;
    push_costs(text, &sum.cost)
}

/// The sums of the entries of each list, as texts.
pub(crate) fn sum_texts(
    alloc: Global,
    events: usize,
    lists: &[Vec<Entry<'_>>],
) -> Result<Vec<Text>, OutOfMemory>
    requires { All (λ entries. AreWithin events (entry_values entries.items)) lists.now }
    ensures { IfOk result (λ texts. texts.items
        ≡ map (λ entries. costs_text (costs_of events (entry_values entries.items))) lists.now) }
{
    let mut texts = Vec::with_capacity(alloc, lists.len())?;
    'lists: for entries in lists {
        let mut text = Text::new(alloc);
        push_sums(alloc, &mut text, events, entries)?;
        texts.push(text)?;
    }
    Ok(texts)
}
