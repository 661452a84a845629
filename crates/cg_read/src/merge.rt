//! Joining one profile to another.

ghost use Rattle.std.specs.Prelude.{◌≡◌, ◌++◌, true, false, All, IfOk, OnOk, OnErr, IsErrOf};
ghost use Rattle.std.specs.Prelude.{map, length, ◌+◌, ◌≤◌, vec_len, vec_capacity};
ghost use Rattle.std.specs.List.{starts_with};
ghost use Rattle.std.specs.Str.{bytes_eq};
ghost use Rattle.cg_read.specs.Meaning.{or_else};
ghost use Rattle.cg_read.specs.Merge.{IsJoined, agree};
ghost use Rattle.cg_read.specs.inner.Gains.{HasRows, IsAppended, InRangeCall, InRangeSelf, NumberEach, no_rows};
ghost use Rattle.cg_read.specs.inner.Gains.{renumbered_call, renumbered_self, with_gain};
ghost use Rattle.key_tables.specs.Indexes.{Knows};
ghost use Rattle.cg_read.specs.Ranks.{text_order};

use crate::costs::padded_costs;
use crate::error::MergeError;
use crate::functions::append_all;
use crate::joined::text_copies;
use crate::profile::Profile;
use crate::rows::{CallRow, SelfRow};
use byte_text::{OutOfMemory, Text};
use key_tables::Index;
use std::alloc::Global;
use std::marker::Model;

/// The rows, with the numbers that their functions and files have in another profile, which has so many events.
fn renumbered_self_rows(
    alloc: Global,
    rows: &[SelfRow],
    events: usize,
    functions: &[usize],
    files: &[usize],
) -> Result<Vec<SelfRow>, OutOfMemory>
    requires { All (InRangeSelf events (length functions.now) (length files.now)) rows.now }
    ensures { IfOk result (λ copies. copies.items ≡ map (renumbered_self events functions.now files.now) rows.now) }
{
    let mut copies = Vec::with_capacity(alloc, rows.len())?;
    'rows: for row in rows {
        let cost = padded_costs(alloc, &row.cost, events)?;
        copies.push(SelfRow {
            func: functions[row.func],
            file: files[row.file],
            line: row.line,
            cost,
        })?;
    }
    Ok(copies)
}

/// The same of call rows.
fn renumbered_call_rows(
    alloc: Global,
    rows: &[CallRow],
    events: usize,
    functions: &[usize],
    files: &[usize],
) -> Result<Vec<CallRow>, OutOfMemory>
    requires { All (InRangeCall events (length functions.now) (length files.now)) rows.now }
    ensures { IfOk result (λ copies. copies.items ≡ map (renumbered_call events functions.now files.now) rows.now) }
{
    let mut copies = Vec::with_capacity(alloc, rows.len())?;
    'rows: for row in rows {
        let cost = padded_costs(alloc, &row.cost, events)?;
        copies.push(CallRow {
            caller: functions[row.caller],
            file: files[row.file],
            line: row.line,
            callee: functions[row.callee],
            calls: row.calls,
            cost,
        })?;
    }
    Ok(copies)
}

/// The own command, or else a copy of the other one.
fn gained_command(
    alloc: Global,
    own: &Option<Text>,
    other: &Option<Text>,
) -> Result<Option<Text>, OutOfMemory>
    ensures { IfOk result (λ gained. or_else own.now gained ≡ or_else own.now other.now) }
{
    match (own, other) {
        (None, Some(text)) => Ok(Some(Text::from_bytes(alloc, text.as_bytes())?)),
        _ => Ok(None),
    }
}

/// Whether a list of names begins with another.
fn begins_with(names: &[Text], front: &[Text]) -> bool
    ensures { result ≡ starts_with bytes_eq names.now front.now }
{
    names.starts_with(front)
}

/// What a profile gains from another.
#[derive(Drop)]
struct Gain {
    command: Option<Text>,
    files: Vec<Text>,
    self_rows: Vec<SelfRow>,
    call_rows: Vec<CallRow>,
}

/// What a profile gains from one that has no more events, where that one's functions have these numbers in it.
fn gain_of(
    alloc: Global,
    own: &Profile,
    index: &mut Index<Text>,
    other: &Profile,
    functions: &[usize],
) -> Result<Gain, OutOfMemory>
    requires few { length other.now.events ≤ length own.now.events }
    requires knows { Knows text_order own.now.files index.old }
    requires functions { NumberEach own.now.functions functions.now other.now.functions }
    ensures knows { Knows text_order own.now.files index.new }
    ensures has_rows { IfOk result (λ g. HasRows own.now.functions own.now other.now
        (with_gain own.now g.command g.files.items g.self_rows.items g.call_rows.items)) }
{
    let files = index.gain(alloc, &own.files, &other.files)?;
    let events = own.events.len();
    let self_rows = renumbered_self_rows(
        alloc,
        &other.self_rows,
        events,
        functions,
        &files.numbers,
    )?;
    let call_rows = renumbered_call_rows(
        alloc,
        &other.call_rows,
        events,
        functions,
        &files.numbers,
    )?;
    let command = gained_command(alloc, &own.command, &other.command)?;
    Ok(Gain {
        command,
        files: files.added,
        self_rows,
        call_rows,
    })
}

/// Makes room for a gain in a profile's lists, which stay as they are.
fn reserve_gain(
    files: &mut Vec<Text>,
    self_rows: &mut Vec<SelfRow>,
    call_rows: &mut Vec<CallRow>,
    gain: &Gain,
) -> Result<(), OutOfMemory>
    ensures files { OnOk result (vec_len files.new + vec_len gain.now.files ≤ vec_capacity files.new) }
    ensures self_rows { OnOk result (vec_len self_rows.new + vec_len gain.now.self_rows ≤ vec_capacity self_rows.new) }
    ensures call_rows { OnOk result (vec_len call_rows.new + vec_len gain.now.call_rows ≤ vec_capacity call_rows.new) }
    ensures kept { (files.new.items ≡ files.old.items) × (self_rows.new.items ≡ self_rows.old.items) × (call_rows.new.items ≡ call_rows.old.items) }
{
    files.reserve(gain.files.len())?;
    self_rows.reserve(gain.self_rows.len())?;
    call_rows.reserve(gain.call_rows.len())?;
    Ok(())
}

/// Moves the gain into a profile's lists. After a refusal they are as before.
fn take_gain(
    command: &mut Option<Text>,
    files: &mut Vec<Text>,
    self_rows: &mut Vec<SelfRow>,
    call_rows: &mut Vec<CallRow>,
    gain: Gain,
) -> Result<(), OutOfMemory>
    ensures command { OnOk result (command.new ≡ or_else command.old gain.command) }
    ensures files { OnOk result (files.new.items ≡ files.old.items ++ gain.files.items) }
    ensures self_rows { OnOk result (self_rows.new.items ≡ self_rows.old.items ++ gain.self_rows.items) }
    ensures call_rows { OnOk result (call_rows.new.items ≡ call_rows.old.items ++ gain.call_rows.items) }
    ensures err { OnErr result ((command.new ≡ command.old)
        × (files.new.items ≡ files.old.items) × (self_rows.new.items ≡ self_rows.old.items)
        × (call_rows.new.items ≡ call_rows.old.items)) }
{
    reserve_gain(files, self_rows, call_rows, &gain)?;
    append_all(files, gain.files);
    append_all(self_rows, gain.self_rows);
    append_all(call_rows, gain.call_rows);
    if command.is_none() {
        *command = gain.command;
    }
    Ok(())
}

/// A copy of a profile.
pub(crate) fn copy_of(profile: &Profile) -> Result<Profile, OutOfMemory>
    ensures { IfOk result (λ p. p ≡ profile.now) }
{
    let alloc = *profile.self_rows.allocator();
    let copy = profile.wider_copy(alloc, profile)?;
    Ok(copy)
}

impl Profile {
    /// Appends the rows of another profile, where one of the lists of event names begins with the other. The profile
    /// then has the longer list, and a row with fewer costs has 0 for the rest. Equal functions become one, and so do
    /// equal files, and a command is taken where there was none.
    pub fn merge(&mut self, other: &Profile) -> Result<(), MergeError>
        ensures joined { OnOk result (IsJoined self.old other.now self.new) }
        ensures differ { IsErrOf result MergeError.EventsDiffer → agree self.old.events other.now.events ≡ false }
        ensures alike { agree self.old.events other.now.events ≡ false → IsErrOf result MergeError.EventsDiffer }
        ensures err { OnErr result (self.new ≡ self.old) }
    {
        let alloc = *self.self_rows.allocator();
        self.merge_by(alloc, &mut Index::new(alloc), other)
    }

    /// The same, where the places of the files stand in an index.
    fn merge_by(
        &mut self,
        alloc: Global,
        index: &mut Index<Text>,
        other: &Profile,
    ) -> Result<(), MergeError>
        requires knows { Knows text_order self.old.files index.old }
        ensures knows { Knows text_order self.new.files index.new }
        ensures joined { OnOk result (IsJoined self.old other.now self.new) }
        ensures differ { IsErrOf result MergeError.EventsDiffer → agree self.old.events other.now.events ≡ false }
        ensures alike { agree self.old.events other.now.events ≡ false → IsErrOf result MergeError.EventsDiffer }
        ensures err { OnErr result (self.new ≡ self.old) }
    {
        if begins_with(&self.events, &other.events) {
            self.append(alloc, index, other)?;
            return Ok(());
        }
        if !begins_with(&other.events, &self.events) {
            return Err(MergeError::EventsDiffer);
        }
        self.append_wider(alloc, index, other)?;
        Ok(())
    }

    /// Appends the rows of a profile that has no more events.
    fn append(
        &mut self,
        alloc: Global,
        index: &mut Index<Text>,
        other: &Profile,
    ) -> Result<(), OutOfMemory>
        requires few { length other.now.events ≤ length self.old.events }
        requires knows { Knows text_order self.old.files index.old }
        ensures knows { Knows text_order self.new.files index.new }
        ensures appended { OnOk result (IsAppended self.old other.now self.new) }
        ensures err { OnErr result (self.new ≡ self.old) }
    {
        let count = self.functions.len();
        let functions = self.functions.join(alloc, &other.functions)?;
        match self.append_rows(alloc, index, other, &functions) {
            Ok(()) => Ok(()),
            Err(error) => {
                self.functions.truncate(alloc, count);
                Err(error)
            }
        }
    }

    /// Appends the rows, where the functions stand already and the other's have these numbers.
    fn append_rows(
        &mut self,
        alloc: Global,
        index: &mut Index<Text>,
        other: &Profile,
        functions: &[usize],
    ) -> Result<(), OutOfMemory>
        requires few { length other.now.events ≤ length self.old.events }
        requires knows { Knows text_order self.old.files index.old }
        requires functions { NumberEach self.old.functions functions.now other.now.functions }
        ensures knows { Knows text_order self.new.files index.new }
        ensures has_rows { OnOk result (HasRows self.old.functions self.old other.now self.new) }
        ensures err { OnErr result (self.new ≡ self.old) }
    {
        let gain = gain_of(alloc, self, index, other, functions)?;
        take_gain(
            &mut self.command,
            &mut self.files,
            &mut self.self_rows,
            &mut self.call_rows,
            gain,
        )
    }

    /// Appends the rows of a profile that has more events, which begin with the own ones.
    fn append_wider(
        &mut self,
        alloc: Global,
        index: &mut Index<Text>,
        other: &Profile,
    ) -> Result<(), OutOfMemory>
        requires events { starts_with bytes_eq other.now.events self.old.events ≡ true }
        requires knows { Knows text_order self.old.files index.old }
        ensures knows { Knows text_order self.new.files index.new }
        ensures joined { OnOk result (IsJoined self.old other.now self.new) }
        ensures err { OnErr result (self.new ≡ self.old) }
    {
        let mut joined = self.wider_copy(alloc, other)?;
        let mut fresh = Index::new(alloc);
        joined.append(alloc, &mut fresh, other)?;
        *self = joined;
        *index = fresh;
        Ok(())
    }

    /// The rows of this profile, appended to a profile of the events of another, which has no fewer.
    fn wider_copy(&self, alloc: Global, other: &Profile) -> Result<Profile, OutOfMemory>
        requires { length self.now.events ≤ length other.now.events }
        ensures { IfOk result (λ p. IsAppended (no_rows other.now.events) self.now p) }
    {
        let events = text_copies(alloc, &other.events)?;
        let mut widened = Profile::of_events(alloc, events);
        widened.append(alloc, &mut Index::new(alloc), self)?;
        Ok(widened)
    }
}

/// A profile to which others are joined one after another, each at its own cost: which functions and files there are is
/// kept beside it. Contracts see the profile.
#[derive(Drop)]
pub struct Joined {
    profile: Profile,
    files: Index<Text>,
}

impl Model for Joined {
    ghost use Rattle.cg_read.specs.Profiles.{Contents};
    ghost use Rattle.cg_read.specs.Ranks.{text_order};
    ghost use Rattle.key_tables.specs.Indexes.{Knows};

    ghost Value = { Contents };

    ghost view = { λ j. j.profile };

    ghost invariant = { λ j. Knows text_order j.profile.files j.files };
}

impl Joined {
    /// A profile before others are joined to it. It takes no memory.
    pub fn new(alloc: Global, profile: Profile) -> Joined
        ensures { result ≡ profile }
    {
        Joined {
            profile,
            files: Index::new(alloc),
        }
    }

    /// Appends the rows of another profile, as `Profile::merge` does.
    pub fn merge(&mut self, alloc: Global, other: &Profile) -> Result<(), MergeError>
        ensures joined { OnOk result (IsJoined self.old other.now self.new) }
        ensures differ { IsErrOf result MergeError.EventsDiffer → agree self.old.events other.now.events ≡ false }
        ensures alike { agree self.old.events other.now.events ≡ false → IsErrOf result MergeError.EventsDiffer }
        ensures err { OnErr result (self.new ≡ self.old) }
    {
        self.profile.merge_by(alloc, &mut self.files, other)
    }

    /// The profile of all that were joined.
    pub fn into_profile(self) -> Profile
        ensures { result ≡ self }
    {
        self.profile
    }
}
