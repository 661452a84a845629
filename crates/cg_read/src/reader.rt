//! The state that is carried from line to line, with a method for each kind of line.

ghost use Rattle.std.specs.Prelude.{◌≡◌, true, false, ◌∷◌, ◌++◌, [], Some, None, List, ℕ, Option, ◌&&◌, not, is_some};
ghost use Rattle.std.specs.Prelude.{IsNone, IsSome, IfOk, OnOk, IfErr, MatchResult, length, slice_get, unwrap_or};
ghost use Rattle.cg_read.specs.inner.Drafts.{Holds};
ghost use Rattle.cg_read.specs.Faults.{Answers};
ghost use Rattle.cg_lines.specs.Faults.{Refuses};
ghost use Rattle.cg_read.specs.inner.Knowing.{Knows, Takes, TakesAlone, Opens, counting_from};
ghost use Rattle.cg_read.specs.inner.Texts.{Names};
ghost use Rattle.cg_read.specs.Meaning.{Call, events, open_call, position, shape_fault, self_if};
ghost use Rattle.cg_lines.specs.Shapes.{follows_call};
ghost use Rattle.cg_lines.specs.Names.{same_names};
ghost use Rattle.cg_read.specs.Meaning.{call_if};
ghost use Rattle.cg_read.specs.Profiles.{NamedSelf, NamedCall, contents, unknown};
ghost use Rattle.cg_read.specs.Reading.{Says, last_line, end_fault};
ghost use Rattle.cg_lines.specs.declared.line.Line.{Line as AnyLine};
ghost use Rattle.cg_read.specs.declared.rows.FuncKey.{FuncKey as FuncKeyValue};

use crate::callee::NextCallee;
use crate::costs::costs_of;
use crate::current::Current;
use crate::draft::Draft;
use crate::error::FormatError;
use crate::function_numbers::FunctionNumbers;
use crate::ids::{KnownIds, resolve};
use crate::profile::Profile;
use crate::rows::{CostList, take_all};
use crate::texts::ProfileTexts;
use byte_text::{OutOfMemory, TextRef, UNKNOWN};
use cg_lines::{
    Fault, Line, Name, Number, SubPosition, are_distinct, event_names, position_at, positions_fault,
};
use cg_positions::position_after;
use key_tables::Table;
use std::alloc::Global;

/// A call whose cost line comes next.
#[derive(Drop)]
pub(crate) struct OpenCall {
    callee: FunctionNumbers,
    calls: u64,
}

/// What the lines so far say of the next one.
#[derive(Drop)]
pub(crate) struct Reader<'a> {
    alloc: Global,
    events: Option<Vec<TextRef<'a>>>,
    command: Option<TextRef<'a>>,
    /// All texts that names stand for, by their numbers.
    texts: Table<'a>,
    ids: KnownIds<'a>,
    current: Current,
    /// What relative positions count from.
    position: u64,
    callee: NextCallee,
    open_call: Option<OpenCall>,
    draft: Draft,
}

/// The texts that stand for what is not said, and their numbers.
#[derive(Drop)]
struct FirstTexts<'a> {
    texts: Table<'a>,
    empty: usize,
    unknown: usize,
}

fn first_texts<'a>(alloc: Global) -> Result<FirstTexts<'a>, OutOfMemory>
    ensures empty { IfOk result (λ first. slice_get first.texts first.empty ≡ Some []) }
    ensures unknown { IfOk result (λ first. slice_get first.texts first.unknown ≡ Some unknown) }
{
    let mut texts = Table::new(alloc);
    let empty = texts.number(TextRef::new(b""))?;
    let unknown = texts.number(TextRef::new(UNKNOWN))?;
    Ok(FirstTexts {
        texts,
        empty,
        unknown,
    })
}

impl<'a> Reader<'a> {
    /// Before the first line.
    pub(crate) fn new(alloc: Global) -> Result<Reader<'a>, OutOfMemory>
        ensures { IfOk result (λ reader. Knows reader []) }
    {
        let FirstTexts {
            texts,
            empty,
            unknown,
        } = first_texts(alloc)?;
        Ok(Reader {
            alloc,
            events: None,
            command: None,
            texts,
            ids: KnownIds::new(alloc),
            current: Current::new(empty, unknown),
            position: 0,
            callee: NextCallee {
                object: None,
                file: None,
                name: None,
            },
            open_call: None,
            draft: Draft::new(alloc),
        })
    }

    /// The names of the events, where the file may end. `last` is the number of the last line that carries something.
    fn events_at_end(&self, last: u64) -> Result<&[TextRef<'a>], FormatError>
        ensures names { (before : List AnyLine) → Knows self.now before
            → IfOk result (λ names. events before ≡ Some names.now) }
        ensures end { (before : List AnyLine) → Knows self.now before → last ≡ last_line before
            → MatchResult result (λ _. end_fault before ≡ None) (λ e. Answers e (end_fault before)) }
    {
        if self.open_call.is_some() {
            return Err(FormatError::BadLine(last));
        }
        match &self.events {
            None => Err(FormatError::NoEvents),
            Some(names) => Ok(names),
        }
    }

    /// The texts of the profile that the lines say, at the file's end.
    fn profile_texts(&self, last: u64) -> Result<ProfileTexts, FormatError>
        requires { (before : List AnyLine) × Knows self.now before }
        ensures says { (before : List AnyLine) → Knows self.now before
            → IfOk result (λ t. Says before (contents t.events.items t.command t.functions t.files.items
            self.now.draft.self_rows.items self.now.draft.call_rows.items)) }
        ensures end { (before : List AnyLine) → Knows self.now before → last ≡ last_line before
            → MatchResult result (λ _. end_fault before ≡ None) (λ e. Answers e (end_fault before)) }
    {
        let events = self.events_at_end(last)?;
        let texts = self.texts.keys();
        let command = &self.command;
        Ok(
            self.draft
                .profile_texts(self.alloc, texts, events, command)?,
        )
    }

    /// The profile that the lines say, at the file's end. The reader is then of no use.
    pub(crate) fn finish(&mut self, last: u64) -> Result<Profile, FormatError>
        requires { (before : List AnyLine) × Knows self.old before }
        ensures { (before : List AnyLine) → Knows self.old before → last ≡ last_line before
            → MatchResult result (λ p. Says before p × (end_fault before ≡ None)) (λ e. Answers e (end_fault before)) }
    {
        let texts = self.profile_texts(last)?;
        let self_rows = take_all(&mut self.draft.self_rows);
        let call_rows = take_all(&mut self.draft.call_rows);
        Ok(texts.with_rows(self_rows, call_rows))
    }

    /// Whether a call waits for its cost line.
    pub(crate) fn has_open_call(&self) -> bool
        ensures { (before : List AnyLine) → Knows self.now before → result ≡ is_some (open_call before) }
    {
        self.open_call.is_some()
    }

    /// Whether the events are named.
    pub(crate) fn has_events(&self) -> bool
        ensures { (before : List AnyLine) → Knows self.now before → result ≡ is_some (events before) }
    {
        self.events.is_some()
    }

    fn command_line(&mut self, text: &TextRef<'a>)
        requires { IsNone self.old.open_call }
        ensures { (before : List AnyLine) → Knows self.old before
            → Knows (counting_from (position before) self.new) (Line.Command text.now ∷ before) }
    {
        self.command = Some(self.command.take().unwrap_or(text.again()));
    }

    fn object_line(&mut self, name: &Name<'a>) -> Result<(), Fault>
        requires { IsNone self.old.open_call }
        ensures { TakesAlone self.old (Line.Object name.now) result self.new }
    {
        self.current.object = resolve(&mut self.ids.objects, &mut self.texts, name)?;
        Ok(())
    }

    fn file_line(&mut self, name: &Name<'a>) -> Result<(), Fault>
        requires { IsNone self.old.open_call }
        ensures { TakesAlone self.old (Line.File name.now) result self.new }
    {
        self.current.file = resolve(&mut self.ids.files, &mut self.texts, name)?;
        Ok(())
    }

    fn function_line(&mut self, name: &Name<'a>) -> Result<(), Fault>
        requires { IsNone self.old.open_call }
        ensures { TakesAlone self.old (Line.Function name.now) result self.new }
    {
        let name = resolve(&mut self.ids.functions, &mut self.texts, name)?;
        self.current.function = FunctionNumbers {
            object: self.current.object,
            file: self.current.file,
            name,
        };
        Ok(())
    }

    fn callee_object_line(&mut self, name: &Name<'a>) -> Result<(), Fault>
        requires { IsNone self.old.open_call }
        ensures { TakesAlone self.old (Line.CalleeObject name.now) result self.new }
    {
        let object = resolve(&mut self.ids.objects, &mut self.texts, name)?;
        self.callee.object = Some(object);
        Ok(())
    }

    fn callee_file_line(&mut self, name: &Name<'a>) -> Result<(), Fault>
        requires { IsNone self.old.open_call }
        ensures { TakesAlone self.old (Line.CalleeFile name.now) result self.new }
    {
        let file = resolve(&mut self.ids.files, &mut self.texts, name)?;
        self.callee.file = Some(file);
        Ok(())
    }

    fn callee_line(&mut self, name: &Name<'a>) -> Result<(), Fault>
        requires { IsNone self.old.open_call }
        ensures { TakesAlone self.old (Line.Callee name.now) result self.new }
    {
        let callee = resolve(&mut self.ids.functions, &mut self.texts, name)?;
        self.callee.name = Some(callee);
        Ok(())
    }

    /// The first `events:` line sets the names, and each later one repeats them.
    fn events_line(&mut self, text: &TextRef<'a>) -> Result<(), Fault>
        requires { IsNone self.old.open_call }
        ensures { TakesAlone self.old (Line.Events text.now) result self.new }
    {
        let names = event_names(self.alloc, text.as_bytes())?;
        if let Some(first) = &self.events {
            return repeat(first, &names);
        }
        if names.is_empty() {
            return Err(Fault::BadLine);
        }
        if !are_distinct(&names) {
            return Err(Fault::BadLine);
        }
        self.events = Some(names);
        Ok(())
    }

    /// A call waits for its cost line.
    fn calls_line(&mut self, count: Number, place: SubPosition) -> Result<(), Fault>
        requires { IsNone self.old.open_call }
        ensures { TakesAlone self.old (Line.Calls count place) result self.new }
    {
        if self.events.is_none() {
            return Err(Fault::NoEvents);
        }
        let Some(callee) = self.callee.take(&self.current) else {
            return Err(Fault::BadLine);
        };
        let Number::Fits(calls) = count else {
            return Err(Fault::BadNumber);
        };
        if position_at(self.position, place).is_none() {
            return Err(Fault::BadNumber);
        }
        self.open_call = Some(OpenCall { callee, calls });
        Ok(())
    }

    /// The row of a cost line: of the open call, if there is one.
    fn row(&mut self, line: u64, cost: CostList) -> Result<(), OutOfMemory>
        ensures rows { (n : ℕ) (selfs : List NamedSelf) (calls : List NamedCall) (meant : Option Call)
            (the_function : FuncKeyValue) (the_file : List ℕ)
            → Holds self.old.texts n self.old.draft selfs calls → length cost ≡ n
            → Opens self.old.texts self.old.open_call meant
            → Names self.old.texts self.old.current.function the_function
            → slice_get self.old.texts self.old.current.file ≡ Some the_file
            → OnOk result (Holds self.old.texts n self.new.draft
            (selfs ++ self_if meant (record { function = the_function; file = the_file; line = line; cost = cost }))
            (calls ++ call_if meant (λ call. record {
              caller = the_function;
              file = the_file;
              line = line;
              callee = call.callee;
              calls = call.calls;
              cost = cost;
            }))) }
        ensures rest { OnOk result (self.new ≡ record self.old { open_call = None; draft = self.new.draft }) }
    {
        let current = &self.current;
        match self.open_call.take() {
            None => self
                .draft
                .self_row(current.function, current.file, line, cost),
            Some(call) => self.draft.call_row(
                current.function,
                current.file,
                line,
                call.callee,
                call.calls,
                cost,
            ),
        }
    }

    fn cost_line(&mut self, place: SubPosition, costs: &TextRef<'a>) -> Result<(), Fault>
        ensures { TakesAlone self.old (Line.Cost place costs.now) result self.new }
    {
        let Some(events) = &self.events else {
            return Err(Fault::NoEvents);
        };
        let cost = costs_of(self.alloc, costs.as_bytes(), events.len())?;
        let Some(line) = position_at(self.position, place) else {
            return Err(Fault::BadNumber);
        };
        self.row(line, cost)?;
        Ok(())
    }

    /// A line that has costs or calls, and is malformed.
    fn malformed(&self) -> Fault
        ensures { (before : List AnyLine) → Knows self.now before → Some result ≡ shape_fault (events before) }
    {
        if self.events.is_some() {
            Fault::BadLine
        } else {
            Fault::NoEvents
        }
    }

    /// Whether the line stands between a call and its cost line, where nothing else may.
    fn breaks_call(&self, line: &Line<'a>) -> bool
        ensures { result ≡ (is_some self.now.open_call && not (follows_call line.now)) }
    {
        self.open_call.is_some() && !line.follows_call()
    }

    /// The line by itself.
    fn line_alone(&mut self, line: &Line<'a>) -> Result<(), Fault>
        requires { is_some self.old.open_call && not (follows_call line.now) ≡ false }
        ensures { TakesAlone self.old line.now result self.new }
    {
        match line {
            Line::Blank => Ok(()),
            Line::Header => Ok(()),
            Line::Command(text) => {
                self.command_line(text);
                Ok(())
            }
            Line::Events(text) => self.events_line(text),
            Line::Positions(text) => match positions_fault(text.as_bytes()) {
                None => Ok(()),
                Some(fault) => Err(fault),
            },
            Line::Object(name) => self.object_line(name),
            Line::File(name) => self.file_line(name),
            Line::Function(name) => self.function_line(name),
            Line::CalleeObject(name) => self.callee_object_line(name),
            Line::CalleeFile(name) => self.callee_file_line(name),
            Line::Callee(name) => self.callee_line(name),
            Line::Calls(count, place) => self.calls_line(*count, *place),
            Line::BadCalls => Err(self.malformed()),
            Line::Cost(place, costs) => self.cost_line(*place, costs),
            Line::BadCost => Err(self.malformed()),
            Line::Jump => Err(Fault::Jumps),
            Line::Bad => Err(Fault::BadLine),
        }
    }

    /// The next line of the file. After a refusal the reader is of no use.
    pub(crate) fn line(&mut self, line: &Line<'a>) -> Result<(), Fault>
        ensures { Takes self.old line.now result self.new }
    {
        if self.breaks_call(line) {
            return Err(Fault::BadLine);
        }
        let position = position_after(self.position, line);
        self.line_alone(line)?;
        self.position = position;
        Ok(())
    }
}

/// Whether the names of events are the first ones.
fn repeat(first: &[TextRef<'_>], names: &[TextRef<'_>]) -> Result<(), Fault>
    ensures same { OnOk result (same_names first.now names.now ≡ true) }
    ensures err { IfErr result (λ e. (e ≡ Fault.BadLine) × (same_names first.now names.now ≡ false)) }
{
    if first == names {
        Ok(())
    } else {
        Err(Fault::BadLine)
    }
}
