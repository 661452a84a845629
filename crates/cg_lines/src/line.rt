//! What a line says by itself.

ghost use Rattle.std.specs.Prelude.{◌≡◌, ◌∷◌};
ghost use Rattle.std.specs.Str.{bytes_eq};
ghost use Rattle.cg_lines.specs.Shapes.{is_jump, is_file_key, field_of, field_line, naming, calls_line, assignment};
ghost use Rattle.cg_lines.specs.Shapes.{header, key_line, begins_position, cost_line, shape, line_of};
ghost use Rattle.cg_lines.specs.Lines.{words};
ghost use Rattle.cg_lines.specs.Shapes.{follows_call, is_blank_line, is_cost, is_positions};

use crate::front::{leading_letters, strip, trim};
use crate::name::{Name, name_of};
use crate::number::{Number, number_of};
use crate::parts::{Words, split_word};
use crate::sub_position::{SubPosition, sub_position_of};
use byte_text::TextRef;

/// What a key with a name sets.
#[derive(Clone, Copy, Debug)]
pub enum Field {
    Object,
    File,
    Function,
    CalleeObject,
    CalleeFile,
    Callee,
}

/// What a line says by itself. What it means is said by the lines before it.
#[derive(Debug, Drop)]
pub enum Line<'a> {
    /// An empty line or a comment.
    Blank,
    /// A line that is passed over.
    Header,
    /// `cmd:` and the command.
    Command(TextRef<'a>),
    /// `events:` and what follows.
    Events(TextRef<'a>),
    /// `positions:` and what follows.
    Positions(TextRef<'a>),
    /// `ob=`.
    Object(Name<'a>),
    /// `fl=`, `fi=` and `fe=`.
    File(Name<'a>),
    /// `fn=`.
    Function(Name<'a>),
    /// `cob=`.
    CalleeObject(Name<'a>),
    /// `cfi=` and `cfl=`.
    CalleeFile(Name<'a>),
    /// `cfn=`.
    Callee(Name<'a>),
    /// `calls=` with how many calls, and the position that was called.
    Calls(Number, SubPosition),
    /// `calls=` with anything else.
    BadCalls,
    /// A position, and what follows it.
    Cost(SubPosition, TextRef<'a>),
    /// A line that begins like a position, and has none.
    BadCost,
    /// A line on jumps.
    Jump,
    /// Anything else.
    Bad,
}

impl Line<'_> {
    /// Whether the line carries nothing.
    pub fn is_blank(&self) -> bool
        ensures { result ≡ is_blank_line self.now }
    {
        matches!(self, Line::Blank)
    }

    /// Whether the line may stand between a call and its cost line, or is that line.
    pub fn follows_call(&self) -> bool
        ensures { result ≡ follows_call self.now }
    {
        matches!(self, Line::Blank | Line::Cost(_, _))
    }

    /// Whether the line has costs.
    pub fn is_cost(&self) -> bool
        ensures { result ≡ is_cost self.now }
    {
        matches!(self, Line::Cost(_, _))
    }

    /// Whether the line says what positions are.
    pub fn is_positions(&self) -> bool
        ensures { result ≡ is_positions self.now }
    {
        matches!(self, Line::Positions(_))
    }
}

/// Whether the key is this word.
fn is(key: &[u8], word: &str) -> bool
    ensures { result ≡ bytes_eq key.now word.now }
{
    key == word.as_bytes()
}

fn is_jump(key: &[u8]) -> bool
    ensures { result ≡ is_jump key.now }
{
    is(key, "jump")
        || is(key, "jcnd")
        || is(key, "jfi")
        || is(key, "jfl")
        || is(key, "jfn")
        || is(key, "job")
}

fn is_file_key(key: &[u8]) -> bool
    ensures { result ≡ is_file_key key.now }
{
    is(key, "fl") || is(key, "fi") || is(key, "fe")
}

fn field_of(key: &[u8]) -> Option<Field>
    ensures { result ≡ field_of key.now }
{
    if is(key, "ob") {
        Some(Field::Object)
    } else if is_file_key(key) {
        Some(Field::File)
    } else if is(key, "fn") {
        Some(Field::Function)
    } else if is(key, "cob") {
        Some(Field::CalleeObject)
    } else if is(key, "cfi") || is(key, "cfl") {
        Some(Field::CalleeFile)
    } else if is(key, "cfn") {
        Some(Field::Callee)
    } else {
        None
    }
}

fn field_line(field: Option<Field>, name: Name<'_>) -> Line<'_>
    ensures { result ≡ field_line field name.entry }
{
    match field {
        None => Line::Bad,
        Some(Field::Object) => Line::Object(name),
        Some(Field::File) => Line::File(name),
        Some(Field::Function) => Line::Function(name),
        Some(Field::CalleeObject) => Line::CalleeObject(name),
        Some(Field::CalleeFile) => Line::CalleeFile(name),
        Some(Field::Callee) => Line::Callee(name),
    }
}

fn naming<'a>(key: &[u8], value: &'a [u8]) -> Line<'a>
    ensures { result ≡ naming key.now value.now }
{
    if value.is_empty() {
        Line::Bad
    } else {
        field_line(field_of(key), name_of(value))
    }
}

/// `calls=` with this many calls, and these words behind it.
pub(crate) fn calls_after<'a>(count: &[u8], mut words: Words<'_>) -> Line<'a>
    ensures { result ≡ calls_line (count.now ∷ words.entry) }
{
    let Some(place) = words.next() else {
        return Line::BadCalls;
    };
    if words.next().is_some() {
        return Line::BadCalls;
    }
    match (number_of(count), sub_position_of(place)) {
        (Some(count), Some(place)) => Line::Calls(count, place),
        _ => Line::BadCalls,
    }
}

fn calls_line(value: &[u8]) -> Line<'_>
    ensures { result ≡ calls_line (words value.now) }
{
    let mut words = Words::new(value);
    match words.next() {
        Some(count) => calls_after(count, words),
        None => Line::BadCalls,
    }
}

fn assignment<'a>(key: &[u8], value: &'a [u8]) -> Line<'a>
    ensures { result ≡ assignment key.now value.now }
{
    if is_jump(key) {
        Line::Jump
    } else if is(key, "calls") {
        calls_line(value)
    } else {
        naming(key, value)
    }
}

fn header<'a>(key: &[u8], value: &'a [u8]) -> Line<'a>
    ensures { result ≡ header key.now value.now }
{
    if key.is_empty() {
        Line::Bad
    } else if is(key, "events") {
        Line::Events(TextRef::new(value))
    } else if is(key, "positions") {
        Line::Positions(TextRef::new(value))
    } else if is(key, "cmd") {
        Line::Command(TextRef::new(trim(value)))
    } else {
        Line::Header
    }
}

fn key_line<'a>(key: &[u8], rest: &'a [u8]) -> Line<'a>
    ensures { result ≡ key_line key.now rest.now }
{
    match rest {
        [b':', value @ ..] => header(key, value),
        [b'=', value @ ..] => assignment(key, value),
        _ => Line::Bad,
    }
}

pub(crate) fn begins_position(byte: u8) -> bool
    ensures { result ≡ begins_position byte }
{
    byte.is_ascii_digit() || byte == b'*' || byte == b'+' || byte == b'-'
}

pub(crate) fn cost_line(text: &[u8]) -> Line<'_>
    ensures { result ≡ cost_line text.now }
{
    let (word, costs) = split_word(text);
    match sub_position_of(word) {
        Some(place) => Line::Cost(place, TextRef::new(costs)),
        None => Line::BadCost,
    }
}

pub(crate) fn shape(text: &[u8]) -> Line<'_>
    ensures { result ≡ shape text.now }
{
    let Some(first) = text.first() else {
        return Line::Blank;
    };
    if *first == b'#' {
        Line::Blank
    } else if begins_position(*first) {
        cost_line(text)
    } else {
        let (key, rest) = text.split_at(leading_letters(text));
        key_line(key, rest)
    }
}

/// What a line of the file says by itself.
pub fn line_of(line: &[u8]) -> Line<'_>
    ensures { result ≡ line_of line.now }
{
    shape(strip(line))
}
