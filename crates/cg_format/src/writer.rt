//! Writes the lines of a part, one after another.

ghost use Rattle.std.specs.Prelude.{◌≡◌, ◌++◌, ◌∷◌, [], List, OnOk, decimal, map};
ghost use Rattle.sym_map.specs.SymbolMap.{IsFile, IsFunc, SymbolMap};
ghost use Rattle.cg_format.specs.Marks.{Mark, Plain, File, Function, Callee, Calls};
ghost use Rattle.cg_format.specs.Marks.{Costs, add_number, cost_text, id_text, words_text};
ghost use Rattle.cg_format.specs.Part.{is_file, is_function, in_file};
ghost use Rattle.cg_format.specs.Standing.{WriterState};

use crate::file_key::FileKey;
use crate::ids::Ids;
use crate::naming::Naming;
use byte_text::{OutOfMemory, Text};
use event_costs::{ContextNo, FileId};
use itoa::Buffer;
use std::alloc::Global;

/// The text so far, and what later lines look back to.
#[derive(Drop)]
pub struct Writer {
    pub text: Text,
    /// The files whose names are written.
    pub files: Ids,
    /// The functions whose names are written.
    pub functions: Ids,
    /// The current file.
    pub file: Option<FileId>,
    /// The current function.
    pub function: Option<ContextNo>,
}

/// Appends numbers, each after a space.
fn push_numbers(text: &mut Text, numbers: &[u64]) -> Result<(), OutOfMemory>
    ensures { OnOk result (text.new ≡ text.old ++ cost_text numbers.now) }
{
    'numbers: for number in numbers {
        text.push(b" ")?;
        text.push_number(*number)?;
    }
    Ok(())
}

/// Appends sums, each after a space.
fn push_sums(text: &mut Text, sums: &[u128]) -> Result<(), OutOfMemory>
    ensures { OnOk result (text.new ≡ text.old ++ cost_text sums.now) }
{
    'sums: for sum in sums {
        let mut digits = Buffer::new();
        text.push(b" ")?;
        text.push(digits.format(*sum).as_bytes())?;
    }
    Ok(())
}

/// Appends names, each after a space.
fn push_names(text: &mut Text, names: &[&str]) -> Result<(), OutOfMemory>
    ensures { OnOk result (text.new ≡ text.old ++ words_text (map (λ name. name.now) names.now)) }
{
    'names: for name in names {
        text.push(b" ")?;
        text.push(name.as_bytes())?;
    }
    Ok(())
}

/// Appends an id, and a name after it that is written for the first time.
fn push_named(text: &mut Text, ids: &mut Ids, number: u64, name: &[u8]) -> Result<(), OutOfMemory>
    ensures text { OnOk result (text.new ≡ text.old ++ id_text ids.old number name.now) }
    ensures ids { OnOk result (ids.new ≡ add_number ids.old number) }
{
    let id = ids.id_of(number)?;
    text.push(b"(")?;
    text.push_number(id.number)?;
    text.push(b")")?;
    if id.is_new {
        text.push(b" ")?;
        text.push(name)?;
    }
    Ok(())
}

impl Writer {
    /// A writer that has written nothing.
    pub fn new(alloc: Global) -> Writer
        ensures { (m : SymbolMap) → WriterState m [] result }
    {
        Writer {
            text: Text::new(alloc),
            files: Ids::new(alloc),
            functions: Ids::new(alloc),
            file: None,
            function: None,
        }
    }

    /// Writes a line of two pieces.
    pub fn put_line(&mut self, key: &[u8], value: &[u8]) -> Result<(), OutOfMemory>
        ensures { (m : SymbolMap) (before : List Mark) → WriterState m before self.old
            → OnOk result (WriterState m (Plain (key.now ++ value.now) ∷ before) self.new) }
    {
        self.text.push(key)?;
        self.text.push(value)?;
        self.text.push(b"\n")
    }

    /// Writes a line of a key and a number.
    pub(crate) fn put_number(&mut self, key: &[u8], number: u32) -> Result<(), OutOfMemory>
        ensures { (m : SymbolMap) (before : List Mark) → WriterState m before self.old
            → OnOk result (WriterState m (Plain (key.now ++ decimal number) ∷ before) self.new) }
    {
        self.text.push(key)?;
        self.text.push_number(u64::from(number))?;
        self.text.push(b"\n")
    }

    /// Writes a line of a key and names.
    pub(crate) fn put_names(&mut self, key: &[u8], names: &[&str]) -> Result<(), OutOfMemory>
        ensures { (m : SymbolMap) (before : List Mark) → WriterState m before self.old
            → OnOk result (WriterState m (Plain (key.now ++ words_text (map (λ name. name.now) names.now)) ∷ before) self.new) }
    {
        self.text.push(key)?;
        push_names(&mut self.text, names)?;
        self.text.push(b"\n")
    }

    /// Writes a line of a key and sums.
    pub(crate) fn put_sums(&mut self, key: &[u8], sums: &[u128]) -> Result<(), OutOfMemory>
        ensures { (m : SymbolMap) (before : List Mark) → WriterState m before self.old
            → OnOk result (WriterState m (Plain (key.now ++ cost_text sums.now) ∷ before) self.new) }
    {
        self.text.push(key)?;
        push_sums(&mut self.text, sums)?;
        self.text.push(b"\n")
    }

    /// Writes a line that names a file.
    pub(crate) fn put_file<N: Naming>(
        &mut self,
        names: &N,
        key: FileKey,
        file: FileId,
    ) -> Result<(), OutOfMemory>
        requires { IsFile (N.map names.now) file }
        ensures { (before : List Mark) → WriterState (N.map names.now) before self.old
            → OnOk result (WriterState (N.map names.now) (File key file ∷ before) self.new) }
    {
        self.text.push(key.text())?;
        push_named(
            &mut self.text,
            &mut self.files,
            u64::from(file.0),
            names.file_name(file),
        )?;
        self.text.push(b"\n")?;
        match key {
            FileKey::Home | FileKey::Other | FileKey::Back => self.file = Some(file),
            FileKey::OfCallee => {}
        }
        Ok(())
    }

    /// Writes a line that names a file, where that isn't the current one.
    pub fn enter_file<N: Naming>(
        &mut self,
        names: &N,
        key: FileKey,
        file: FileId,
    ) -> Result<(), OutOfMemory>
        requires { IsFile (N.map names.now) file }
        ensures { (before : List Mark) → WriterState (N.map names.now) before self.old
            → OnOk result (WriterState (N.map names.now) (in_file key file before) self.new) }
    {
        if self.is_in_file(file) {
            return Ok(());
        }
        self.put_file(names, key, file)
    }

    fn is_in_file(&self, file: FileId) -> bool
        ensures { result ≡ is_file self.now.file file }
    {
        match self.file {
            Some(current) => current.0 == file.0,
            None => false,
        }
    }

    pub(crate) fn is_in_function(&self, function: ContextNo) -> bool
        ensures { result ≡ is_function self.now.function function }
    {
        match self.function {
            Some(current) => current.0 == function.0,
            None => false,
        }
    }

    /// Writes the line of a function, which becomes the current one.
    pub(crate) fn put_function<N: Naming>(
        &mut self,
        names: &N,
        function: ContextNo,
    ) -> Result<(), OutOfMemory>
        requires { IsFunc (N.map names.now) function }
        ensures { (before : List Mark) → WriterState (N.map names.now) before self.old
            → OnOk result (WriterState (N.map names.now) (Function function ∷ before) self.new) }
    {
        self.text.push(b"fn=")?;
        push_named(
            &mut self.text,
            &mut self.functions,
            function.0,
            names.name(function),
        )?;
        self.text.push(b"\n")?;
        self.function = Some(function);
        Ok(())
    }

    /// Writes the line of a callee.
    pub fn put_callee<N: Naming>(
        &mut self,
        names: &N,
        function: ContextNo,
    ) -> Result<(), OutOfMemory>
        requires { IsFunc (N.map names.now) function }
        ensures { (before : List Mark) → WriterState (N.map names.now) before self.old
            → OnOk result (WriterState (N.map names.now) (Callee function ∷ before) self.new) }
    {
        self.text.push(b"cfn=")?;
        push_named(
            &mut self.text,
            &mut self.functions,
            function.0,
            names.name(function),
        )?;
        self.text.push(b"\n")
    }

    /// Writes how often the callee was called, and the line of its entry.
    pub(crate) fn put_calls(&mut self, calls: u64, line: u32) -> Result<(), OutOfMemory>
        ensures { (m : SymbolMap) (before : List Mark) → WriterState m before self.old
            → OnOk result (WriterState m (Calls calls line ∷ before) self.new) }
    {
        self.text.push(b"calls=")?;
        self.text.push_number(calls)?;
        self.text.push(b" ")?;
        self.text.push_number(u64::from(line))?;
        self.text.push(b"\n")
    }

    /// Writes a line number and its costs.
    pub(crate) fn put_costs(&mut self, line: u32, costs: &[u64]) -> Result<(), OutOfMemory>
        ensures { (m : SymbolMap) (before : List Mark) → WriterState m before self.old
            → OnOk result (WriterState m (Costs line costs.now ∷ before) self.new) }
    {
        self.text.push_number(u64::from(line))?;
        push_numbers(&mut self.text, costs)?;
        self.text.push(b"\n")
    }

    /// The text of the lines.
    pub fn into_text(self) -> Text
        ensures { result ≡ self.text }
    {
        self.text
    }
}
