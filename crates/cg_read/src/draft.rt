//! A profile while its rows are read.

ghost use Rattle.std.specs.Prelude.{◌≡◌, ◌<◌, ◌∷◌, [], ◌++◌, ℕ, List, length};
ghost use Rattle.std.specs.Prelude.{map, slice_get, Some, OnOk, IfOk, All};
ghost use Rattle.cg_read.specs.Profiles.{AreApart, NamedSelf, NamedCall};
ghost use Rattle.cg_read.specs.inner.Drafts.{Holds};
ghost use Rattle.cg_read.specs.inner.Texts.{Names, IsOfTexts, function_in, text_in};
ghost use Rattle.cg_read.specs.declared.rows.FuncKey.{FuncKey as FuncKeyValue};

use crate::function_numbers::FunctionNumbers;
use crate::functions::Functions;
use crate::rows::{CallRow, CostList, SelfRow};
use crate::texts::{ProfileTexts, optional_text_of, texts_numbered, texts_of};
use byte_text::{OutOfMemory, TextRef};
use key_tables::TextKeys;
use std::alloc::Global;

/// The rows so far. Functions and files are numbered in the order in which rows first name them, and are known by the
/// numbers of their texts.
#[derive(Drop)]
pub(crate) struct Draft {
    pub(crate) functions: TextKeys<FunctionNumbers>,
    pub(crate) files: TextKeys<usize>,
    pub(crate) self_rows: Vec<SelfRow>,
    pub(crate) call_rows: Vec<CallRow>,
}

impl Draft {
    pub(crate) fn new(alloc: Global) -> Draft
        ensures holds { (n : ℕ) (texts : List (List ℕ)) → Holds texts n result [] [] }
        ensures empty { (result.self_rows.items ≡ []) × (result.call_rows.items ≡ []) }
    {
        Draft {
            functions: TextKeys::new(alloc),
            files: TextKeys::new(alloc),
            self_rows: Vec::new(alloc),
            call_rows: Vec::new(alloc),
        }
    }

    /// Adds a self row. After a refusal the draft is of no use.
    pub(crate) fn self_row(
        &mut self,
        function: FunctionNumbers,
        file: usize,
        line: u64,
        cost: CostList,
    ) -> Result<(), OutOfMemory>
        ensures { (texts : List (List ℕ)) (n : ℕ) (selfs : List NamedSelf) (calls : List NamedCall)
            (the_function : FuncKeyValue) (the_file : List ℕ)
            → Holds texts n self.old selfs calls → length cost ≡ n
            → Names texts function the_function → slice_get texts file ≡ Some the_file
            → OnOk result (Holds texts n self.new
            (selfs ++ (record { function = the_function; file = the_file; line = line; cost = cost }) ∷ []) calls) }
    {
        let func = self.functions.number(function)?;
        let file = self.files.number(file)?;
        self.self_rows.push(SelfRow {
            func,
            file,
            line,
            cost,
        })?;
        Ok(())
    }

    /// Adds a call row. After a refusal the draft is of no use.
    pub(crate) fn call_row(
        &mut self,
        caller: FunctionNumbers,
        file: usize,
        line: u64,
        callee: FunctionNumbers,
        calls: u64,
        cost: CostList,
    ) -> Result<(), OutOfMemory>
        ensures { (texts : List (List ℕ)) (n : ℕ) (selfs : List NamedSelf) (others : List NamedCall)
            (the_caller the_callee : FuncKeyValue) (the_file : List ℕ)
            → Holds texts n self.old selfs others → length cost ≡ n
            → Names texts caller the_caller → Names texts callee the_callee → slice_get texts file ≡ Some the_file
            → OnOk result (Holds texts n self.new selfs
            (others ++ (record {
              caller = the_caller;
              file = the_file;
              line = line;
              callee = the_callee;
              calls = calls;
              cost = cost;
            }) ∷ [])) }
    {
        let caller = self.functions.number(caller)?;
        let callee = self.functions.number(callee)?;
        let file = self.files.number(file)?;
        self.call_rows.push(CallRow {
            caller,
            file,
            line,
            callee,
            calls,
            cost,
        })?;
        Ok(())
    }

    /// The texts of the profile of these rows, whose functions and files have these texts.
    pub(crate) fn profile_texts(
        &self,
        alloc: Global,
        texts: &[TextRef<'_>],
        events: &[TextRef<'_>],
        command: &Option<TextRef<'_>>,
    ) -> Result<ProfileTexts, OutOfMemory>
        requires differ { AreApart texts.now }
        requires functions { All (IsOfTexts (length texts.now)) self.now.functions }
        requires files { All (λ file. file < length texts.now) self.now.files }
        ensures events { IfOk result (λ t. t.events.items ≡ events.now) }
        ensures command { IfOk result (λ t. t.command ≡ command.now) }
        ensures functions { IfOk result (λ t. t.functions ≡ map (function_in texts.now) self.now.functions) }
        ensures files { IfOk result (λ t. t.files.items ≡ map (text_in texts.now) self.now.files) }
        ensures functions_differ { OnOk result (AreApart (map (function_in texts.now) self.now.functions)) }
        ensures files_differ { OnOk result (AreApart (map (text_in texts.now) self.now.files)) }
    {
        Ok(ProfileTexts {
            events: texts_of(alloc, events)?,
            command: optional_text_of(alloc, command)?,
            functions: Functions::of_numbers(alloc, texts, self.functions.keys())?,
            files: texts_numbered(alloc, texts, self.files.keys())?,
        })
    }
}
