//! The parts of a run, as they are put.

ghost use Rattle.std.specs.Prelude.{◌≡◌, ◌<◌, ◌≤◌, ◌+◌, ◌++◌, ◌∷◌, [], ℕ, List, IfErr, IfOk, OnOk, length, map};
ghost use Rattle.std.specs.Prelude.{codes, string_bytes};
ghost use Rattle.std.specs.List.{join_by};
ghost use Rattle.event_costs.specs.declared.numbers.ThreadNo.{ThreadNo as ThreadNoValue};
ghost use Rattle.outside.specs.Outside.{shelf_of};
ghost use Rattle.recorder.specs.Accounts.{knows, live};
ghost use Rattle.profile_run.specs.declared.run_fault.RunFault.{RunFault};
ghost use Rattle.profile_run.specs.inner.Standing.{CanPut, HasPut, IsHeadOf, IsPutting, Plan, PutsThreads, calls_below};
ghost use Rattle.profile_run.specs.inner.Standing.{files_after};
ghost use Rattle.byte_text.specs.Memory.{memory};

use crate::options::RunOptions;
use crate::run_end::PartFile;
use crate::run_fault::RunFault;
use byte_text::{OutOfMemory, Text};
use cg_format::{PartHead, Trigger};
use event_costs::ThreadNo;
use outside::Folder;
use part_dump::{DumpError, Watch, dump_text};
use recorder::Recorder;
use std::alloc::Global;
use sym_map::SymMap;

/// The head of the next part, and the parts that were put.
#[derive(Drop)]
pub struct Parts {
    pub alloc: Global,
    pub head: PartHead,
    pub put: Vec<PartFile>,
}

/// The command line of a run, as its parts tell it: the arguments, joined by spaces.
pub fn command_line(alloc: Global, args: &[String]) -> Result<Text, OutOfMemory>
    ensures { IfOk result (λ text. text ≡ join_by (λ text. text) (codes " ") (map string_bytes args.now)) }
{
    let Some((first, rest)) = args.split_first() else {
        return Ok(Text::new(alloc));
    };
    let mut text = Text::from_bytes(alloc, first.as_bytes())?;
    'arguments: for arg in rest {
        text.push(b" ")?;
        text.push(arg.as_bytes())?;
    }
    Ok(text)
}

impl Parts {
    /// Before the first part.
    pub fn new(alloc: Global, args: &[String], options: &RunOptions) -> Result<Parts, OutOfMemory>
        requires { 0 < length args.now }
        ensures head { IfOk result (λ parts. IsHeadOf (map string_bytes args.now) options.now parts.head) }
        ensures put { IfOk result (λ parts. parts.put.items ≡ []) }
    {
        let cmd = command_line(alloc, args)?;
        let object = Text::from_bytes(alloc, args[0].as_bytes())?;
        Ok(Parts {
            alloc,
            head: PartHead {
                thread: ThreadNo(1),
                part: 1,
                cmd,
                object,
                i1: options.i1,
                d1: options.d1,
                ll: options.ll,
                trigger: Trigger::Termination,
                branch: options.branch,
            },
            put: Vec::new(alloc),
        })
    }

    /// Puts the parts of a segment, by rising thread, of which there are so many.
    pub fn put_segment<W: Watch, F: Folder>(
        &mut self,
        options: &RunOptions,
        threads: u32,
        recorder: &mut Recorder,
        watch: &mut W,
        folder: &mut F,
        syms: &SymMap,
    ) -> Result<(), RunFault>
        requires { CanPut W.meaning W.fresh syms.now options.now 1 self.old.head recorder.old watch.old }
        ensures puts { (plan : Plan W) → plan.guest.syms ≡ syms.now → plan.guest.options ≡ options.now
            → IsPutting W.meaning plan 1 self.old.head recorder.old watch.old
            → HasPut options.now.base
            (files_after W.meaning plan (calls_below plan self.old.head.part self.old.head.trigger 1))
            plan.folder (shelf_of F.Folder folder.old) self.old.put.items
            → PutsThreads W.meaning plan self.old.head.part self.old.head.trigger (threads + 1)
            (F.put_faults folder.old) result self.new recorder.new watch.new (shelf_of F.Folder folder.new)
            (F.put_faults folder.new) }
        ensures known { (other : ThreadNoValue) → knows recorder.new other ≡ knows recorder.old other }
        ensures live { live recorder.new ≡ live recorder.old }
        ensures part { self.new.head.part ≡ self.old.head.part }
        ensures never_falls { F.put_faults folder.old ≤ F.put_faults folder.new }
        ensures loads { F.load_faults folder.new ≡ F.load_faults folder.old }
    {
        let mut number = 0;
        'threads: while number < threads {
            let thread = ThreadNo(number + 1);
            let quiet = recorder.quiet_from(thread);
            if quiet > 0 {
                number = number.saturating_add(quiet).min(threads);
            } else {
                self.put_thread(options, thread, recorder, watch, folder, syms)?;
                number += 1;
            }
        }
        Ok(())
    }

    /// Puts the part of a thread, where it has an event in the segment.
    fn put_thread<W: Watch, F: Folder>(
        &mut self,
        options: &RunOptions,
        thread: ThreadNo,
        recorder: &mut Recorder,
        watch: &mut W,
        folder: &mut F,
        syms: &SymMap,
    ) -> Result<(), RunFault>
        requires { CanPut W.meaning W.fresh syms.now options.now thread.0 self.old.head recorder.old watch.old }
        ensures puts { (plan : Plan W) → plan.guest.syms ≡ syms.now → plan.guest.options ≡ options.now
            → IsPutting W.meaning plan thread.0 self.old.head recorder.old watch.old
            → HasPut options.now.base
            (files_after W.meaning plan (calls_below plan self.old.head.part self.old.head.trigger thread.0))
            plan.folder (shelf_of F.Folder folder.old) self.old.put.items
            → PutsThreads W.meaning plan self.old.head.part self.old.head.trigger (thread.0 + 1)
            (F.put_faults folder.old) result self.new recorder.new watch.new (shelf_of F.Folder folder.new)
            (F.put_faults folder.new) }
        ensures can { OnOk result
            (CanPut W.meaning W.fresh syms.now options.now (thread.0 + 1) self.new.head recorder.new watch.new) }
        ensures known { (other : ThreadNoValue) → knows recorder.new other ≡ knows recorder.old other }
        ensures live { live recorder.new ≡ live recorder.old }
        ensures part { self.new.head.part ≡ self.old.head.part }
        ensures never_falls { F.put_faults folder.old ≤ F.put_faults folder.new }
        ensures loads { F.load_faults folder.new ≡ F.load_faults folder.old }
    {
        if !recorder.had_event(thread) {
            return Ok(());
        }
        let rows = match recorder.take_rows(thread) {
            Ok(rows) => rows,
            Err(refused) => return Err(RunFault::OutOfMemory(refused)),
        };
        self.head.thread = thread;
        let text = match watch.part(&self.head, &rows, syms) {
            Ok(text) => text,
            Err(refused) => return Err(RunFault::OutOfMemory(refused)),
        };
        match dump_text(self.alloc, options.base.as_str(), &self.head, &text, folder) {
            Ok(len) => self.list(thread, len),
            Err(DumpError::PutFault) => Err(RunFault::PutFault(self.head.part, thread)),
            Err(DumpError::OutOfMemory(refused)) => Err(RunFault::OutOfMemory(refused)),
        }
    }

    /// Lists a part that was put.
    fn list(&mut self, thread: ThreadNo, len: u64) -> Result<(), RunFault>
        ensures ok { OnOk result (self.new.put.items
            ≡ self.old.put.items ++ record { part = self.old.head.part; thread = thread; len = len } ∷ []) }
        ensures err { IfErr result (λ fault. fault ≡ RunFault.OutOfMemory memory) }
        ensures head { self.new.head ≡ self.old.head }
    {
        let part = PartFile {
            part: self.head.part,
            thread,
            len,
        };
        match self.put.push(part) {
            Ok(()) => Ok(()),
            Err(refused) => Err(RunFault::OutOfMemory(OutOfMemory::from(refused))),
        }
    }
}
