//! The program of a job: its file, its symbols and the options of its run.

ghost use Rattle.std.specs.Prelude.{◌≡◌, IfOk, map, option_map, string_bytes};
ghost use Rattle.command_words.specs.Meaning.{job_of};
ghost use Rattle.sym_map.specs.SymbolMap.{IsSound};
ghost use Rattle.profile_cli.specs.Order.{elf_status};
ghost use Rattle.profile_cli.specs.Program.{IsMapOf, options_of};
ghost use Rattle.profile_cli.specs.Words.{program_of};
ghost use Rattle.profile_cli.specs.inner.RunStages.{ReadsProgram};

use byte_text::OutOfMemory;
use command_status::Status;
use command_words::Job;
use elf_read::{Elf, ElfError};
use guest_sched::Turns;
use profile_run::RunOptions;
use std::alloc::Global;
use sym_map::{SymMap, maps_are_sound};

/// The name of a program, which is its first argument.
pub fn program_name(args: &[String]) -> &str
    ensures { result.now ≡ program_of (map (λ word. string_bytes word) args.now) }
{
    match args {
        [program, ..] => program.as_str(),
        [] => "",
    }
}

/// Reads a program from the bytes of its file.
pub fn read_program(alloc: Global, bytes: &[u8]) -> Result<Elf<'_>, Status>
    ensures { ReadsProgram bytes.now result }
{
    match elf_read::read(alloc, bytes) {
        Ok(elf) => Ok(elf),
        Err(refused) => Err(elf_status(refused)),
    }
}

/// The status of a program that is refused.
fn elf_status(refused: ElfError) -> Status
    ensures { result ≡ elf_status refused }
{
    match refused {
        ElfError::OutOfMemory(refused) => Status::OutOfMemory(refused),
        _ => Status::ElfRefused(refused),
    }
}

/// The functions, files and lines of a program.
pub fn read_symbols(alloc: Global, elf: &Elf<'_>) -> Result<SymMap, OutOfMemory>
    ensures map { IfOk result (IsMapOf elf.now) }
    ensures sound { IfOk result IsSound }
{
    let rows = dwarf_line::rows(
        alloc,
        elf.content(b".debug_line"),
        elf.content(b".debug_line_str"),
        elf.content(b".debug_str"),
    )?;
    let syms = sym_map::build(alloc, elf, &rows)?;
    maps_are_sound(&syms);
    Ok(syms)
}

/// What the options of a job ask of its run.
pub fn options_of(alloc: Global, job: &Job<'_>) -> Result<RunOptions, OutOfMemory>
    ensures { IfOk result (λ options. options ≡ options_of (job_of job.now)) }
{
    Ok(RunOptions {
        base: String::from_str(alloc, job.base)?,
        budget: job.budget,
        turns: Turns {
            quantum: job.quantum,
            seed: job.seed,
        },
        i1: job.caches.i1,
        d1: job.caches.d1,
        ll: job.caches.ll,
        every: job.dumps.every,
        before: copy_of(alloc, job.dumps.before)?,
        after: copy_of(alloc, job.dumps.after)?,
        branch: job.branches,
    })
}

/// A copy of a text, where there is one.
fn copy_of(alloc: Global, text: Option<&str>) -> Result<Option<String>, OutOfMemory>
    ensures { IfOk result (λ copy. option_map (λ c. string_bytes c) copy ≡ option_map (λ t. t.now) text.entry) }
{
    match text {
        Some(text) => Ok(Some(String::from_str(alloc, text)?)),
        None => Ok(None),
    }
}
