//! What a command asks for, each option with its value or its default.

ghost use Rattle.std.specs.Prelude.{◌≡◌, [], IfOk, map, option_map, string_bytes};
ghost use Rattle.command_words.specs.Request.{default_first, default_last, demo, first};
ghost use Rattle.command_words.specs.Request.{job, command_request, tree_of, view};
ghost use Rattle.command_words.specs.Values.{number, shape_of};
ghost use Rattle.command_words.specs.Request.{positions as positions_asked, watching as watching_asked};
ghost use Rattle.command_words.specs.Request.{Tree as asked_tree};
ghost use Rattle.command_words.specs.Meaning.{job_of, meaning_of, positions_of, uses_of, view_of, watching_of};
ghost use Rattle.command_words.specs.Meaning.{tree_of as meaning_of_tree};
ghost use Rattle.command_words.specs.Rows.{command_of};
ghost use Rattle.std.specs.Prelude.{codes, option_and_then, unwrap_or};

use crate::option_values::{first, first_geometry, first_number, first_small_number, says};
use crate::request::{Dumps, Geometries, Job, Positions, Request, Tree, View, Watching};
use crate::table::Command;
use crate::value::small_number;
use cache_lru::Geometry;
use sorted_words::SortedWords;
use std::alloc::{AllocError, Global};

const DEFAULT_BASE: &str = "callgrind.out";

const DEFAULT_BUDGET: u64 = 1_000_000_000;

const DEFAULT_QUANTUM: u32 = 10_000;

/// The size of the largest demonstration.
const LARGEST_DEMO: u32 = 100_000;

/// The first level by default: 32 KiB, 8-way, with lines of 64 bytes.
fn default_first() -> Geometry
    ensures { result ≡ default_first }
{
    match Geometry::new(32_768, 8, 64) {
        Some(geometry) => geometry,
        None => unreachable!(),
    }
}

/// The last level by default: 8 MiB, 16-way, with lines of 64 bytes.
fn default_last() -> Geometry
    ensures { result ≡ default_last }
{
    match Geometry::new(8_388_608, 16, 64) {
        Some(geometry) => geometry,
        None => unreachable!(),
    }
}

fn caches(given: &SortedWords<'_>) -> Geometries
    ensures i1 { result.i1 ≡ unwrap_or (option_and_then shape_of (first (uses_of given.now (codes "I1")))) default_first }
    ensures d1 { result.d1 ≡ unwrap_or (option_and_then shape_of (first (uses_of given.now (codes "D1")))) default_first }
    ensures ll { result.ll ≡ unwrap_or (option_and_then shape_of (first (uses_of given.now (codes "LL")))) default_last }
{
    Geometries {
        i1: first_geometry(given, "I1").unwrap_or(default_first()),
        d1: first_geometry(given, "D1").unwrap_or(default_first()),
        ll: first_geometry(given, "LL").unwrap_or(default_last()),
    }
}

fn dumps<'a>(given: &SortedWords<'a>) -> Dumps<'a>
    ensures every { result.every ≡ option_and_then number (first (uses_of given.now (codes "dump-every"))) }
    ensures before { option_map (λ name. name.now) result.before ≡ first (uses_of given.now (codes "dump-before")) }
    ensures after { option_map (λ name. name.now) result.after ≡ first (uses_of given.now (codes "dump-after")) }
{
    Dumps {
        every: first_number(given, "dump-every"),
        before: first(given, "dump-before"),
        after: first(given, "dump-after"),
    }
}

/// Texts of their own.
fn owned(alloc: Global, texts: &[&str]) -> Result<Vec<String>, AllocError>
    ensures { IfOk result (λ owned. map (λ text. string_bytes text) owned.items ≡ map (λ text. text.now) texts.now) }
{
    let mut owned = Vec::new(alloc);
    for text in texts {
        owned.push(String::from_str(alloc, text)?)?;
    }
    Ok(owned)
}

/// The values, as a program takes its arguments.
fn arguments(alloc: Global, given: &SortedWords<'_>) -> Result<Vec<String>, AllocError>
    ensures { IfOk result (λ args. map (λ word. string_bytes word) args.items ≡ given.now.values) }
{
    match given.values() {
        Some(values) => owned(alloc, values),
        None => Ok(Vec::new(alloc)),
    }
}

fn files<'a>(alloc: Global, given: &SortedWords<'a>) -> Result<Vec<&'a str>, AllocError>
    ensures { IfOk result (λ files. map (λ file. file.now) files.items ≡ given.now.values) }
{
    match given.values() {
        Some(values) => values.to_vec(alloc),
        None => Ok(Vec::new(alloc)),
    }
}

/// What `run` is asked to count besides its parts.
fn watching(given: &SortedWords<'_>) -> Watching
    ensures { watching_of result ≡ watching_asked (uses_of given.now) }
{
    if says(given, "waits", "yes") {
        return Watching::Waits;
    }
    if says(given, "dump-instr", "yes") {
        return Watching::Addresses;
    }
    match first_small_number(given, "separate-callers") {
        Some(callers) => Watching::Contexts(callers),
        None => Watching::Nothing,
    }
}

/// The positions of the parts of `report`.
fn positions(given: &SortedWords<'_>) -> Positions
    ensures { positions_of result ≡ positions_asked (uses_of given.now) }
{
    if says(given, "dump-instr", "yes") {
        Positions::AddressAndLine
    } else {
        Positions::Line
    }
}

/// What `run` is asked to do, and `report` before it reports.
fn job<'a>(alloc: Global, given: &SortedWords<'a>) -> Result<Job<'a>, AllocError>
    ensures { IfOk result (λ r. job_of r ≡ job (uses_of given.now) given.now.values) }
{
    Ok(Job {
        base: first(given, "base").unwrap_or(DEFAULT_BASE),
        input: first(given, "input"),
        budget: first_number(given, "budget").unwrap_or(DEFAULT_BUDGET),
        quantum: first_small_number(given, "quantum").unwrap_or(DEFAULT_QUANTUM),
        seed: first_number(given, "turns"),
        caches: caches(given),
        dumps: dumps(given),
        branches: says(given, "branch-sim", "yes"),
        args: arguments(alloc, given)?,
    })
}

/// A run of these arguments, where each option but the beginning of the files' names has its default.
pub fn default_job<'a>(base: &'a str, args: Vec<String>) -> Job<'a>
    ensures { job_of result
        ≡ record (job (λ _. []) (map (λ word. string_bytes word) args.items)) { base = base.now } }
{
    Job {
        base,
        input: None,
        budget: DEFAULT_BUDGET,
        quantum: DEFAULT_QUANTUM,
        seed: None,
        caches: Geometries {
            i1: default_first(),
            d1: default_first(),
            ll: default_last(),
        },
        dumps: Dumps {
            every: None,
            before: None,
            after: None,
        },
        branches: false,
        args,
    }
}

fn tree(given: &SortedWords<'_>) -> Tree
    ensures { meaning_of_tree result ≡ tree_of (uses_of given.now (codes "tree")) }
{
    if says(given, "tree", "caller") {
        Tree::Caller
    } else if says(given, "tree", "calling") {
        Tree::Calling
    } else if says(given, "tree", "both") {
        Tree::Both
    } else {
        Tree::Off
    }
}

/// What a report is asked to show.
fn view<'a>(given: &SortedWords<'a>) -> View<'a>
    ensures { view_of result ≡ view (uses_of given.now) }
{
    View {
        sort: first(given, "sort"),
        threshold: first_small_number(given, "threshold").unwrap_or(0),
        tree: tree(given),
        auto: says(given, "auto", "yes"),
    }
}

/// The demonstration of this size.
fn demo<'a>(given: &SortedWords<'_>) -> Request<'a>
    ensures { meaning_of result ≡ demo given.now.values }
{
    match given.values() {
        Some([size]) => match small_number(size) {
            Some(size) if 1 <= size && size <= LARGEST_DEMO => Request::Demo(size),
            _ => Request::Usage,
        },
        _ => Request::Usage,
    }
}

/// What a command asks for, where nothing is wrong with its options.
pub fn command_request<'a>(
    alloc: Global,
    command: Command,
    given: &SortedWords<'a>,
) -> Result<Request<'a>, AllocError>
    ensures { IfOk result (λ r. meaning_of r ≡ command_request (command_of command) (uses_of given.now) given.now.values) }
{
    Ok(match command {
        Command::Run => Request::Run(job(alloc, given)?, watching(given)),
        Command::Report => Request::Report(job(alloc, given)?, positions(given), view(given)),
        Command::Annotate => Request::Annotate(files(alloc, given)?, view(given)),
        Command::Demo => demo(given),
    })
}
