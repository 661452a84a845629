//! The commands as `clap` is told of them. `clap` only sorts words: nothing is required there, nothing has a default,
//! and each option may stand any number of times.

ghost use Rattle.std.specs.Prelude.{◌≡◌, IfOk, map, false};
ghost use Rattle.clap.specs.Simple.{app_of, shape_of};
ghost use Rattle.clap.specs.Walk.{rule_of};
ghost use Rattle.clap.specs.declared.builder.command.Command.TheViews.{out-Command as fields_of};
ghost use Rattle.sorted_words.specs.inner.Builder.{app, leaf, option_rule, values_rule};
ghost use Rattle.sorted_words.specs.Syntaxes.{syntax_of};

use crate::syntax::Syntax;
use clap::{Arg, ArgAction, Command};
use std::alloc::{AllocError, Global};

/// The id of the values, which is no option's.
pub const VALUES: &str = "";

/// The program with these commands.
pub fn program<'a>(alloc: Global, commands: &[Syntax<'a>]) -> Result<Command<'a>, AllocError>
    ensures { IfOk result (λ program. app_of program ≡ app (map syntax_of commands.now)) }
{
    let mut program = Command::new(alloc, "program")
        .disable_help_flag(true)
        .disable_help_subcommand(true)
        .subcommand_required(true);
    for syntax in commands {
        program = program.subcommand(command(alloc, syntax)?)?;
    }
    Ok(program)
}

/// A command, with its values and its options.
fn command<'a>(alloc: Global, syntax: &Syntax<'a>) -> Result<Command<'a>, AllocError>
    ensures shape { IfOk result (λ command. shape_of command ≡ leaf (syntax_of syntax.now)) }
    ensures local { IfOk result (λ command. (fields_of command).has_globals ≡ false) }
{
    let mut command = Command::new(alloc, syntax.name).arg(values(alloc))?;
    for name in &syntax.options {
        command = command.arg(option(alloc, *name))?;
    }
    Ok(command)
}

/// The words that are no options.
fn values<'a>(alloc: Global) -> Arg<'a>
    ensures rule { rule_of result ≡ values_rule }
    ensures local { result.global ≡ false }
{
    Arg::new(alloc, VALUES).action(ArgAction::Append)
}

/// An option that is called `--NAME`.
fn option<'a>(alloc: Global, name: &'a str) -> Arg<'a>
    ensures rule { rule_of result ≡ option_rule name.entry.now }
    ensures local { result.global ≡ false }
{
    Arg::new(alloc, name).long(name).action(ArgAction::Append)
}
