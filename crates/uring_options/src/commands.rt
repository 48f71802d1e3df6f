//! The commands of `uring`, as clap knows them.

ghost use Rattle.std.specs.Prelude.{◌≡◌, IfOk, codes, false};
ghost use Rattle.clap.specs.Words.{app_of, rule_of, with_rule};
ghost use Rattle.clap.specs.Simple.{new_app, with_subcommand};
ghost use Rattle.clap.specs.declared.builder.command.Command.TheViews.{out-Command};
ghost use Rattle.uring_options.specs.OptionRows.{app_of_row, rule_of_row, with_command_rows, with_rows_of};
ghost use Rattle.uring_options.specs.CommandLine.{Run, app_for, uring};

use crate::helps::{CLAIMS, IMAGES, ITEMS, REASONS, RECORDS, SEEN, STEPS};
use crate::option_rows::{
    ALL, ALLOWED, ALWAYS, APART, AT, CONTENTS, COUNT, CQ, EACH, EARLY, ECHO, FILE, FILES, GRAPH,
    GRAPH_AT, HISTORIES, HOLDS, JSON, LINUX, LIST, LISTED, MOST, MOVES, NEVER, NUMBER, OptionRow,
    PAGE, POWER, RESULTS, SEED, SHARED, SQ, START, STOP, STRICT, TIMELINE, UNIT, WORKERS,
};
use clap::builder::ValueParser;
use clap::{Arg, ArgAction, Command};
use std::alloc::{AllocError, Global};

/// A command under `uring`. A function makes each: where a text stands, each step of a table has it, so none stands beside a command line.
#[derive(Clone, Copy)]
pub(crate) struct CommandRow {
    name: &'static str,
    about: &'static str,
    after_help: &'static str,
    options: &'static [OptionRow],
}

/// `uring trace`.
fn trace() -> CommandRow
    ensures { app_of_row result ≡ app_for Run.Traces }
{
    CommandRow {
        name: "trace",
        about: "Read steps from standard input, a line each, and write the answer to each",
        after_help: STEPS,
        options: &[SQ, CQ, FILES, START, STOP, LINUX, ECHO, STRICT],
    }
}

/// `uring explain`.
fn explain() -> CommandRow
    ensures { app_of_row result ≡ app_for Run.Explains }
{
    CommandRow {
        name: "explain",
        about: "Do as trace does, and write the reason after each answer",
        after_help: REASONS,
        options: &[
            SQ, CQ, FILES, START, STOP, LINUX, GRAPH, GRAPH_AT, TIMELINE, PAGE, JSON,
        ],
    }
}

/// `uring check`.
fn check() -> CommandRow
    ensures { app_of_row result ≡ app_for Run.Checks }
{
    CommandRow {
        name: "check",
        about: "Read a recorded trace, a step with its answer on each line, and tell whether it is lawful",
        after_help: RECORDS,
        options: &[
            SQ, CQ, FILES, START, STOP, LINUX, ALL, APART, ALLOWED, PAGE, JSON, EARLY, MOVES,
        ],
    }
}

/// `uring play`.
fn play() -> CommandRow
    ensures { app_of_row result ≡ app_for Run.Plays }
{
    CommandRow {
        name: "play",
        about: "Read calls from standard input, play them in threads, and write their completions",
        after_help: ITEMS,
        options: &[SQ, CQ, FILES, START, LINUX, WORKERS, SHARED],
    }
}

/// `uring crash`.
fn crash() -> CommandRow
    ensures { app_of_row result ≡ app_for Run.Crashes }
{
    CommandRow {
        name: "crash",
        about: "Read steps as trace does, let the power fail, and write what is left of a file",
        after_help: IMAGES,
        options: &[
            SQ, CQ, FILES, START, STOP, LINUX, FILE, UNIT, AT, SEED, COUNT, LIST, LISTED, HOLDS,
            EACH,
        ],
    }
}

/// `uring outcomes`.
fn outcomes() -> CommandRow
    ensures { app_of_row result ≡ app_for Run.Lists }
{
    CommandRow {
        name: "outcomes",
        about: "Read calls as play does, and write everything that they may come to",
        after_help: CLAIMS,
        options: &[
            SQ, CQ, FILES, START, RESULTS, CONTENTS, POWER, UNIT, MOST, NUMBER, NEVER, ALWAYS,
        ],
    }
}

/// `uring fill`.
fn fill() -> CommandRow
    ensures { app_of_row result ≡ app_for Run.Fills }
{
    CommandRow {
        name: "fill",
        about: "Read what was seen of a ring, and write a history that shows it",
        after_help: SEEN,
        options: &[SQ, CQ, FILES, START, STOP, LINUX, HISTORIES],
    }
}

/// The program's command line.
pub(crate) fn uring_command<'a>(alloc: Global) -> Result<Command<'a>, AllocError>
    ensures { IfOk result (λ command. app_of command ≡ uring) }
{
    let rows = [
        trace(),
        explain(),
        check(),
        play(),
        crash(),
        outcomes(),
        fill(),
    ];
    with_commands(alloc, bare_command(alloc), &rows)
}

/// The program's command line without its commands.
fn bare_command<'a>(alloc: Global) -> Command<'a>
    ensures { app_of result ≡ new_app (codes "uring") }
{
    Command::new(alloc, "uring")
        .about("The rings of io_uring, step by step")
        .long_about(
            "The rings of io_uring, step by step. Without a command it does `trace` with the defaults.",
        )
}

/// The command with these commands, in their order.
fn with_commands<'a>(
    alloc: Global,
    mut command: Command<'a>,
    rows: &[CommandRow],
) -> Result<Command<'a>, AllocError>
    ensures { IfOk result (λ more. app_of more ≡ with_command_rows (app_of command.entry) rows.now) }
{
    for row in rows {
        command = with_command(alloc, command, row)?;
    }
    Ok(command)
}

/// The command with one command more.
fn with_command<'a>(
    alloc: Global,
    command: Command<'a>,
    row: &CommandRow,
) -> Result<Command<'a>, AllocError>
    ensures { IfOk result
        (λ more. app_of more ≡ with_subcommand (app_of command.entry) (app_of_row row.now).top) }
{
    let sub = command_of(alloc, row)?;
    command.subcommand(sub)
}

/// The command, as clap knows it.
fn command_of<'a>(alloc: Global, row: &CommandRow) -> Result<Command<'a>, AllocError>
    ensures app { IfOk result (λ command. app_of command ≡ app_of_row row.now) }
    ensures local { IfOk result (λ command. (out-Command command).has_globals ≡ false) }
{
    let command = Command::new(alloc, row.name)
        .about(row.about)
        .after_help(row.after_help);
    with_options(alloc, command, row.options)
}

/// The command with these options, in their order.
fn with_options<'a>(
    alloc: Global,
    mut command: Command<'a>,
    rows: &[OptionRow],
) -> Result<Command<'a>, AllocError>
    ensures app { IfOk result (λ more. app_of more ≡ with_rows_of (app_of command.entry) rows.now) }
    ensures local { IfOk result
        (λ more. (out-Command more).has_globals ≡ (out-Command command.entry).has_globals) }
{
    for row in rows {
        command = with_option(alloc, command, *row)?;
    }
    Ok(command)
}

/// The command with one more option.
fn with_option<'a>(
    alloc: Global,
    command: Command<'a>,
    row: OptionRow,
) -> Result<Command<'a>, AllocError>
    ensures app { IfOk result
        (λ more. app_of more ≡ with_rule (app_of command.entry) (rule_of_row row)) }
    ensures local { IfOk result
        (λ more. (out-Command more).has_globals ≡ (out-Command command.entry).has_globals) }
{
    command.arg(option_of(alloc, row))
}

/// The option, as clap knows it.
fn option_of<'a>(alloc: Global, row: OptionRow) -> Arg<'a>
    ensures rule { rule_of result ≡ rule_of_row row }
    ensures local { result.global ≡ false }
{
    let option = Arg::new(alloc, row.id).long(row.id).help(row.help);
    match row.numbers {
        Some((least, most)) => option
            .value_name("N")
            .value_parser(ValueParser::Signed(least, most))
            .action(ArgAction::Set),
        None => option.action(ArgAction::SetTrue),
    }
}
