ghost use Rattle.std.specs.Prelude.{◌≡◌, IfOk, false};
ghost use Rattle.clap.specs.Words.{app_of, rule_of, shape_of, with_subcommand};
ghost use Rattle.clap.specs.Simple.{Shape, new_shape};
ghost use Rattle.clap.specs.declared.builder.command.Command.TheViews.{out-Command};
ghost use Rattle.program_words.specs.Line.{ask_shape, asked_shape, bare_line, conflicts_shape, explain_shape, flag_rule};
ghost use Rattle.program_words.specs.Line.{forced_shape, golden_shape, line, on_question, option_rule, possible_shape};
ghost use Rattle.program_words.specs.Line.{required_rule, session_shape, trial_shape, verify_shape, with_argument, with_search_options};

use clap::{Arg, ArgAction, Command};
use std::alloc::{AllocError, Global};

/// A word that has to be there.
fn required<'a>(alloc: Global, name: &'a str) -> Arg<'a>
    ensures rule { rule_of result ≡ required_rule name.entry.now }
    ensures local { result.global ≡ false }
{
    Arg::new(alloc, name).required(true)
}

/// `--name VALUE`.
fn option<'a>(alloc: Global, name: &'a str) -> Arg<'a>
    ensures rule { rule_of result ≡ option_rule name.entry.now }
    ensures local { result.global ≡ false }
{
    Arg::new(alloc, name).long(name)
}

/// `--name`.
fn flag<'a>(alloc: Global, name: &'a str) -> Arg<'a>
    ensures rule { rule_of result ≡ flag_rule name.entry.now }
    ensures local { result.global ≡ false }
{
    Arg::new(alloc, name).long(name).action(ArgAction::SetTrue)
}

/// A command of this name with no arguments yet.
fn bare<'a>(alloc: Global, name: &'a str) -> Command<'a>
    ensures shape { shape_of result ≡ new_shape name.entry.now }
    ensures local { (out-Command result).has_globals ≡ false }
{
    Command::new(alloc, name)
}

/// A command with one more argument, the last.
fn with_argument<'a>(command: Command<'a>, argument: Arg<'a>) -> Result<Command<'a>, AllocError>
    requires command { (out-Command command).has_globals ≡ false }
    requires argument { argument.global ≡ false }
    ensures shape { IfOk result (λ c. shape_of c ≡ with_argument (shape_of command.entry) (rule_of argument.entry)) }
    ensures local { IfOk result (λ c. (out-Command c).has_globals ≡ false) }
{
    command.arg(argument)
}

/// A command of this name that takes SPEC QUESTION.
#[tactic(auto, unfolding(crate::specs::Line::on_question))]
fn on_question<'a>(alloc: Global, name: &'a str) -> Result<Command<'a>, AllocError>
    ensures shape { IfOk result (λ c. shape_of c ≡ on_question name.entry.now) }
    ensures local { IfOk result (λ c. (out-Command c).has_globals ≡ false) }
{
    let command = with_argument(bare(alloc, name), required(alloc, "SPEC"))?;
    with_argument(command, required(alloc, "QUESTION"))
}

/// A command with the options of a search behind its other arguments.
fn with_search_options<'a>(alloc: Global, command: Command<'a>) -> Result<Command<'a>, AllocError>
    requires { (out-Command command).has_globals ≡ false }
    ensures shape { IfOk result (λ c. shape_of c ≡ with_search_options (shape_of command.entry)) }
    ensures local { IfOk result (λ c. (out-Command c).has_globals ≡ false) }
{
    let command = with_argument(command, option(alloc, "budget"))?;
    with_argument(command, option(alloc, "guide"))
}

/// A command of this name that takes SPEC QUESTION with the options of a search, and `--brief` or `--csv`.
#[tactic(auto, unfolding(crate::specs::Line::on_question))]
fn asked<'a>(alloc: Global, name: &'a str) -> Result<Command<'a>, AllocError>
    ensures shape { IfOk result (λ c. shape_of c ≡ asked_shape name.entry.now) }
    ensures local { IfOk result (λ c. (out-Command c).has_globals ≡ false) }
{
    let command = with_search_options(alloc, on_question(alloc, name)?)?;
    let command = with_argument(command, flag(alloc, "brief"))?;
    with_argument(command, flag(alloc, "csv"))
}

#[tactic(auto, unfolding(crate::specs::Line::ask_shape))]
fn ask<'a>(alloc: Global) -> Result<Command<'a>, AllocError>
    ensures shape { IfOk result (λ c. shape_of c ≡ ask_shape) }
    ensures local { IfOk result (λ c. (out-Command c).has_globals ≡ false) }
{
    let command = with_argument(asked(alloc, "ask")?, flag(alloc, "verdict"))?;
    with_argument(command, flag(alloc, "exit"))
}

#[tactic(auto, unfolding(crate::specs::Line::on_question, crate::specs::Line::verify_shape))]
fn verify<'a>(alloc: Global) -> Result<Command<'a>, AllocError>
    ensures shape { IfOk result (λ c. shape_of c ≡ verify_shape) }
    ensures local { IfOk result (λ c. (out-Command c).has_globals ≡ false) }
{
    with_argument(on_question(alloc, "verify")?, required(alloc, "REPORT"))
}

#[tactic(auto, unfolding(crate::specs::Line::forced_shape))]
fn forced<'a>(alloc: Global) -> Result<Command<'a>, AllocError>
    ensures shape { IfOk result (λ c. shape_of c ≡ forced_shape) }
    ensures local { IfOk result (λ c. (out-Command c).has_globals ≡ false) }
{
    with_argument(bare(alloc, "forced"), required(alloc, "SPEC"))
}

#[tactic(auto, unfolding(crate::specs::Line::trial_shape))]
fn trial<'a>(alloc: Global) -> Result<Command<'a>, AllocError>
    ensures shape { IfOk result (λ c. shape_of c ≡ trial_shape) }
    ensures local { IfOk result (λ c. (out-Command c).has_globals ≡ false) }
{
    with_argument(bare(alloc, "trial"), required(alloc, "N"))
}

#[tactic(auto, unfolding(crate::specs::Line::on_question, crate::specs::Line::explain_shape))]
fn explain<'a>(alloc: Global) -> Result<Command<'a>, AllocError>
    ensures shape { IfOk result (λ c. shape_of c ≡ explain_shape) }
    ensures local { IfOk result (λ c. (out-Command c).has_globals ≡ false) }
{
    let command = with_argument(on_question(alloc, "explain")?, required(alloc, "N"))?;
    with_search_options(alloc, command)
}

#[tactic(auto, unfolding(crate::specs::Line::conflicts_shape))]
fn conflicts<'a>(alloc: Global) -> Result<Command<'a>, AllocError>
    ensures shape { IfOk result (λ c. shape_of c ≡ conflicts_shape) }
    ensures local { IfOk result (λ c. (out-Command c).has_globals ≡ false) }
{
    let command = with_argument(bare(alloc, "conflicts"), required(alloc, "SPEC"))?;
    with_search_options(alloc, command)
}

#[tactic(auto, unfolding(crate::specs::Line::golden_shape))]
fn golden<'a>(alloc: Global) -> Result<Command<'a>, AllocError>
    ensures shape { IfOk result (λ c. shape_of c ≡ golden_shape) }
    ensures local { IfOk result (λ c. (out-Command c).has_globals ≡ false) }
{
    let command = with_argument(bare(alloc, "golden"), required(alloc, "SPEC"))?;
    let command = with_argument(command, required(alloc, "RELATION"))?;
    with_search_options(alloc, command)
}

#[tactic(auto, unfolding(crate::specs::Line::possible_shape))]
fn possible<'a>(alloc: Global) -> Result<Command<'a>, AllocError>
    ensures shape { IfOk result (λ c. shape_of c ≡ possible_shape) }
    ensures local { IfOk result (λ c. (out-Command c).has_globals ≡ false) }
{
    asked(alloc, "possible")
}

#[tactic(auto, unfolding(crate::specs::Line::session_shape))]
fn session<'a>(alloc: Global) -> Result<Command<'a>, AllocError>
    ensures shape { IfOk result (λ c. shape_of c ≡ session_shape) }
    ensures local { IfOk result (λ c. (out-Command c).has_globals ≡ false) }
{
    let command = with_argument(bare(alloc, "session"), required(alloc, "SPEC"))?;
    let command = with_argument(command, required(alloc, "SCRIPT"))?;
    let command = with_search_options(alloc, command)?;
    with_argument(command, flag(alloc, "brief"))
}

/// The program with no command yet. Subcommands take its settings on help and version.
#[tactic(auto, unfolding(crate::specs::Line::bare_line))]
fn bare_line<'a>(alloc: Global) -> Command<'a>
    ensures { app_of result ≡ bare_line }
{
    Command::new(alloc, "currency")
        .disable_help_flag(true)
        .disable_help_subcommand(true)
        .disable_version_flag(true)
        .subcommand_required(true)
}

fn added<'a>(command: Command<'a>, subcommand: Command<'a>) -> Result<Command<'a>, AllocError>
    requires { (out-Command subcommand).has_globals ≡ false }
    ensures { IfOk result (λ c. app_of c ≡ with_subcommand (app_of command.entry) (shape_of subcommand.entry)) }
{
    command.subcommand(subcommand)
}

/// The command with this subcommand, where it could be made.
fn with_subcommand<'a>(
    command: Command<'a>,
    subcommand: Result<Command<'a>, AllocError>,
) -> Result<Command<'a>, AllocError>
    requires { IfOk subcommand (λ s. (out-Command s).has_globals ≡ false) }
    ensures { (shape : Shape) → IfOk subcommand.entry (λ s. shape_of s ≡ shape)
        → IfOk result (λ c. app_of c ≡ with_subcommand (app_of command.entry) shape) }
{
    added(command, subcommand?)
}

/// The program with its nine commands.
pub(crate) fn line<'a>(alloc: Global) -> Result<Command<'a>, AllocError>
    ensures { IfOk result (λ c. app_of c ≡ line) }
{
    let with_ask = with_subcommand(bare_line(alloc), ask(alloc))?;
    let with_verify = with_subcommand(with_ask, verify(alloc))?;
    let with_forced = with_subcommand(with_verify, forced(alloc))?;
    let with_trial = with_subcommand(with_forced, trial(alloc))?;
    let with_explain = with_subcommand(with_trial, explain(alloc))?;
    let with_conflicts = with_subcommand(with_explain, conflicts(alloc))?;
    let with_golden = with_subcommand(with_conflicts, golden(alloc))?;
    let with_possible = with_subcommand(with_golden, possible(alloc))?;
    with_subcommand(with_possible, session(alloc))
}
