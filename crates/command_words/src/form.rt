ghost use Rattle.std.specs.Prelude.{◌≡◌, ◌≢◌, ◌↔◌, ◌+◌, ◌<◌, ◌≤◌, IsTrue, IfOk, All, AllPairs, length, map, string_bytes};
ghost use Rattle.std.specs.List.{list_all, list_any};
ghost use Rattle.std.specs.Str.{bytes_eq};
ghost use Rattle.program_model.specs.declared.machine.TheConstants.{MAX_INSTANCES};
ghost use Rattle.command_words.specs.Words.{is_file_name};
ghost use Rattle.command_words.specs.Inner.Matching.{HasForm, options_of, required_of};
ghost use Rattle.command_words.specs.Inner.Scanning.{use_of, has_option, is_used};

use crate::matching::Command;
use crate::scanning::{OptionUse, cut_words};
use flag_rules::OutOfMemory;
use program_model::MAX_INSTANCES;
use std::alloc::Global;

const SYNTH_OPTIONS: &[&str] = &["pointers", "lines", "budget", "run", "order"];

const SYNTH_REQUIRED: &[&str] = &["pointers", "lines"];

const CHECK_OPTIONS: &[&str] = &["pointers", "lines", "answer"];

const RUN_OPTIONS: &[&str] = &["pointers", "program", "run"];

const RUN_REQUIRED: &[&str] = &["pointers", "program"];

const NO_OPTIONS: &[&str] = &[];

/// Whether words have the form of those after a command. Only such words are handed to `clap`.
pub(crate) fn has_form(
    alloc: Global,
    command: Command,
    words: &[String],
) -> Result<bool, OutOfMemory>
    ensures { IfOk result (λ answer. IsTrue answer ↔ HasForm command (map string_bytes words.now)) }
{
    let cut = cut_words(alloc, words)?;
    Ok(are_options(command, cut.uses.as_slice()) && are_names(cut.names))
}

// Whether the uses are those of options of a command, each at most once, with all that it needs, and no value begins as an option does.
fn are_options(command: Command, uses: &[OptionUse<'_>]) -> bool
    ensures { IsTrue result ↔ (IsTrue (list_all (λ used. has_option command used.name.now) uses.now)
        × AllPairs (λ one other. one.name ≢ other.name) (map use_of uses.now)
        × IsTrue (list_all (λ used. is_file_name used.value.now) uses.now)
        × IsTrue (list_all (λ name. is_used uses.now name) (required_of command))) }
{
    are_known(command, uses)
        && are_different(uses)
        && have_values(uses)
        && are_complete(command, uses)
}

// Whether each use is that of an option that the command has.
fn are_known(command: Command, uses: &[OptionUse<'_>]) -> bool
    ensures { result ≡ list_all (λ used. has_option command used.name.now) uses.now }
{
    uses.iter().all(|used| has_option(command, used.name))
}

// Whether no option is used twice.
fn are_different(uses: &[OptionUse<'_>]) -> bool
    ensures { IsTrue result ↔ AllPairs (λ one other. one.name ≢ other.name) (map use_of uses.now) }
{
    match uses {
        [] => true,
        [first, others @ ..] => !is_used(others, first.name) && are_different(others),
    }
}

// Whether no value is empty or begins as an option does.
fn have_values(uses: &[OptionUse<'_>]) -> bool
    ensures { result ≡ list_all (λ used. is_file_name used.value.now) uses.now }
{
    uses.iter().all(|used| is_file_name(used.value.as_bytes()))
}

// Whether each option is used that the command cannot do without.
fn are_complete(command: Command, uses: &[OptionUse<'_>]) -> bool
    ensures { result ≡ list_all (λ name. is_used uses.now name) (required_of command) }
{
    are_used(uses, required_of(command))
}

// Whether the words are names, from 2 up to those of a domain file and of `MAX_INSTANCES` instance files.
fn are_names(words: &[String]) -> bool
    ensures { IsTrue result ↔ ((1 < length words.now)
        × (length words.now ≤ MAX_INSTANCES + 1)
        × All (λ word. IsTrue (is_file_name (string_bytes word))) words.now) }
{
    words.len() > 1
        && words.len() <= usize::from(MAX_INSTANCES) + 1
        && words.iter().all(|word| is_file_name(word.as_bytes()))
}

fn has_option(command: Command, name: &str) -> bool
    ensures { result ≡ has_option command name.now }
{
    is_one_of(options_of(command), name)
}

fn is_one_of(names: &[&str], name: &str) -> bool
    ensures { result ≡ list_any (λ one. bytes_eq one.now name.now) names.now }
{
    names.iter().any(|one| *one == name)
}

fn are_used(uses: &[OptionUse<'_>], names: &[&str]) -> bool
    ensures { result ≡ list_all (λ name. is_used uses.now name.now) names.now }
{
    names.iter().all(|name| is_used(uses, name))
}

fn is_used(uses: &[OptionUse<'_>], name: &str) -> bool
    ensures { result ≡ is_used uses.now name.now }
{
    uses.iter().any(|used| used.name == name)
}

fn is_file_name(word: &[u8]) -> bool
    ensures { result ≡ is_file_name word.now }
{
    word.first().is_some_and(|first| *first != b'-')
}

// The options that a command has.
fn options_of(command: Command) -> &'static [&'static str]
    ensures { map (λ name. name.now) result.now ≡ options_of command }
{
    match command {
        Command::Synth => SYNTH_OPTIONS,
        Command::Check => CHECK_OPTIONS,
        Command::Run => RUN_OPTIONS,
        Command::Gen => NO_OPTIONS,
    }
}

// The options that a command cannot do without.
fn required_of(command: Command) -> &'static [&'static str]
    ensures { map (λ name. name.now) result.now ≡ required_of command }
{
    match command {
        Command::Synth => SYNTH_REQUIRED,
        Command::Check => CHECK_OPTIONS,
        Command::Run => RUN_REQUIRED,
        Command::Gen => NO_OPTIONS,
    }
}
