ghost use Rattle.std.specs.Prelude.{◌≡◌, true, false, [], ◌∷◌, Some, IsSome, IfOk, IfErr, codes, map, string_bytes};
ghost use Rattle.clap.specs.Words.{all_of, app_of, first_of, found_of, kind_of, rows_of, rule_of, shape_of, subcommand_of, subcommand_rows_of, takes};
ghost use Rattle.clap.specs.declared.builder.command.Command.TheViews.{out-Command as fields_of};
ghost use Rattle.command_words.specs.Inner.Matching.{HasForm, IsMatched};
ghost use Rattle.command_words.specs.Inner.Parser.{IsReadFrom, name_of, names_rule, option_rule, parser_app, shape_for};

use clap::error::ErrorKind;
use clap::{Arg, ArgMatches};
use flag_rules::{List, OutOfMemory, Text};
use program_model::MAX_INSTANCES;
use std::alloc::{AllocError, Global};

/// The command that the first word names.
#[derive(Clone, Copy)]
pub(crate) enum Command {
    Synth,
    Check,
    Run,
    Gen,
}

/// The texts that the words after a command give to its options and names. An option that is not used has none.
#[derive(Debug, Drop)]
pub(crate) struct Matched {
    pub pointers: Option<Text>,
    pub lines: Option<Text>,
    pub budget: Option<Text>,
    pub run: Option<Text>,
    pub order: Option<Text>,
    pub answer: Option<Text>,
    pub program: Option<Text>,
    /// The names behind the options: those of the domain file and of the instance files, or of a family and its number.
    pub names: List<Text>,
}

/// Matches the words after a command, which have the form of its words.
pub(crate) fn match_words(
    alloc: Global,
    command: Command,
    words: &[String],
) -> Result<Matched, OutOfMemory>
    requires form { HasForm command (map string_bytes words.now) }
    ensures matches { IfOk result (IsMatched command (map string_bytes words.now)) }
{
    let words = with_name(alloc, command, words)?;
    let Ok(matches) = parsed(alloc, words.as_slice()) else {
        return Err(OutOfMemory);
    };
    match matches.subcommand_matches(command.name()) {
        Some(matches) => read_matches(alloc, matches),
        // The words begin with the name.
        None => unreachable!(),
    }
}

impl Command {
    // The name, as words have it.
    fn name(self) -> &'static str
        ensures { result.now ≡ name_of self }
    {
        match self {
            Command::Synth => "synth",
            Command::Check => "check",
            Command::Run => "run",
            Command::Gen => "gen",
        }
    }
}

// The name of the command, and then the words after it.
fn with_name<'a>(
    alloc: Global,
    command: Command,
    words: &'a [String],
) -> Result<Vec<&'a str>, OutOfMemory>
    ensures { IfOk result (λ all. map (λ word. word.now) all.items ≡ name_of command ∷ map string_bytes words.now) }
{
    let mut all = Vec::new(alloc);
    all.push(command.name())?;
    for word in words {
        all.push(word.as_str())?;
    }
    Ok(all)
}

// What clap matches in the words of a command. It takes them, so that an error tells of want of memory alone.
fn parsed<'a>(alloc: Global, words: &'a [&'a str]) -> Result<ArgMatches<'a>, clap::Error>
    requires taken { takes parser_app (map (λ word. word.now) words.now) ≡ true }
    ensures ok { IfOk result (λ matches. subcommand_rows_of matches ≡ subcommand_of parser_app (map (λ word. word.now) words.entry.now)) }
    ensures err { IfErr result (λ error. kind_of error ≡ ErrorKind.OutOfMemory) }
{
    parser(alloc)?.try_get_matches_from(words)
}

// The parser of the words of all commands.
fn parser<'a>(alloc: Global) -> Result<clap::Command<'a>, AllocError>
    ensures { IfOk result (λ parser. app_of parser ≡ parser_app) }
{
    let synth = synth_parser(alloc)?;
    let check = check_parser(alloc)?;
    let run = run_parser(alloc)?;
    let generate = gen_parser(alloc)?;
    clap::Command::new(alloc, "bfgp")
        .no_binary_name(true)
        .subcommand(synth)?
        .subcommand(check)?
        .subcommand(run)?
        .subcommand(generate)
}

// The parser of the words after `synth`.
fn synth_parser<'a>(alloc: Global) -> Result<clap::Command<'a>, AllocError>
    ensures shape { IfOk result (λ parser. shape_of parser ≡ shape_for Command.Synth) }
    ensures local { IfOk result (λ parser. (fields_of parser).has_globals ≡ false) }
{
    clap::Command::new(alloc, "synth")
        .arg(required_option(alloc, "pointers"))?
        .arg(required_option(alloc, "lines"))?
        .arg(option(alloc, "budget"))?
        .arg(option(alloc, "run"))?
        .arg(option(alloc, "order"))?
        .arg(names(alloc))
}

// The parser of the words after `check`.
fn check_parser<'a>(alloc: Global) -> Result<clap::Command<'a>, AllocError>
    ensures shape { IfOk result (λ parser. shape_of parser ≡ shape_for Command.Check) }
    ensures local { IfOk result (λ parser. (fields_of parser).has_globals ≡ false) }
{
    clap::Command::new(alloc, "check")
        .arg(required_option(alloc, "pointers"))?
        .arg(required_option(alloc, "lines"))?
        .arg(required_option(alloc, "answer"))?
        .arg(names(alloc))
}

// The parser of the words after `run`.
fn run_parser<'a>(alloc: Global) -> Result<clap::Command<'a>, AllocError>
    ensures shape { IfOk result (λ parser. shape_of parser ≡ shape_for Command.Run) }
    ensures local { IfOk result (λ parser. (fields_of parser).has_globals ≡ false) }
{
    clap::Command::new(alloc, "run")
        .arg(required_option(alloc, "pointers"))?
        .arg(required_option(alloc, "program"))?
        .arg(option(alloc, "run"))?
        .arg(names(alloc))
}

// The parser of the words after `gen`.
fn gen_parser<'a>(alloc: Global) -> Result<clap::Command<'a>, AllocError>
    ensures shape { IfOk result (λ parser. shape_of parser ≡ shape_for Command.Gen) }
    ensures local { IfOk result (λ parser. (fields_of parser).has_globals ≡ false) }
{
    clap::Command::new(alloc, "gen").arg(names(alloc))
}

// The option of this name, with its value.
fn option<'a>(alloc: Global, name: &'a str) -> Arg<'a>
    ensures rule { rule_of result ≡ option_rule name.entry.now false }
    ensures local { result.global ≡ false }
{
    Arg::new(alloc, name).long(name)
}

// The same, where it may not be left out.
fn required_option<'a>(alloc: Global, name: &'a str) -> Arg<'a>
    ensures rule { rule_of result ≡ option_rule name.entry.now true }
    ensures local { result.global ≡ false }
{
    option(alloc, name).required(true)
}

// The names behind the options, from 2 up to those of a domain file and of `MAX_INSTANCES` instance files.
fn names<'a>(alloc: Global) -> Arg<'a>
    ensures rule { rule_of result ≡ names_rule }
    ensures local { result.global ≡ false }
{
    Arg::new(alloc, "names")
        .num_args(2..=usize::from(MAX_INSTANCES) + 1)
        .required(true)
}

// Copies what was matched after the name of a command.
fn read_matches(alloc: Global, matches: &ArgMatches<'_>) -> Result<Matched, OutOfMemory>
    requires names { IsSome (all_of (codes "names") (rows_of (found_of matches.now))) }
    ensures { IfOk result (IsReadFrom (rows_of (found_of matches.now))) }
{
    Ok(Matched {
        pointers: option_in(alloc, matches, "pointers")?,
        lines: option_in(alloc, matches, "lines")?,
        budget: option_in(alloc, matches, "budget")?,
        run: option_in(alloc, matches, "run")?,
        order: option_in(alloc, matches, "order")?,
        answer: option_in(alloc, matches, "answer")?,
        program: option_in(alloc, matches, "program")?,
        names: names_in(alloc, matches)?,
    })
}

// The value of the option of this name, if it was used.
fn option_in(
    alloc: Global,
    matches: &ArgMatches<'_>,
    name: &str,
) -> Result<Option<Text>, OutOfMemory>
    ensures { IfOk result (λ value. value ≡ first_of name.now (rows_of (found_of matches.now))) }
{
    match matches.get_str(name) {
        Some(value) => Ok(Some(Text::of(alloc, value.as_bytes())?)),
        None => Ok(None),
    }
}

// The names behind the options, which may not be left out.
fn names_in(alloc: Global, matches: &ArgMatches<'_>) -> Result<List<Text>, OutOfMemory>
    requires { IsSome (all_of (codes "names") (rows_of (found_of matches.now))) }
    ensures { IfOk result (λ names. all_of (codes "names") (rows_of (found_of matches.now)) ≡ Some names) }
{
    match matches.get_strs("names") {
        Some(names) => texts_of(alloc, names),
        None => unreachable!(),
    }
}

fn texts_of(alloc: Global, words: &[&str]) -> Result<List<Text>, OutOfMemory>
    ensures { IfOk result (λ texts. texts ≡ map (λ word. word.now) words.now) }
{
    let mut texts = List::new(alloc);
    for word in words {
        texts.push(Text::of(alloc, word.as_bytes())?)?;
    }
    Ok(texts)
}
