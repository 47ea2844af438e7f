//! What the words of the command line ask for.

ghost use Rattle.std.specs.{Prelude.{◌≡◌, ◌∷◌, [], decimal, map, option_map, string_bytes}, Str.{bytes_eq}};
ghost use Rattle.fs_cli.specs.FileCheck.{file_shown};
ghost use Rattle.fs_cli.specs.Command.{CheckFile, check_form, count_of, file_of, files_of, form_of, is_name, form_shown, subject_of, survey_of};

use crate::file_check::CheckedFile;
use crate::survey::Survey;
use cmd_convert::DumpNames;
use cmd_enforce::InputNames;
use fs_base::Family;
use itoa::Buffer;

/// The most steps and packets that are generated.
const MOST: u32 = 1_000_000;

/// A command, and what it is to read.
#[derive(Clone, Copy, Drop)]
pub(crate) enum Command<'w> {
    /// Plays a tape, and judges the packets of a capture by the rules that it admits at their moments.
    Enforce(InputNames<'w>),
    /// Plays a tape, and surveys what it leaves.
    Survey {
        survey: Survey,
        config: &'w str,
        tape: &'w str,
    },
    /// Plays a tape, and tells after each item what it changes of the admitted rules.
    Changes {
        config: &'w str,
        tape: &'w str,
    },
    /// Reads a dump, and writes the tape of the second version that its records make.
    Convert(DumpNames<'w>),
    /// Plays a generated tape, and counts what becomes of generated packets: so many of each.
    Gen(u32),
    /// Says what a word is.
    Check(Subject, &'w str),
    /// Says whether a file is accepted, or where its first fault is.
    CheckFile(CheckedFile<'w>),
    /// Connects to an address, and announces the rules of a file there.
    Announce {
        config: &'w str,
        rules: &'w str,
        address: &'w str,
    },
    /// Listens at an address, takes one connection, and lists what comes.
    Listen {
        config: &'w str,
        address: &'w str,
    },
    /// Announces the rules of a file from one end of a wire to the other, and lists what was received there.
    Pair {
        config: &'w str,
        rules: &'w str,
    },
}

/// What a word is to be checked as.
#[derive(Clone, Copy, Debug, PartialEq, Eq, Drop)]
pub(crate) enum Subject {
    /// NLRI of the family, in hexadecimal.
    Nlri(Family),
    /// The text of a rule and its actions.
    Text,
}

/// The command that the words after the program's name ask for, or None where they ask for none.
pub(crate) fn parse(words: &[String]) -> Option<Command<'_>>
    ensures { option_map form_shown result ≡ form_of (map string_bytes words.now) }
{
    match words {
        [word, first, second, third] => parse_three(word, first, second, third),
        [word, first, second] => parse_two(word, first, second),
        [word, count] => parse_gen(word, count),
        _ => None,
    }
}

fn parse_three<'w>(
    word: &str,
    first: &'w str,
    second: &'w str,
    third: &'w str,
) -> Option<Command<'w>>
    ensures { option_map form_shown result
        ≡ form_of (word.now ∷ first.entry.now ∷ second.entry.now ∷ third.entry.now ∷ []) }
{
    if !is_name(first) || !is_name(second) || !is_name(third) {
        return None;
    }
    match word {
        "enforce" => Some(Command::Enforce(InputNames {
            config: first,
            tape: second,
            capture: third,
        })),
        "announce" => Some(Command::Announce {
            config: first,
            rules: second,
            address: third,
        }),
        "check" => parse_files(first, second, third),
        _ => None,
    }
}

/// The check of a file of this kind beside a configuration.
fn parse_files<'w>(kind: &str, config: &'w str, word: &'w str) -> Option<Command<'w>>
    ensures { option_map form_shown result
        ≡ option_map CheckFile (files_of kind.now config.entry.now word.entry.now) }
{
    match kind {
        "rules" => Some(Command::CheckFile(CheckedFile::Rules {
            config,
            rules: word,
        })),
        "tape" => Some(Command::CheckFile(CheckedFile::Tape { config, tape: word })),
        "dump" => Some(Command::CheckFile(CheckedFile::Dump { config, dump: word })),
        _ => None,
    }
}

fn parse_two<'w>(word: &str, first: &'w str, second: &'w str) -> Option<Command<'w>>
    ensures { option_map form_shown result ≡ form_of (word.now ∷ first.entry.now ∷ second.entry.now ∷ []) }
{
    if word == "check" {
        return parse_check(first, second);
    }
    if !is_name(first) || !is_name(second) {
        return None;
    }
    let config = first;
    match word {
        "changes" => Some(Command::Changes {
            config,
            tape: second,
        }),
        "convert" => Some(Command::Convert(DumpNames {
            config,
            dump: second,
        })),
        "listen" => Some(Command::Listen {
            config,
            address: second,
        }),
        "pair" => Some(Command::Pair {
            config,
            rules: second,
        }),
        _ => match survey_of(word) {
            Some(survey) => Some(Command::Survey {
                survey,
                config,
                tape: second,
            }),
            None => None,
        },
    }
}

/// The survey that a word asks for.
fn survey_of(word: &str) -> Option<Survey>
    ensures { result ≡ survey_of word.now }
{
    match word {
        "rules" => Some(Survey::Rules),
        "list" => Some(Survey::Words),
        "shadow" => Some(Survey::Shadow),
        _ => None,
    }
}

fn parse_check<'w>(subject: &str, word: &'w str) -> Option<Command<'w>>
    ensures { option_map form_shown result ≡ check_form subject.now word.entry.now }
{
    if !is_name(word) {
        return None;
    }
    if let Some(file) = file_of(subject, word) {
        return Some(Command::CheckFile(file));
    }
    match subject_of(subject) {
        Some(subject) => Some(Command::Check(subject, word)),
        None => None,
    }
}

/// The file that is to be checked, by its kind.
fn file_of<'w>(kind: &str, word: &'w str) -> Option<CheckedFile<'w>>
    ensures { option_map file_shown result ≡ file_of kind.now word.entry.now }
{
    match kind {
        "config" => Some(CheckedFile::Config(word)),
        "capture" => Some(CheckedFile::Capture(word)),
        _ => None,
    }
}

fn parse_gen(word: &str, count: &str) -> Option<Command<'static>>
    ensures { option_map form_shown result ≡ form_of (word.now ∷ count.now ∷ []) }
{
    if word != "gen" {
        return None;
    }
    match count_of(count) {
        Some(count) => Some(Command::Gen(count)),
        None => None,
    }
}

/// The number that a word writes in decimal without leading zeros, if it is one from 1 to 1000000.
fn count_of(word: &str) -> Option<u32>
    ensures { result ≡ count_of word.now }
{
    match word.parse::<u32>() {
        Ok(count) if is_decimal(count, word) && 1 <= count && count <= MOST => Some(count),
        _ => None,
    }
}

/// Whether the word is the number as it is printed.
fn is_decimal(number: u32, word: &str) -> bool
    ensures { result ≡ bytes_eq word.now (decimal number) }
{
    let mut buffer = Buffer::new();
    word == buffer.format(number)
}

/// What a word is to be checked as, by the word before it.
fn subject_of(word: &str) -> Option<Subject>
    ensures { result ≡ subject_of word.now }
{
    match word {
        "v4" => Some(Subject::Nlri(Family::V4)),
        "v6" => Some(Subject::Nlri(Family::V6)),
        "text" => Some(Subject::Text),
        _ => None,
    }
}

/// Whether a word can name a file or an end of a connection: it isn't empty, and isn't an option.
pub(crate) fn is_name(word: &str) -> bool
    ensures { result ≡ is_name word.now }
{
    !word.is_empty() && !word.starts_with('-')
}
