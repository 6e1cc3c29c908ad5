//! What the words ask for.
ghost use Rattle.std.specs.Prelude.{◌≡◌, ◌⊎◌, IfOk, IfSome, IfNone, None, Some, codes, false, map, option_map, true};
ghost use Rattle.std.specs.Char.{is_ascii_digit};
ghost use Rattle.std.specs.List.{list_all};
ghost use Rattle.std.specs.String.{string_bytes};
ghost use Rattle.clap.specs.declared.error.kind.ErrorKind.TheVariants as kind;
ghost use Rattle.lh_addr.specs.Settings.{IsInRange};
ghost use Rattle.clap.specs.Words.{first_of, found_of, kind_of, rows_of};
ghost use Rattle.lh_options.specs.Escapes.{has_no_control};
ghost use Rattle.lh_options.specs.Options.{AreNamed, Answers, IsMaxBelowInitial, IsServable, IsWhetherText};
ghost use Rattle.lh_options.specs.Options.{all_in_digits, in_digits, number_in};
ghost use Rattle.lh_options.specs.Options.{chosen_format};
ghost use Rattle.lh_options.specs.Options.{file_named};
ghost use Rattle.lh_options.specs.Options.{names_format};
ghost use Rattle.lh_options.specs.Options.{setting_typed_in, texts_in, typed_in, version_numbered};
ghost use Rattle.lh_options.specs.OptionSteps.{HasNumber, HasSettings, HasDriveNumbers, HasImage, IsAccepted};
ghost use Rattle.lh_options.specs.OptionSteps.{IsBuildCommand, IsFileCommand, IsImageCommand, IsMiswritten, IsRefusal};
ghost use Rattle.lh_options.specs.OptionSteps.{IsRefusedText, IsWellWritten, asked_in, drive_asked_in};
ghost use Rattle.lh_options.specs.OptionSteps.{serve_asked_in, settings_in};

use crate::app::{FIRST_IMAGE, program};
use crate::dump_format::DumpFormat;
use crate::escapes::escaped;
use crate::key_words::KeyWords;
use clap::error::ErrorKind;
use clap::parser::ValueSource;
use clap::{ArgMatches, Error};
use lh_addr::{Config, Range};
use std::alloc::{AllocError, Global};

/// The versions of an image.
#[derive(Clone, Copy, Debug, PartialEq, Eq)]
pub enum ImageVersion {
    /// Pages of 1,024 bytes.
    First,
    /// Pages of 4,096 bytes.
    Second,
}

/// The files that the words name in place of the process's streams.
#[derive(Debug, Drop)]
pub struct NamedFiles {
    /// The file to read. `query`, `apply` and `serve --image` read the image from it, and what follows the image from
    /// standard input.
    pub input: Option<String>,
    /// The file to write.
    pub output: Option<String>,
}

impl NamedFiles {
    /// No file.
    fn none() -> NamedFiles
        ensures { (result.input ≡ None) × (result.output ≡ None) }
    {
        NamedFiles {
            input: None,
            output: None,
        }
    }
}

/// What the words ask for.
#[derive(Debug, Drop)]
pub enum Request {
    /// The subcommand `commands`, with the configuration that its options give.
    Commands(Config),
    /// The subcommand `steps`, with the configuration that its options give.
    Steps(Config),
    /// The subcommand `replay`, with the configuration that its options give.
    Replay(Config),
    /// The subcommand `build`, with the configuration and the version of the image that its options give.
    Build(Config, ImageVersion),
    /// The subcommand `load`, with the configuration and the version of the image that its options give.
    Load(Config, ImageVersion),
    /// The subcommand `check`.
    Check,
    /// The subcommand `dump`, with the format that its option names.
    Dump(DumpFormat),
    /// The subcommand `draw`.
    Draw,
    /// The subcommand `migrate`.
    Migrate,
    /// The subcommand `query`.
    Query,
    /// The subcommand `apply`, with the version of the image that its option gives.
    Apply(ImageVersion),
    /// The subcommand `get`, with the words of its keys, of which clap asks for one at least.
    Get(KeyWords),
    /// The subcommand `drive`, with the configuration and the numbers of threads, of shards and of snapshots that its
    /// options give.
    Drive {
        config: Config,
        threads: u32,
        shards: u32,
        snapshots: u32,
    },
    /// The subcommand `serve`, with the configuration that its options give.
    Serve(Config),
    /// The subcommand `serve` with `--image`: the input begins with an image, whose configuration the file has.
    ServeImage,
    /// Help or the version, and its text.
    Help(String),
    /// Words that are refused, and why, in one line.
    Refused(String),
    /// `--max` is less than `--initial`.
    MaxBelowInitial,
    /// `serve` has `--image`, and an option of the configuration, which is the image's.
    SettingsBesideImage,
    /// `--snapshots` is not 0, and `--shards` is not 1: a snapshot is one of a whole file.
    SnapshotsOfShards,
}

/// The number of an option.
fn number(matches: &ArgMatches<'_>, name: &str) -> u32
    requires { HasNumber (rows_of (found_of matches.now)) name.now 0 4294967295 }
    ensures { number_in (rows_of (found_of matches.now)) name.now ≡ Some result }
{
    match matches.get_one::<u32>(name) {
        Some(number) => number,
        None => unreachable!(),
    }
}

/// Whether each byte of a text is a decimal digit.
fn is_digits(text: &str) -> bool
    ensures { result ≡ list_all is_ascii_digit text.now }
{
    text.as_bytes().iter().all(|byte| byte.is_ascii_digit())
}

/// Whether the number of an option, where it has one, is written in digits alone: clap takes a sign before them.
fn is_in_digits(matches: &ArgMatches<'_>, name: &str) -> bool
    ensures { result ≡ in_digits (rows_of (found_of matches.now)) name.now }
{
    match matches.get_str(name) {
        Some(text) => is_digits(text),
        None => true,
    }
}

/// Whether each number is written in digits alone.
fn are_in_digits(matches: &ArgMatches<'_>) -> bool
    ensures { result ≡ all_in_digits (rows_of (found_of matches.now)) }
{
    is_in_digits(matches, "initial")
        && is_in_digits(matches, "capacity")
        && is_in_digits(matches, "load")
        && is_in_digits(matches, "max")
        && is_in_digits(matches, "threads")
        && is_in_digits(matches, "shards")
        && is_in_digits(matches, "snapshots")
        && is_in_digits(matches, "image")
}

/// The format of the records that the word of the option names; clap takes any word there, and one that names no format
/// is refused.
fn format_in(matches: &ArgMatches<'_>) -> DumpFormat
    ensures { result ≡ chosen_format (texts_in (rows_of (found_of matches.now)) (codes "format")) }
{
    match matches.get_str("format") {
        Some(word) => DumpFormat::named(word).unwrap_or(DumpFormat::Lines),
        None => DumpFormat::Lines,
    }
}

/// Whether the word of the option, where it has one, names a format.
fn is_format_named(matches: &ArgMatches<'_>) -> bool
    ensures { result ≡ names_format (rows_of (found_of matches.now)) }
{
    match matches.get_str("format") {
        Some(word) => DumpFormat::named(word).is_some(),
        None => true,
    }
}

/// Why words in which clap finds no fault are refused, where they are.
fn objection_to(matches: &ArgMatches<'_>) -> Option<&'static str>
    ensures some { IfSome result (λ reason.
        (has_no_control reason.now ≡ true) × IsMiswritten (rows_of (found_of matches.now))) }
    ensures none { IfNone result (IsWellWritten (rows_of (found_of matches.now))) }
{
    if !are_in_digits(matches) {
        Some("numbers have no sign")
    } else if !is_format_named(matches) {
        Some("--format is lines, cdb or db")
    } else {
        None
    }
}

/// What is asked for by words that are refused for a reason of this program's own.
fn refused(alloc: Global, reason: &str) -> Result<Request, AllocError>
    requires { has_no_control reason.now ≡ true }
    ensures { IfOk result IsRefusedText }
{
    Ok(Request::Refused(String::from_str(alloc, reason)?))
}

/// The configuration that the options give, or `None` where `--max` is less than `--initial`.
fn config_of(matches: &ArgMatches<'_>) -> Option<Config>
    requires { HasSettings (rows_of (found_of matches.now)) }
    ensures some { IfSome result (λ config. settings_in (rows_of (found_of matches.now)) ≡ Some config) }
    ensures in_range { IfSome result IsInRange }
    ensures none { IfNone result (IsMaxBelowInitial (settings_in (rows_of (found_of matches.now)))) }
{
    let initial = number(matches, "initial");
    let capacity = number(matches, "capacity");
    let load = number(matches, "load");
    let max = number(matches, "max");
    match Config::new(initial, capacity, load, max) {
        Ok(config) => Some(config),
        Err(Range::Max) => None,
        Err(_) => unreachable!(),
    }
}

/// The version of the image that the option gives.
fn version_in(matches: &ArgMatches<'_>) -> ImageVersion
    requires { HasImage (rows_of (found_of matches.now)) }
    ensures { option_map version_numbered (number_in (rows_of (found_of matches.now)) (codes "image")) ≡ Some result }
{
    match number(matches, "image") {
        FIRST_IMAGE => ImageVersion::First,
        _ => ImageVersion::Second,
    }
}

/// Whether the words give an option, so that its value is no default.
fn is_typed(matches: &ArgMatches<'_>, name: &str) -> bool
    ensures { result ≡ typed_in (rows_of (found_of matches.now)) name.now }
{
    match matches.value_source(name) {
        Some(ValueSource::CommandLine) => true,
        Some(ValueSource::DefaultValue) => false,
        None => false,
    }
}

/// Whether the words give an option of the configuration.
fn is_setting_typed(matches: &ArgMatches<'_>) -> bool
    ensures { result ≡ setting_typed_in (rows_of (found_of matches.now)) }
{
    is_typed(matches, "initial")
        || is_typed(matches, "capacity")
        || is_typed(matches, "load")
        || is_typed(matches, "max")
}

/// What `drive` asks for, with the configuration that its options give.
fn drive_asked(config: Config, matches: &ArgMatches<'_>) -> Request
    requires { HasDriveNumbers (rows_of (found_of matches.now)) }
    ensures value { drive_asked_in (rows_of (found_of matches.now)) config ≡ Some result }
    ensures servable { IsServable result }
{
    let threads = number(matches, "threads");
    let shards = number(matches, "shards");
    let snapshots = number(matches, "snapshots");
    if shards == 1 || snapshots == 0 {
        Request::Drive {
            config,
            threads,
            shards,
            snapshots,
        }
    } else {
        Request::SnapshotsOfShards
    }
}

/// What a subcommand with the options of a file's configuration asks for, where the input doesn't begin with an image.
fn file_asked(name: &str, matches: &ArgMatches<'_>) -> Request
    requires named { IsFileCommand name.now }
    requires settings { HasSettings (rows_of (found_of matches.now)) }
    requires drive { name.now ≡ codes "drive" → HasDriveNumbers (rows_of (found_of matches.now)) }
    requires image { IsBuildCommand name.now → HasImage (rows_of (found_of matches.now)) }
    requires serve { name.now ≡ codes "serve" → typed_in (rows_of (found_of matches.now)) (codes "from_image") ≡ false }
    ensures value { asked_in name.now (rows_of (found_of matches.now)) ≡ Some result }
    ensures servable { IsServable result }
{
    let Some(config) = config_of(matches) else {
        return Request::MaxBelowInitial;
    };
    match name {
        "commands" => Request::Commands(config),
        "steps" => Request::Steps(config),
        "build" => Request::Build(config, version_in(matches)),
        "load" => Request::Load(config, version_in(matches)),
        "drive" => drive_asked(config, matches),
        "replay" => Request::Replay(config),
        "serve" => Request::Serve(config),
        _ => unreachable!(),
    }
}

/// What `serve` asks for.
fn serve_asked(matches: &ArgMatches<'_>) -> Request
    requires { HasSettings (rows_of (found_of matches.now)) }
    ensures value { serve_asked_in (rows_of (found_of matches.now)) ≡ Some result }
    ensures servable { IsServable result }
{
    if !is_typed(matches, "from_image") {
        file_asked("serve", matches)
    } else if is_setting_typed(matches) {
        Request::SettingsBesideImage
    } else {
        Request::ServeImage
    }
}

/// The words of the keys that `get` has.
fn keys_in(alloc: Global, matches: &ArgMatches<'_>) -> Result<KeyWords, AllocError>
    ensures { IfOk result (λ keys. keys ≡ texts_in (rows_of (found_of matches.now)) (codes "keys")) }
{
    match matches.get_strs("keys") {
        Some(words) => KeyWords::of(alloc, words),
        None => KeyWords::of(alloc, &[]),
    }
}

/// What a subcommand asks for.
fn asked(alloc: Global, name: &str, matches: &ArgMatches<'_>) -> Result<Request, AllocError>
    requires named { IsFileCommand name.now ⊎ IsImageCommand name.now }
    requires settings { IsFileCommand name.now → HasSettings (rows_of (found_of matches.now)) }
    requires drive { name.now ≡ codes "drive" → HasDriveNumbers (rows_of (found_of matches.now)) }
    requires image { IsBuildCommand name.now → HasImage (rows_of (found_of matches.now)) }
    requires applied { name.now ≡ codes "apply" → HasImage (rows_of (found_of matches.now)) }
    requires none { IsImageCommand name.now → settings_in (rows_of (found_of matches.now)) ≡ None }
    ensures value { IfOk result (λ request. asked_in name.now (rows_of (found_of matches.now)) ≡ Some request) }
    ensures servable { IfOk result IsServable }
{
    match name {
        "check" => Ok(Request::Check),
        "dump" => Ok(Request::Dump(format_in(matches))),
        "draw" => Ok(Request::Draw),
        "migrate" => Ok(Request::Migrate),
        "query" => Ok(Request::Query),
        "apply" => Ok(Request::Apply(version_in(matches))),
        "get" => Ok(Request::Get(keys_in(alloc, matches)?)),
        "serve" => Ok(serve_asked(matches)),
        _ => Ok(file_asked(name, matches)),
    }
}

/// What clap says is wrong: the first line of the error's text, which a line feed in a word ends too, with the control
/// characters of its words escaped; and how to ask for help, where no subcommand is named. Which operands are missing
/// stands in the lines behind that, so it is said in its place; only `get` has some that must be there.
fn first_line(alloc: Global, error: &Error) -> Result<String, AllocError>
    ensures { IfOk result (λ line. has_no_control (string_bytes line) ≡ true) }
{
    if error.kind() == ErrorKind::MissingRequiredArgument {
        return String::from_str(alloc, "get takes a FILE and one KEY or more");
    }
    let text = error.to_string(alloc)?;
    let line = text.as_str().lines().next().unwrap_or("");
    let mut reason = escaped(alloc, line.strip_prefix("error: ").unwrap_or(line))?;
    if error.kind() == ErrorKind::MissingSubcommand {
        reason.push_str("; for more information, try '--help'")?;
    }
    Ok(reason)
}

/// Clap's text of help, or of the version; it names the program by its first word, so its lines are escaped, too.
fn help_text(alloc: Global, error: &Error) -> Result<String, AllocError> {
    let text = error.to_string(alloc)?;
    let mut shown = String::new(alloc);
    for line in text.as_str().lines() {
        shown.push_str(escaped(alloc, line)?.as_str())?;
        shown.push('\n')?;
    }
    Ok(shown)
}

/// What clap says behind the first line of an error's text: of words like the one that is wrong, and of how the
/// subcommand is used.
fn other_lines(alloc: Global, error: &Error) -> Result<String, AllocError> {
    let text = error.to_string(alloc)?;
    let mut shown = String::new(alloc);
    if error.kind() == ErrorKind::InvalidValue {
        shown.push_str("a value stands behind its option, as in --image 2 or -o FILE\n")?;
    }
    for line in text.as_str().lines().skip(1) {
        if !line.is_empty() {
            shown.push_str(escaped(alloc, line.trim_start())?.as_str())?;
            shown.push('\n')?;
        }
    }
    Ok(shown)
}

/// What a person may be told, in lines, of words that clap refuses; the first word is the program's name.
pub fn hint_of<'a>(alloc: Global, words: &'a [&'a str]) -> Result<Option<String>, AllocError> {
    match program(alloc)?.try_get_matches_from(words) {
        Err(error) => Ok(Some(other_lines(alloc, &error)?)),
        Ok(_) => Ok(None),
    }
}

/// What words ask for that clap doesn't accept: help or the version; otherwise they are refused.
fn refusal(alloc: Global, error: &Error) -> Result<Request, AllocError>
    ensures { IfOk result (IsRefusal (kind_of error.now)) }
{
    match error.kind() {
        ErrorKind::OutOfMemory => Err(AllocError),
        ErrorKind::DisplayHelp => Ok(Request::Help(help_text(alloc, error)?)),
        ErrorKind::DisplayVersion => Ok(Request::Help(help_text(alloc, error)?)),
        _ => Ok(Request::Refused(first_line(alloc, error)?)),
    }
}

/// The file that an option or an operand names; `-` is a stream of the process, and names none.
fn file_in(
    alloc: Global,
    matches: &ArgMatches<'_>,
    name: &str,
) -> Result<Option<String>, AllocError>
    ensures { IfOk result (λ file.
        option_map string_bytes file ≡ file_named (first_of name.now (rows_of (found_of matches.now)))) }
{
    match matches.get_str(name) {
        None => Ok(None),
        Some("-") => Ok(None),
        Some(text) => Ok(Some(String::from_str(alloc, text)?)),
    }
}

/// No subcommand, where words are not accepted for an error of clap's, unless memory ran out.
fn unaccepted<'a>(error: &Error) -> Result<Option<ArgMatches<'a>>, AllocError>
    ensures { IfOk result (λ found. (kind_of error.now ≡ kind.OutOfMemory → ⊥) × (found ≡ None)) }
{
    if matches!(error.kind(), ErrorKind::OutOfMemory) {
        return Err(AllocError);
    }
    Ok(None)
}

/// The subcommand of accepted words, by what clap has matched: none, where the words are not accepted.
fn accepted<'a>(alloc: Global, words: &'a [&'a str]) -> Result<Option<ArgMatches<'a>>, AllocError>
    ensures { IfOk result (IsAccepted (map (λ s. s.now) words.now)) }
{
    match program(alloc)?.try_get_matches_from(words) {
        Err(error) => unaccepted(&error),
        Ok(mut matches) => match matches.remove_subcommand() {
            Some((_, matches)) => match objection_to(&matches) {
                Some(_) => Ok(None),
                None => Ok(Some(matches)),
            },
            None => unreachable!(),
        },
    }
}

/// The files that the words name, of which the first is the program's name: none, where they are not accepted.
pub fn files_of<'a>(alloc: Global, words: &'a [&'a str]) -> Result<NamedFiles, AllocError>
    ensures { IfOk result (AreNamed (map (λ s. s.now) words.now)) }
{
    match accepted(alloc, words)? {
        Some(matches) => Ok(NamedFiles {
            input: file_in(alloc, &matches, "file")?,
            output: file_in(alloc, &matches, "output")?,
        }),
        None => Ok(NamedFiles::none()),
    }
}

/// Whether the words, of which the first is the program's name, ask for keys and values as text: false, where they are
/// not accepted.
pub fn asks_for_text<'a>(alloc: Global, words: &'a [&'a str]) -> Result<bool, AllocError>
    ensures { IfOk result (IsWhetherText (map (λ s. s.now) words.now)) }
{
    match accepted(alloc, words)? {
        Some(matches) => Ok(is_typed(&matches, "text")),
        None => Ok(false),
    }
}

/// What the words ask for, of which the first is the program's name.
pub fn request_of<'a>(alloc: Global, words: &'a [&'a str]) -> Result<Request, AllocError>
    ensures answers { IfOk result (Answers (map (λ s. s.now) words.now)) }
    ensures servable { IfOk result IsServable }
{
    match program(alloc)?.try_get_matches_from(words) {
        Err(error) => refusal(alloc, &error),
        Ok(matches) => match matches.subcommand() {
            Some((name, matches)) => match objection_to(matches) {
                Some(reason) => refused(alloc, reason),
                None => asked(alloc, name, matches),
            },
            None => unreachable!(),
        },
    }
}
