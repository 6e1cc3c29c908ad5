//! The command that clap reads the words by: the subcommands with their options.
ghost use Rattle.std.specs.Prelude.{◌≡◌, IfOk, codes, false, true};
ghost use Rattle.clap.specs.Words.{new_app, rule_of};
ghost use Rattle.lh_options.specs.Options.{apply_app, build_app, building_app, drive_app, dump_app};
ghost use Rattle.lh_options.specs.Options.{file_rule, flag_rule, format_rule, get_app, image_flag_rule};
ghost use Rattle.lh_options.specs.Options.{keys_rule, needed_file_rule, option_rule, output_rule};
ghost use Rattle.lh_options.specs.Options.{program_app, query_app, root_app, script_app, scripts_app, serve_app};
ghost use Rattle.lh_options.specs.Options.{text_rule};
ghost use Rattle.lh_options.specs.Options.{with_file, with_output, with_settings};
ghost use Rattle.lh_options.specs.OptionSteps.{Reads};
ghost use Rattle.clap.specs.Words.{App, with_subcommand};

use crate::help::{
    APPLY, BUILD, CHECK, COMMANDS, DRAW, DRIVE, DUMP, GET, Help, LOAD, MIGRATE, QUERY, REPLAY,
    SERVE, STEPS,
};
use clap::{Arg, ArgAction, Command};
use lh_addr::limits::{
    MAX_BUCKETS, MAX_CAPACITY, MAX_INITIAL, MAX_LOAD, MIN_CAPACITY, MIN_INITIAL, MIN_LOAD,
};
use std::alloc::{AllocError, Global};

/// The least number of threads that a script is run in.
const MIN_THREADS: u32 = 1;

/// The greatest number of threads that a script is run in.
const MAX_THREADS: u32 = 64;

/// The least number of shards that a script is run on.
const MIN_SHARDS: u32 = 1;

/// The greatest number of shards that a script is run on.
const MAX_SHARDS: u32 = 64;

/// The greatest number of snapshots that are taken meanwhile.
const MAX_SNAPSHOTS: u32 = 1_000;

/// The number of the first version of an image.
pub(crate) const FIRST_IMAGE: u32 = 1;

/// The number of the last version of an image.
const LAST_IMAGE: u32 = 2;

/// An option with a whole number, from `least` to `most`.
fn option<'a>(
    alloc: Global,
    name: &'a str,
    help: &'a str,
    default: &'a str,
    least: u32,
    most: u32,
) -> Arg<'a>
    ensures local { result.global ≡ false }
    ensures rule { rule_of result ≡ option_rule name.now default.now least most }
{
    Arg::new(alloc, name)
        .long(name)
        .help(help)
        .action(ArgAction::Set)
        .value_parser(clap::value_parser!(u32).range(i64::from(least)..=i64::from(most)))
        .default_value(default)
}

/// The operand that names a file to read.
fn file_operand<'a>(alloc: Global, help: &'a str) -> Arg<'a>
    ensures local { result.global ≡ false }
    ensures rule { rule_of result ≡ file_rule }
{
    Arg::new(alloc, "file").help(help).value_name("FILE")
}

/// The option that names a file to write.
fn output_option<'a>(alloc: Global) -> Arg<'a>
    ensures local { result.global ≡ false }
    ensures rule { rule_of result ≡ output_rule }
{
    Arg::new(alloc, "output")
        .short('o')
        .long("output")
        .help("File to write in place of standard output, whole or not at all")
        .value_name("FILE")
}

/// A flag, which has no value.
fn flag<'a>(alloc: Global, id: &'a str, long: &'a str, help: &'a str) -> Arg<'a>
    ensures local { result.global ≡ false }
    ensures rule { rule_of result ≡ flag_rule id.now long.now }
{
    Arg::new(alloc, id)
        .long(long)
        .help(help)
        .action(ArgAction::SetTrue)
}

/// The flag that says that keys and values are text.
fn text_flag<'a>(alloc: Global) -> Arg<'a>
    ensures local { result.global ≡ false }
    ensures rule { rule_of result ≡ text_rule }
{
    flag(
        alloc,
        "text",
        "text",
        "Keys and values as text, not in hexadecimal",
    )
}

/// A subcommand with the options of a file's configuration.
fn file_command<'a>(alloc: Global, name: &'a str, help: Help) -> Result<Command<'a>, AllocError>
    ensures { IfOk result (Reads (with_file (with_settings (new_app name.now)))) }
{
    Command::new(alloc, name)
        .about(help.about)
        .after_help(help.example)
        .arg(option(
            alloc,
            "initial",
            "Initial number of buckets, 1 to 256",
            "1",
            MIN_INITIAL,
            MAX_INITIAL,
        ))?
        .arg(option(
            alloc,
            "capacity",
            "Records that a page holds, 1 to 24",
            "14",
            MIN_CAPACITY,
            MAX_CAPACITY,
        ))?
        .arg(option(
            alloc,
            "load",
            "Load in percent above which the file grows, 10 to 200",
            "100",
            MIN_LOAD,
            MAX_LOAD,
        ))?
        .arg(option(
            alloc,
            "max",
            "Greatest number of buckets, --initial to 65536",
            "65536",
            MIN_INITIAL,
            MAX_BUCKETS,
        ))?
        .arg(file_operand(alloc, help.file))
}

/// A subcommand with the options of a file's configuration, which reads a script, in which keys and values may be text.
fn script_command<'a>(alloc: Global, name: &'a str, help: Help) -> Result<Command<'a>, AllocError>
    ensures { IfOk result (Reads (script_app name.now)) }
{
    file_command(alloc, name, help)?.arg(text_flag(alloc))
}

/// A subcommand with the options of a file's configuration, which writes a picture or an image.
fn writing_command<'a>(alloc: Global, name: &'a str, help: Help) -> Result<Command<'a>, AllocError>
    ensures { IfOk result (Reads (with_output (with_file (with_settings (new_app name.now))))) }
{
    file_command(alloc, name, help)?.arg(output_option(alloc))
}

/// A subcommand that reads an image.
fn image_command<'a>(alloc: Global, name: &'a str, help: Help) -> Result<Command<'a>, AllocError>
    ensures { IfOk result (Reads (with_file (new_app name.now))) }
{
    Command::new(alloc, name)
        .about(help.about)
        .after_help(help.example)
        .arg(file_operand(alloc, help.file))
}

/// The same operand, where a file is to be named.
fn needed_file_operand<'a>(alloc: Global, help: &'a str) -> Arg<'a>
    ensures local { result.global ≡ false }
    ensures rule { rule_of result ≡ needed_file_rule }
{
    file_operand(alloc, help).required(true)
}

/// The operand with the words of keys.
fn keys_operand<'a>(alloc: Global) -> Arg<'a>
    ensures local { result.global ≡ false }
    ensures rule { rule_of result ≡ keys_rule }
{
    Arg::new(alloc, "keys")
        .help("Keys to look up, in hexadecimal, two digits a byte, or as text with --text")
        .value_name("KEY")
        .action(ArgAction::Append)
        .required(true)
}

/// The subcommand that looks keys up in an image.
fn get_command<'a>(alloc: Global, help: Help) -> Result<Command<'a>, AllocError>
    ensures { IfOk result (Reads get_app) }
{
    Command::new(alloc, "get")
        .about(help.about)
        .after_help(help.example)
        .arg(needed_file_operand(alloc, help.file))?
        .arg(keys_operand(alloc))?
        .arg(text_flag(alloc))
}

/// A subcommand that reads an image, and writes a picture or an image.
fn changing_command<'a>(alloc: Global, name: &'a str, help: Help) -> Result<Command<'a>, AllocError>
    ensures { IfOk result (Reads (with_output (with_file (new_app name.now)))) }
{
    image_command(alloc, name, help)?.arg(output_option(alloc))
}

/// The subcommand that runs a script in threads: a file's options, and one each for the threads, the shards and the
/// snapshots.
fn drive_command<'a>(alloc: Global) -> Result<Command<'a>, AllocError>
    ensures { IfOk result (Reads drive_app) }
{
    file_command(alloc, "drive", DRIVE)?
        .arg(option(
            alloc,
            "threads",
            "Number of threads, 1 to 64",
            "4",
            MIN_THREADS,
            MAX_THREADS,
        ))?
        .arg(option(
            alloc,
            "shards",
            "Number of shards, 1 to 64",
            "1",
            MIN_SHARDS,
            MAX_SHARDS,
        ))?
        .arg(option(
            alloc,
            "snapshots",
            "Snapshots to take meanwhile, 0 to 1000",
            "0",
            0,
            MAX_SNAPSHOTS,
        ))?
        .arg(text_flag(alloc))
}

/// An option with the version of an image.
fn image_option<'a>(alloc: Global) -> Arg<'a>
    ensures local { result.global ≡ false }
    ensures rule { rule_of result ≡ option_rule (codes "image") (codes "2") 1 2 }
{
    option(
        alloc,
        "image",
        "Version of the image, 1 or 2",
        "2",
        FIRST_IMAGE,
        LAST_IMAGE,
    )
}

/// A subcommand that fills a file and writes it as an image: a file's options, and one for the version of the image.
fn building_command<'a>(alloc: Global, name: &'a str, help: Help) -> Result<Command<'a>, AllocError>
    ensures { IfOk result (Reads (building_app name.now)) }
{
    writing_command(alloc, name, help)?.arg(image_option(alloc))
}

/// The one that fills it by a script.
fn build_command<'a>(alloc: Global) -> Result<Command<'a>, AllocError>
    ensures { IfOk result (Reads build_app) }
{
    building_command(alloc, "build", BUILD)?.arg(text_flag(alloc))
}

/// The option that names the format of the records.
fn format_option<'a>(alloc: Global) -> Arg<'a>
    ensures local { result.global ≡ false }
    ensures rule { rule_of result ≡ format_rule }
{
    Arg::new(alloc, "format")
        .long("format")
        .help("Form of the records: lines, cdb or db")
        .value_name("FORMAT")
        .default_value("lines")
}

/// The subcommand that writes the records of an image: an option for their format.
fn dump_command<'a>(alloc: Global) -> Result<Command<'a>, AllocError>
    ensures { IfOk result (Reads dump_app) }
{
    image_command(alloc, "dump", DUMP)?
        .arg(format_option(alloc))?
        .arg(text_flag(alloc))
}

/// The subcommand that reads an image and a script behind it.
fn query_command<'a>(alloc: Global) -> Result<Command<'a>, AllocError>
    ensures { IfOk result (Reads query_app) }
{
    image_command(alloc, "query", QUERY)?.arg(text_flag(alloc))
}

/// The subcommand that reads an image and writes the one that a script leaves: an option for its version.
fn apply_command<'a>(alloc: Global) -> Result<Command<'a>, AllocError>
    ensures { IfOk result (Reads apply_app) }
{
    changing_command(alloc, "apply", APPLY)?
        .arg(image_option(alloc))?
        .arg(text_flag(alloc))
}

/// The flag that says that the input begins with an image. Its id is not its name, since what stands under the id
/// `image` is a number, and is to be in digits.
fn image_flag<'a>(alloc: Global) -> Arg<'a>
    ensures local { result.global ≡ false }
    ensures rule { rule_of result ≡ image_flag_rule }
{
    flag(
        alloc,
        "from_image",
        "image",
        "The input begins with an image, and the file goes on from it",
    )
}

/// The subcommand that answers a client: a file's options, and a flag for an input that begins with an image.
fn serve_command<'a>(alloc: Global) -> Result<Command<'a>, AllocError>
    ensures { IfOk result (Reads serve_app) }
{
    file_command(alloc, "serve", SERVE)?
        .arg(image_flag(alloc))?
        .arg(text_flag(alloc))
}

/// The program's name and version, without a subcommand yet.
fn root<'a>(alloc: Global) -> Command<'a>
    ensures { Reads root_app result }
{
    Command::new(alloc, "lhash")
        .about("Run scripts on a linear hash file, and write, check and draw its images")
        .after_help(
            "'lhash COMMAND --help' lists the options of a command.\n\nExample: echo insert 61 31 | lhash commands",
        )
        .version("0.2.0")
        .subcommand_required(true)
}

/// A command with one more subcommand, if there was memory for that one.
// It owns both, so that who adds several has none to drop where one of them fails.
fn joined<'a>(
    command: Command<'a>,
    added: Result<Command<'a>, AllocError>,
) -> Result<Command<'a>, AllocError>
    ensures { IfOk result (λ all. (app below : App) → Reads app command.entry → IfOk added.entry (Reads below) →
        Reads (with_subcommand app below.top) all) }
{
    command.subcommand(added?)
}

/// The program's command with the subcommands that take a script in one thread.
fn with_scripts<'a>(alloc: Global) -> Result<Command<'a>, AllocError>
    ensures { IfOk result (Reads scripts_app) }
{
    let app = joined(root(alloc), script_command(alloc, "commands", COMMANDS))?;
    let app = joined(app, script_command(alloc, "steps", STEPS))?;
    let app = joined(app, writing_command(alloc, "replay", REPLAY))?;
    joined(app, build_command(alloc))
}

/// The program's command.
pub(crate) fn program<'a>(alloc: Global) -> Result<Command<'a>, AllocError>
    ensures { IfOk result (Reads program_app) }
{
    let app = with_scripts(alloc)?;
    let app = joined(app, building_command(alloc, "load", LOAD))?;
    let app = joined(app, image_command(alloc, "check", CHECK))?;
    let app = joined(app, dump_command(alloc))?;
    let app = joined(app, drive_command(alloc))?;
    let app = joined(app, changing_command(alloc, "draw", DRAW))?;
    let app = joined(app, changing_command(alloc, "migrate", MIGRATE))?;
    let app = joined(app, query_command(alloc))?;
    let app = joined(app, apply_command(alloc))?;
    let app = joined(app, serve_command(alloc))?;
    joined(app, get_command(alloc, GET))
}
