//! The program, from words and bytes to bytes and a status.
ghost use Rattle.std.specs.Prelude.{◌≡◌, ◌≤◌, ◌==◌, Bool, IfOk, IfSome, map};
ghost use Rattle.lh_shards.specs.Hands.{IsCount};
ghost use Rattle.lh_options.specs.Options.{IsServable};
ghost use Rattle.lh_subcommands.specs.Run.{Ends};
ghost use Rattle.lhash.specs.Serving.{EndsDrivingIn, IsHelped, IsNotationOf, IsPerformed, IsPerformedOn, IsRun};
ghost use Rattle.lhash.specs.Serving.{IsRunOn, IsWhetherApart, IsWhetherImageAsked, IsWordsOf, dumped_due, wanted_version};

use crate::drive::answer_drive;
use crate::drive_shards::answer_drive_shards;
use lh_addr::Config;
use lh_image::Version;
use lh_options::{DumpFormat, ImageVersion, Request, asks_for_text, request_of};
use lh_subcommands::{
    DeviceFault, Notation, Status, StreamFormat, answer_apply, answer_apply_to, answer_build,
    answer_check, answer_commands, answer_draw, answer_dump, answer_export, answer_get,
    answer_load, answer_migrate, answer_query, answer_query_of, answer_replay, answer_serve,
    answer_serve_from, answer_serve_of, answer_steps, write_all,
};
use std::alloc::{AllocError, Global};
use std::io::{Read, Write};
use std::sync::Wait;
use std::thread::Threads;

/// Writes the help that was asked for.
fn write_help<W: Write>(writer: &mut W, text: &str) -> Status
    ensures { IsHelped text.now result (W.contents writer.old) (W.contents writer.new) }
{
    match write_all(writer, text.as_bytes()) {
        Ok(()) => Status::Done,
        Err(_) => Status::Device(DeviceFault::Write),
    }
}

/// How a run ends whose words are refused for this reason.
pub fn refuse(alloc: Global, reason: &str) -> Status
    ensures { IsWordsOf reason.now result }
{
    match String::from_str(alloc, reason) {
        Ok(text) => Status::Words(text),
        Err(_) => Status::Memory,
    }
}

/// The version of an image that is asked for.
fn version_of(asked: ImageVersion) -> Version
    ensures { result ≡ wanted_version asked }
{
    match asked {
        ImageVersion::First => Version::One,
        ImageVersion::Second => Version::Two,
    }
}

/// Runs a script in threads, on one file or on several shards.
fn drive<A: Threads + Wait + Sync, R: Read, W: Write>(
    rt: &A,
    alloc: Global,
    notation: Notation,
    config: Config,
    threads: u32,
    shards: u32,
    snapshots: u32,
    reader: &mut R,
    writer: &mut W,
) -> Status
    requires threads { 1 ≤ threads }
    requires shards { IsCount shards }
    ensures { IfSome (R.remaining reader.old) (λ input. EndsDrivingIn notation (shards == 1) config shards snapshots input
        result (W.contents writer.old) (W.contents writer.new)) }
{
    if shards == 1 {
        answer_drive(
            rt, alloc, notation, config, threads, snapshots, reader, writer,
        )
    } else {
        answer_drive_shards(rt, alloc, notation, config, threads, shards, reader, writer)
    }
}

/// Writes the records of an image in a format.
fn dump<R: Read, W: Write>(
    alloc: Global,
    notation: Notation,
    format: DumpFormat,
    reader: &mut R,
    writer: &mut W,
) -> Status
    ensures { IfSome (R.remaining reader.old) (λ input.
        Ends result (dumped_due notation format input) (W.contents writer.old) (W.contents writer.new)) }
{
    match format {
        DumpFormat::Lines => answer_dump(alloc, notation, reader, writer),
        DumpFormat::Cdb => answer_export(alloc, StreamFormat::Cdb, reader, writer),
        DumpFormat::Db => answer_export(alloc, StreamFormat::Db, reader, writer),
    }
}

/// Does what is asked for.
fn serve<A: Threads + Wait + Sync, R: Read, W: Write>(
    rt: &A,
    alloc: Global,
    notation: Notation,
    is_terminal: bool,
    request: Request,
    reader: &mut R,
    writer: &mut W,
) -> Status
    requires { IsServable request }
    ensures { IsPerformed notation is_terminal request result (R.remaining reader.old) (R.remaining reader.new)
        (W.contents writer.old) (W.contents writer.new) }
{
    match request {
        Request::Commands(config) => answer_commands(alloc, notation, config, reader, writer),
        Request::Steps(config) => answer_steps(alloc, notation, config, reader, writer),
        Request::Replay(config) => answer_replay(alloc, config, reader, writer),
        Request::Build(config, version) => {
            answer_build(alloc, notation, config, version_of(version), reader, writer)
        },
        Request::Load(config, version) => {
            answer_load(alloc, config, version_of(version), reader, writer)
        },
        Request::Check => answer_check(alloc, reader, writer),
        Request::Dump(format) => dump(alloc, notation, format, reader, writer),
        Request::Draw => answer_draw(alloc, reader, writer),
        Request::Migrate => answer_migrate(alloc, reader, writer),
        Request::Query => answer_query(alloc, notation, reader, writer),
        Request::Apply(version) => {
            answer_apply(alloc, notation, version_of(version), reader, writer)
        },
        Request::Get(keys) => answer_get(alloc, notation, keys.as_slice(), reader, writer),
        Request::Drive {
            config,
            threads,
            shards,
            snapshots,
        } => drive(
            rt, alloc, notation, config, threads, shards, snapshots, reader, writer,
        ),
        Request::Serve(config) => {
            answer_serve(alloc, notation, is_terminal, config, reader, writer)
        },
        Request::ServeImage => answer_serve_from(alloc, notation, is_terminal, reader, writer),
        Request::Help(text) => write_help(writer, text.as_str()),
        Request::Refused(text) => Status::Words(text),
        Request::MaxBelowInitial => refuse(alloc, "max is less than initial"),
        Request::SettingsBesideImage => refuse(
            alloc,
            "--image excludes --initial, --capacity, --load and --max",
        ),
        Request::SnapshotsOfShards => refuse(alloc, "--snapshots needs --shards 1"),
    }
}

/// Does what is asked for with a file as its input: of `query`, `apply` and `serve --image` it is the image, and the
/// reader has what follows; of all others it is the whole.
fn serve_on<A: Threads + Wait + Sync, Q: Read, R: Read, W: Write>(
    rt: &A,
    alloc: Global,
    notation: Notation,
    is_terminal: bool,
    request: Request,
    file: &mut Q,
    reader: &mut R,
    writer: &mut W,
) -> Status
    requires { IsServable request }
    ensures { IsPerformedOn notation is_terminal request result (Q.remaining file.old) (Q.remaining file.new)
        (R.remaining reader.old) (R.remaining reader.new) (W.contents writer.old) (W.contents writer.new) }
{
    match request {
        Request::Query => answer_query_of(alloc, notation, file, reader, writer),
        Request::Apply(version) => answer_apply_to(
            alloc,
            notation,
            version_of(version),
            file,
            reader,
            writer,
        ),
        Request::ServeImage => {
            answer_serve_of(alloc, notation, is_terminal, file, reader, writer)
        },
        whole => serve(rt, alloc, notation, is_terminal, whole, file, writer),
    }
}

/// Whether a file that the words name as input is an image alone, and standard input has what follows it.
pub fn reads_apart<'a>(alloc: Global, words: &'a [&'a str]) -> Result<bool, AllocError>
    ensures { IfOk result (IsWhetherApart (map (λ s. s.now) words.now)) }
{
    match request_of(alloc, words)? {
        Request::Query | Request::Apply(_) | Request::ServeImage => Ok(true),
        _ => Ok(false),
    }
}

/// Whether the words, of which the first is the program's name, ask for an image to be written.
pub fn asks_for_image<'a>(alloc: Global, words: &'a [&'a str]) -> Result<bool, AllocError>
    ensures asked { IfOk result (IsWhetherImageAsked (map (λ s. s.now) words.now)) }
    ensures only { (other : Bool) → IsWhetherImageAsked (map (λ s. s.now) words.now) other →
        IfOk result (λ asked. asked ≡ other) }
{
    match request_of(alloc, words)? {
        Request::Build(..) => Ok(true),
        Request::Load(..) => Ok(true),
        Request::Migrate => Ok(true),
        Request::Apply(_) => Ok(true),
        _ => Ok(false),
    }
}

/// How the words ask for keys and values to be written.
fn notation_of<'a>(alloc: Global, words: &'a [&'a str]) -> Result<Notation, AllocError>
    ensures { IfOk result (IsNotationOf (map (λ s. s.now) words.now)) }
{
    if asks_for_text(alloc, words)? {
        Ok(Notation::Text)
    } else {
        Ok(Notation::Hexadecimal)
    }
}

/// Does what the words ask for, of which the first is the program's name; `serve` writes no image where the output is a
/// terminal. What that says for each subcommand stands in
/// [`laws`](crate::laws).
pub fn run<'a, A: AllocGlobal + Threads + Wait + Sync, R: Read, W: Write>(
    rt: &A,
    words: &'a [&'a str],
    is_terminal: bool,
    reader: &mut R,
    writer: &mut W,
) -> Status
    ensures { IsRun is_terminal (map (λ s. s.now) words.now) result (R.remaining reader.old) (R.remaining reader.new)
        (W.contents writer.old) (W.contents writer.new) }
{
    let alloc = rt.alloc();
    let Ok(notation) = notation_of(alloc, words) else {
        return Status::Memory;
    };
    match request_of(alloc, words) {
        Ok(request) => serve(rt, alloc, notation, is_terminal, request, reader, writer),
        Err(_) => Status::Memory,
    }
}

/// Does what the words ask for with a file as its input, as they name it. Where that is an image alone, the reader has
/// what follows it, and else nothing is read of it.
pub fn run_on<'a, A: AllocGlobal + Threads + Wait + Sync, Q: Read, R: Read, W: Write>(
    rt: &A,
    words: &'a [&'a str],
    is_terminal: bool,
    file: &mut Q,
    reader: &mut R,
    writer: &mut W,
) -> Status
    ensures { IsRunOn is_terminal (map (λ s. s.now) words.now) result (Q.remaining file.old) (Q.remaining file.new)
        (R.remaining reader.old) (R.remaining reader.new) (W.contents writer.old) (W.contents writer.new) }
{
    let alloc = rt.alloc();
    let Ok(notation) = notation_of(alloc, words) else {
        return Status::Memory;
    };
    match request_of(alloc, words) {
        Ok(request) => {
            serve_on(
                rt,
                alloc,
                notation,
                is_terminal,
                request,
                file,
                reader,
                writer,
            )
        },
        Err(_) => Status::Memory,
    }
}
