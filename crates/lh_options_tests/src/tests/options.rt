//! Requests of words that are written out.
use lh_addr::Config;
use lh_expect::{expect, expect_eq};
use lh_options::{DumpFormat, ImageVersion, Request, request_of};
use std::alloc::AllocError;
use std::process::Abort;

/// The four settings that the words give, as `initial capacity load max`, or what stands in their
/// place.
fn answer(rt: &(impl Abort + AllocGlobal), words: &[&str]) -> Result<String, AllocError> {
    let alloc = rt.alloc();
    match request_of(alloc, words)? {
        Request::Commands(config) | Request::Steps(config) | Request::Replay(config) => {
            settings(rt, &config)
        }
        Request::Build(config, version) => {
            let settings = settings(rt, &config)?;
            let version = text_of(version);
            format!(in alloc; "{settings}, {version}")
        }
        Request::Load(config, version) => {
            let settings = settings(rt, &config)?;
            let version = text_of(version);
            format!(in alloc; "load {settings}, {version}")
        }
        Request::Serve(config) => {
            let settings = settings(rt, &config)?;
            format!(in alloc; "{settings}, serve")
        }
        Request::Drive {
            config,
            threads,
            shards,
            snapshots,
        } => {
            let settings = settings(rt, &config)?;
            format!(in alloc;
                "{settings}, {threads} threads, {shards} shards, {snapshots} snapshots"
            )
        }
        Request::Check => String::from_str(alloc, "check"),
        Request::Dump(format) => {
            let format = name_of(format);
            format!(in alloc; "dump, {format}")
        }
        Request::Draw => String::from_str(alloc, "draw"),
        Request::Migrate => String::from_str(alloc, "migrate"),
        Request::Query => String::from_str(alloc, "query"),
        Request::Apply(version) => {
            let version = text_of(version);
            format!(in alloc; "apply, {version}")
        }
        Request::Get(keys) => {
            let keys = keys.as_slice();
            format!(in alloc; "get {keys:?}")
        }
        Request::Help(text) => help(rt, text.as_str()),
        Request::Refused(text) => format!(in alloc; "refused: {text}"),
        Request::ServeImage => String::from_str(alloc, "serve, from an image"),
        Request::MaxBelowInitial => String::from_str(alloc, "max is below initial"),
        Request::SettingsBesideImage => String::from_str(alloc, "settings beside an image"),
        Request::SnapshotsOfShards => String::from_str(alloc, "snapshots of shards"),
    }
}

/// What stands in the place of a text for help, which shows the usage.
fn help(rt: &(impl Abort + AllocGlobal), text: &str) -> Result<String, AllocError> {
    expect!(
        rt,
        text.starts_with("Usage: lhash") || text.contains("\nUsage: lhash")
    );
    String::from_str(rt.alloc(), "help")
}

fn text_of(version: ImageVersion) -> &'static str {
    match version {
        ImageVersion::First => "version 1",
        ImageVersion::Second => "version 2",
    }
}

fn name_of(format: DumpFormat) -> &'static str {
    match format {
        DumpFormat::Lines => "lines",
        DumpFormat::Cdb => "cdb",
        DumpFormat::Db => "db",
    }
}

fn settings(rt: &impl AllocGlobal, config: &Config) -> Result<String, AllocError> {
    let initial = config.initial();
    let capacity = config.capacity();
    let load = config.load();
    let max = config.max();
    format!(in rt.alloc(); "{initial} {capacity} {load} {max}")
}

/// After `lhash commands`, these words give this answer.
fn expect(
    rt: &(impl Abort + AllocGlobal),
    options: &[&str],
    expected: &str,
) -> Result<(), AllocError> {
    let mut words = Vec::new(rt.alloc());
    words.push("lhash")?;
    words.push("commands")?;
    for option in options {
        words.push(*option)?;
    }
    let given = answer(rt, words.as_slice())?;
    assert!(rt; given.as_str() == expected, "{options:?} gives {given}");
    Ok(())
}

#[test]
fn each_option_apart_and_attached(rt: HostRuntime) -> Result<(), AllocError> {
    expect(&rt, [].as_slice(), "1 14 100 65536")?;
    expect(&rt, ["--initial", "3"].as_slice(), "3 14 100 65536")?;
    expect(&rt, ["--initial=3"].as_slice(), "3 14 100 65536")?;
    expect(&rt, ["--capacity", "2"].as_slice(), "1 2 100 65536")?;
    expect(&rt, ["--capacity=2"].as_slice(), "1 2 100 65536")?;
    expect(&rt, ["--load", "80"].as_slice(), "1 14 80 65536")?;
    expect(&rt, ["--load=80"].as_slice(), "1 14 80 65536")?;
    expect(&rt, ["--max", "7"].as_slice(), "1 14 100 7")?;
    expect(&rt, ["--max=7"].as_slice(), "1 14 100 7")?;
    expect(
        &rt,
        [
            "--max=300",
            "--load",
            "200",
            "--capacity=1",
            "--initial",
            "256",
        ]
        .as_slice(),
        "256 1 200 300",
    )
}

#[test]
fn ends_of_the_ranges(rt: HostRuntime) -> Result<(), AllocError> {
    expect(&rt, ["--load=10"].as_slice(), "1 14 10 65536")?;
    expect(&rt, ["--max=1"].as_slice(), "1 14 100 1")?;
    expect(
        &rt,
        ["--initial", "+3"].as_slice(),
        "refused: numbers have no sign",
    )?;
    expect(&rt, ["--initial", "007"].as_slice(), "7 14 100 65536")?;
    expect(
        &rt,
        ["--initial=0"].as_slice(),
        "refused: invalid value '0' for '--initial <initial>': 0 is not in 1..=256",
    )?;
    expect(
        &rt,
        ["--initial=257"].as_slice(),
        "refused: invalid value '257' for '--initial <initial>': 257 is not in 1..=256",
    )?;
    expect(
        &rt,
        ["--capacity", "25"].as_slice(),
        "refused: invalid value '25' for '--capacity <capacity>': 25 is not in 1..=24",
    )?;
    expect(
        &rt,
        ["--load", "9"].as_slice(),
        "refused: invalid value '9' for '--load <load>': 9 is not in 10..=200",
    )?;
    expect(
        &rt,
        ["--max", "65537"].as_slice(),
        "refused: invalid value '65537' for '--max <max>': 65537 is not in 1..=65536",
    )?;
    expect(
        &rt,
        ["--initial=-1"].as_slice(),
        "refused: invalid value '-1' for '--initial <initial>': -1 is not in 1..=256",
    )
}

#[test]
fn words_that_are_no_numbers(rt: HostRuntime) -> Result<(), AllocError> {
    expect(
        &rt,
        ["--initial", "x"].as_slice(),
        "refused: invalid value 'x' for '--initial <initial>': invalid digit found in string",
    )?;
    expect(
        &rt,
        ["--initial="].as_slice(),
        "refused: invalid value '' for '--initial <initial>': cannot parse integer from empty string",
    )?;
    expect(
        &rt,
        ["--initial"].as_slice(),
        "refused: a value is required for '--initial <initial>' but none was supplied",
    )?;
    expect(
        &rt,
        ["--initial", "-1"].as_slice(),
        "refused: unexpected argument '-1' found",
    )?;
    expect(
        &rt,
        ["--initial=3", "--initial=3"].as_slice(),
        "refused: the argument '--initial <initial>' cannot be used multiple times",
    )?;
    expect(
        &rt,
        ["--threads", "3"].as_slice(),
        "refused: unexpected argument '--threads' found",
    )?;
    expect(
        &rt,
        ["file", "extra"].as_slice(),
        "refused: unexpected argument 'extra' found",
    )
}

/// After `lhash drive`, these words give this answer.
fn drive_expect(
    rt: &(impl Abort + AllocGlobal),
    option: &str,
    expected: &str,
) -> Result<(), AllocError> {
    let given = answer(rt, ["lhash", "drive", "--load=80", option].as_slice())?;
    assert!(rt; given.as_str() == expected, "{option} gives {given}");
    Ok(())
}

#[test]
fn threads_are_1_to_64(rt: HostRuntime) -> Result<(), AllocError> {
    drive_expect(
        &rt,
        "--max=7",
        "1 14 80 7, 4 threads, 1 shards, 0 snapshots",
    )?;
    drive_expect(
        &rt,
        "--threads=1",
        "1 14 80 65536, 1 threads, 1 shards, 0 snapshots",
    )?;
    drive_expect(
        &rt,
        "--threads=64",
        "1 14 80 65536, 64 threads, 1 shards, 0 snapshots",
    )?;
    drive_expect(
        &rt,
        "--threads=0",
        "refused: invalid value '0' for '--threads <threads>': 0 is not in 1..=64",
    )?;
    drive_expect(
        &rt,
        "--threads=65",
        "refused: invalid value '65' for '--threads <threads>': 65 is not in 1..=64",
    )
}

#[test]
fn shards_are_1_to_64(rt: HostRuntime) -> Result<(), AllocError> {
    drive_expect(
        &rt,
        "--shards=1",
        "1 14 80 65536, 4 threads, 1 shards, 0 snapshots",
    )?;
    drive_expect(
        &rt,
        "--shards=64",
        "1 14 80 65536, 4 threads, 64 shards, 0 snapshots",
    )?;
    drive_expect(&rt, "--shards=+2", "refused: numbers have no sign")?;
    drive_expect(
        &rt,
        "--shards=0",
        "refused: invalid value '0' for '--shards <shards>': 0 is not in 1..=64",
    )?;
    drive_expect(
        &rt,
        "--shards=65",
        "refused: invalid value '65' for '--shards <shards>': 65 is not in 1..=64",
    )?;
    gives(
        &rt,
        ["lhash", "commands", "--shards=2"].as_slice(),
        "refused: unexpected argument '--shards' found",
    )
}

#[test]
fn snapshots_are_of_one_shard(rt: HostRuntime) -> Result<(), AllocError> {
    gives(
        &rt,
        ["lhash", "drive", "--shards=2", "--snapshots=1"].as_slice(),
        "snapshots of shards",
    )?;
    gives(
        &rt,
        ["lhash", "drive", "--snapshots=1000", "--shards", "64"].as_slice(),
        "snapshots of shards",
    )?;
    gives(
        &rt,
        ["lhash", "drive", "--shards=1", "--snapshots=1"].as_slice(),
        "1 14 100 65536, 4 threads, 1 shards, 1 snapshots",
    )?;
    gives(
        &rt,
        ["lhash", "drive", "--shards=2", "--snapshots=0"].as_slice(),
        "1 14 100 65536, 4 threads, 2 shards, 0 snapshots",
    )?;
    gives(
        &rt,
        [
            "lhash",
            "drive",
            "--initial=8",
            "--max=7",
            "--shards=2",
            "--snapshots=1",
        ]
        .as_slice(),
        "max is below initial",
    )
}

#[test]
fn snapshots_are_0_to_1000(rt: HostRuntime) -> Result<(), AllocError> {
    drive_expect(
        &rt,
        "--snapshots=0",
        "1 14 80 65536, 4 threads, 1 shards, 0 snapshots",
    )?;
    drive_expect(
        &rt,
        "--snapshots=1000",
        "1 14 80 65536, 4 threads, 1 shards, 1000 snapshots",
    )?;
    drive_expect(&rt, "--snapshots=-0", "refused: numbers have no sign")?;
    drive_expect(
        &rt,
        "--snapshots=1001",
        "refused: invalid value '1001' for '--snapshots <snapshots>': 1001 is not in 0..=1000",
    )?;
    drive_expect(
        &rt,
        "--snapshots=-1",
        "refused: invalid value '-1' for '--snapshots <snapshots>': -1 is not in 0..=1000",
    )
}

/// These words give this answer.
fn gives(
    rt: &(impl Abort + AllocGlobal),
    words: &[&str],
    expected: &str,
) -> Result<(), AllocError> {
    let given = answer(rt, words)?;
    expect_eq!(rt; given.as_str(), expected);
    Ok(())
}

#[test]
fn drive_takes_seven_options(rt: HostRuntime) -> Result<(), AllocError> {
    let words = [
        "lhash",
        "drive",
        "--initial",
        "3",
        "--capacity",
        "2",
        "--load",
        "80",
        "--max",
        "7",
        "--threads",
        "64",
        "--shards",
        "1",
        "--snapshots",
        "5",
    ];
    gives(
        &rt,
        words.as_slice(),
        "3 2 80 7, 64 threads, 1 shards, 5 snapshots",
    )
}

#[test]
fn an_image_is_of_version_1_or_2(rt: HostRuntime) -> Result<(), AllocError> {
    gives(
        &rt,
        ["lhash", "build"].as_slice(),
        "1 14 100 65536, version 2",
    )?;
    gives(
        &rt,
        ["lhash", "build", "--image", "1"].as_slice(),
        "1 14 100 65536, version 1",
    )?;
    gives(
        &rt,
        ["lhash", "build", "--image=2", "--capacity=24"].as_slice(),
        "1 24 100 65536, version 2",
    )?;
    gives(
        &rt,
        ["lhash", "build", "--image=3"].as_slice(),
        "refused: invalid value '3' for '--image <image>': 3 is not in 1..=2",
    )?;
    gives(
        &rt,
        ["lhash", "build", "--image=0"].as_slice(),
        "refused: invalid value '0' for '--image <image>': 0 is not in 1..=2",
    )?;
    gives(&rt, ["lhash", "migrate"].as_slice(), "migrate")?;
    gives(
        &rt,
        ["lhash", "migrate", "--image=2"].as_slice(),
        "refused: unexpected argument '--image' found",
    )?;
    gives(
        &rt,
        ["lhash", "commands", "--image=2"].as_slice(),
        "refused: unexpected argument '--image' found",
    )
}

#[test]
fn load_takes_the_options_of_build(rt: HostRuntime) -> Result<(), AllocError> {
    gives(
        &rt,
        ["lhash", "load"].as_slice(),
        "load 1 14 100 65536, version 2",
    )?;
    gives(
        &rt,
        [
            "lhash",
            "load",
            "--initial=3",
            "--capacity",
            "2",
            "--load=80",
            "--max",
            "9",
            "--image=1",
            "in.cdb",
            "-o",
            "out.lhf",
        ]
        .as_slice(),
        "load 3 2 80 9, version 1",
    )?;
    gives(
        &rt,
        ["lhash", "load", "--initial=8", "--max=7"].as_slice(),
        "max is below initial",
    )?;
    gives(
        &rt,
        ["lhash", "load", "--image=3"].as_slice(),
        "refused: invalid value '3' for '--image <image>': 3 is not in 1..=2",
    )?;
    gives(
        &rt,
        ["lhash", "load", "--capacity=+2"].as_slice(),
        "refused: numbers have no sign",
    )?;
    gives(
        &rt,
        ["lhash", "load", "--format=cdb"].as_slice(),
        "refused: unexpected argument '--format' found",
    )?;
    gives(
        &rt,
        ["lhash", "load", "a.cdb", "b.cdb"].as_slice(),
        "refused: unexpected argument 'b.cdb' found",
    )
}

#[test]
fn dump_has_a_format_of_three(rt: HostRuntime) -> Result<(), AllocError> {
    gives(&rt, ["lhash", "dump"].as_slice(), "dump, lines")?;
    gives(
        &rt,
        ["lhash", "dump", "--format=lines", "a.lhf"].as_slice(),
        "dump, lines",
    )?;
    gives(
        &rt,
        ["lhash", "dump", "a.lhf", "--format", "cdb"].as_slice(),
        "dump, cdb",
    )?;
    gives(&rt, ["lhash", "dump", "--format=db"].as_slice(), "dump, db")?;
    for word in ["csv", "CDB", "cdb ", "l", "line", ""] {
        gives(
            &rt,
            ["lhash", "dump", "--format", word].as_slice(),
            "refused: --format is lines, cdb or db",
        )?;
    }
    gives(
        &rt,
        ["lhash", "dump", "--format"].as_slice(),
        "refused: a value is required for '--format <FORMAT>' but none was supplied",
    )?;
    gives(
        &rt,
        ["lhash", "dump", "--format=db", "--format=db"].as_slice(),
        "refused: the argument '--format <FORMAT>' cannot be used multiple times",
    )?;
    gives(
        &rt,
        ["lhash", "check", "--format", "cdb"].as_slice(),
        "refused: unexpected argument '--format' found",
    )
}

#[test]
fn what_goes_on_from_an_image_takes_no_settings(rt: HostRuntime) -> Result<(), AllocError> {
    gives(&rt, ["lhash", "query"].as_slice(), "query")?;
    gives(
        &rt,
        ["lhash", "query", "--image=2"].as_slice(),
        "refused: unexpected argument '--image' found",
    )?;
    gives(&rt, ["lhash", "apply"].as_slice(), "apply, version 2")?;
    gives(
        &rt,
        ["lhash", "apply", "--image", "1"].as_slice(),
        "apply, version 1",
    )?;
    gives(
        &rt,
        ["lhash", "apply", "--image=3"].as_slice(),
        "refused: invalid value '3' for '--image <image>': 3 is not in 1..=2",
    )?;
    gives(
        &rt,
        ["lhash", "apply", "--image=+1"].as_slice(),
        "refused: numbers have no sign",
    )?;
    gives(
        &rt,
        ["lhash", "apply", "--image=1", "--image=1"].as_slice(),
        "refused: the argument '--image <image>' cannot be used multiple times",
    )?;
    gives(
        &rt,
        ["lhash", "apply", "--capacity=2"].as_slice(),
        "refused: unexpected argument '--capacity' found",
    )
}

#[test]
fn get_takes_a_file_and_keys(rt: HostRuntime) -> Result<(), AllocError> {
    gives(
        &rt,
        ["lhash", "get", "users.lhf", "616461", "", "x"].as_slice(),
        "get [\"616461\", \"\", \"x\"]",
    )?;
    gives(&rt, ["lhash", "get", "-", "-"].as_slice(), "get [\"-\"]")?;
    gives(
        &rt,
        ["lhash", "get", "--", "a.lhf", "-1"].as_slice(),
        "get [\"-1\"]",
    )?;
    gives(
        &rt,
        ["lhash", "get", "users.lhf"].as_slice(),
        "refused: get takes a FILE and one KEY or more",
    )?;
    gives(
        &rt,
        ["lhash", "get"].as_slice(),
        "refused: get takes a FILE and one KEY or more",
    )?;
    gives(
        &rt,
        ["lhash", "get", "users.lhf", "61", "--max=7"].as_slice(),
        "refused: unexpected argument '--max' found",
    )?;
    gives(
        &rt,
        ["lhash", "get", "users.lhf", "61", "-o", "a.txt"].as_slice(),
        "refused: unexpected argument '-o' found",
    )
}

#[test]
fn serve_takes_the_settings_or_an_image(rt: HostRuntime) -> Result<(), AllocError> {
    gives(
        &rt,
        ["lhash", "serve", "--initial=2", "--load", "50"].as_slice(),
        "2 14 50 65536, serve",
    )?;
    gives(
        &rt,
        ["lhash", "serve", "--initial=8", "--max=7"].as_slice(),
        "max is below initial",
    )?;
    gives(
        &rt,
        ["lhash", "serve", "--image"].as_slice(),
        "serve, from an image",
    )?;
    gives(
        &rt,
        ["lhash", "serve", "--image=2"].as_slice(),
        "refused: unexpected value '2' for '--image' found; no more were expected",
    )?;
    gives(
        &rt,
        ["lhash", "serve", "--image", "--image"].as_slice(),
        "refused: the argument '--image' cannot be used multiple times",
    )?;
    gives(
        &rt,
        ["lhash", "commands", "--image"].as_slice(),
        "refused: unexpected argument '--image' found",
    )
}

/// One that is given as its default is given, too.
#[test]
fn an_image_has_no_setting_beside_it(rt: HostRuntime) -> Result<(), AllocError> {
    for setting in ["--initial=1", "--capacity=2", "--load=80", "--max=7"] {
        gives(
            &rt,
            ["lhash", "serve", "--image", setting].as_slice(),
            "settings beside an image",
        )?;
    }
    gives(
        &rt,
        ["lhash", "serve", "--initial=8", "--image", "--max=7"].as_slice(),
        "settings beside an image",
    )?;
    gives(
        &rt,
        ["lhash", "serve", "--image", "--max=+7"].as_slice(),
        "refused: numbers have no sign",
    )?;
    gives(
        &rt,
        ["lhash", "serve", "--image", "--max=0"].as_slice(),
        "refused: invalid value '0' for '--max <max>': 0 is not in 1..=65536",
    )
}

#[test]
fn max_below_initial(rt: HostRuntime) -> Result<(), AllocError> {
    expect(
        &rt,
        ["--initial=8", "--max=7"].as_slice(),
        "max is below initial",
    )?;
    expect(&rt, ["--initial=8", "--max=8"].as_slice(), "8 14 100 8")
}

#[test]
fn subcommands_and_help(rt: HostRuntime) -> Result<(), AllocError> {
    expect(&rt, ["--help"].as_slice(), "help")?;
    expect(&rt, ["-h"].as_slice(), "help")?;
    let help = answer(&rt, ["lhash", "--help"].as_slice())?;
    expect_eq!(&rt, help.as_str(), "help");
    let help = answer(&rt, ["lhash", "help"].as_slice())?;
    expect_eq!(&rt, help.as_str(), "help");
    let help = answer(&rt, ["lhash", "help", "commands"].as_slice())?;
    expect_eq!(&rt, help.as_str(), "help");
    let none = answer(&rt, ["lhash"].as_slice())?;
    expect_eq!(
        &rt,
        none.as_str(),
        "refused: 'lhash' requires a subcommand but one was not provided; for more information, try '--help'"
    );
    let unknown = answer(&rt, ["lhash", "bogus"].as_slice())?;
    expect_eq!(
        &rt,
        unknown.as_str(),
        "refused: unrecognized subcommand 'bogus'"
    );
    Ok(())
}

/// The text of help, or of the version, that these words ask for.
pub fn told(rt: &impl AllocGlobal, words: &[&str]) -> Result<String, AllocError> {
    match request_of(rt.alloc(), words)? {
        Request::Help(text) => Ok(text),
        _ => String::from_str(rt.alloc(), "no help"),
    }
}

#[test]
fn the_version_has_two_words(rt: HostRuntime) -> Result<(), AllocError> {
    for word in ["--version", "-V"] {
        let text = told(&rt, ["lhash", word].as_slice())?;
        expect_eq!(&rt, text.as_str(), "lhash 0.2.0\n");
    }
    Ok(())
}

/// An unknown option of 200 letters, and a flag with a value.
#[test]
fn a_reason_is_told_whole(rt: HostRuntime) -> Result<(), AllocError> {
    let part = "frobfrobfrobfrobfrobfrobfrobfrobfrobfrob";
    let option = format!(in rt.alloc(); "--{part}{part}{part}{part}{part}")?;
    let reason = format!(in rt.alloc(); "refused: unexpected argument '{option}' found")?;
    expect(&rt, [option.as_str()].as_slice(), reason.as_str())?;
    expect(
        &rt,
        ["--help=x"].as_slice(),
        "refused: unexpected value 'x' for '--help' found; no more were expected",
    )
}

/// An example of each form of a dump, and the three formats.
#[test]
fn help_shows_the_forms_of_records(rt: HostRuntime) -> Result<(), AllocError> {
    let load = told(&rt, ["lhash", "load", "--help"].as_slice())?;
    for part in [
        "\n  +3,4:ada->0172\n\n",
        "\n  HEADER=END\n   616461\n   30313732\n  DATA=END\n\n",
        "\nExample: lhash load users.dump -o users.lhf\n",
    ] {
        expect!(&rt, load.as_str().contains(part));
    }
    let dump = told(&rt, ["lhash", "dump", "--help"].as_slice())?;
    for part in [
        "  --format <FORMAT>  Form of the records: lines, cdb or db [default: lines]\n",
        "\nExample: lhash dump users.lhf --format cdb | cdb -c users.cdb\n",
    ] {
        expect!(&rt, dump.as_str().contains(part));
    }
    Ok(())
}
