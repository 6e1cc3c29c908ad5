//! Pictures of step scripts.
use lh_expect::expect_eq;
use lhash_expect::{fails, has_parts, ran, writes};
use std::alloc::Global;
use std::test::Fail;

/// What is drawn of the steps of a caller with an old root.
const OLD_ROOT: &str =
    "<svg xmlns='http://www.w3.org/2000/svg' width='624' height='396' viewBox='0 0 624 396' role='img' aria-labelledby='title desc' font-family='sans-serif' font-size='12' fill='#333333'>
<title id='title'>Schedule of a linear hash file, steps 13</title>
<desc id='desc'>A lane for the splitter and one for each place, and downwards a row for each step. A box is a bucket that is held, from its lock to its release; an arrow leads from a rehash to the lock after it; an arrow between two boxes marks the move of a split, and a triangle the step of its pointer.</desc>
<rect width='100%' height='100%' fill='#ffffff'/>
<text x='16' y='20'>a box is a bucket that is held, and a curved arrow a rehash</text>
<text x='16' y='38'>a straight arrow is the move of a split, and a triangle the step of its pointer</text>
<g transform='translate(48 64)'><path stroke='#cccccc' d='M0 -8v332'/><text x='8' font-weight='bold'>splitter</text></g>
<g transform='translate(336 64)'><path stroke='#cccccc' d='M0 -8v332'/><text x='8' font-weight='bold'>place 0</text></g>
<g transform='translate(0 72)'><text x='36' y='16' text-anchor='end' fill='#757575'>1</text><g transform='translate(336 0)'><text x='8' y='16' fill='#333333'>insert: called</text></g></g>
<g transform='translate(0 96)'><text x='36' y='16' text-anchor='end' fill='#757575'>2</text><g transform='translate(336 0)'><text x='8' y='16' fill='#333333'>read: aim 0 0</text></g></g>
<g transform='translate(0 120)'><text x='36' y='16' text-anchor='end' fill='#757575'>3</text><g transform='translate(48 0)'><text x='8' y='16' fill='#333333'>split-begin: begun 0 1</text></g></g>
<g transform='translate(0 144)'><text x='36' y='16' text-anchor='end' fill='#757575'>4</text><g transform='translate(48 0)'><rect fill='#f8e2b3' x='148' y='2' width='54' height='68'/><text transform='translate(148 16)' x='6' font-weight='bold'>0</text><rect fill='#f8e2b3' x='206' y='2' width='54' height='68'/><text transform='translate(206 16)' x='6' font-weight='bold'>1</text><text x='8' y='16' fill='#333333'>split-lock: both 0 1</text></g></g>
<g transform='translate(0 168)'><text x='36' y='16' text-anchor='end' fill='#757575'>5</text><g transform='translate(48 0)'><path d='M188 12h32m-6 -5l6 5l-6 5' fill='none' stroke='#333333' stroke-width='2'/><text x='8' y='16' fill='#333333'>split-move: moved 0 1</text></g></g>
<g transform='translate(0 192)'><text x='36' y='16' text-anchor='end' fill='#757575'>6</text><g transform='translate(48 0)'><text x='8' y='16' fill='#333333'>split-release: freed</text></g></g>
<g transform='translate(0 216)'><text x='36' y='16' text-anchor='end' fill='#757575'>7</text><g transform='translate(48 0)'><path d='M204 4l8 14h-16z'/><text x='8' y='16' fill='#333333'>split-point: point 2</text></g></g>
<g transform='translate(0 240)'><text x='36' y='16' text-anchor='end' fill='#757575'>8</text><g transform='translate(336 0)'><rect fill='#b3d5e8' x='148' y='2' width='112' height='68'/><text transform='translate(148 16)' x='6' font-weight='bold'>0</text><text x='8' y='16' fill='#333333'>lock: locked 0 1</text></g></g>
<g transform='translate(0 264)'><text x='36' y='16' text-anchor='end' fill='#757575'>9</text><g transform='translate(336 0)'><text x='8' y='16' fill='#b85000'>act: refused C3</text></g></g>
<g transform='translate(0 288)'><text x='36' y='16' text-anchor='end' fill='#757575'>10</text><g transform='translate(336 0)'><path d='M264 12c16 0 16 24 6 24' fill='none' stroke='#b85000' stroke-width='2'/><path transform='translate(262 24)' d='M0 12l8 -4v8z' fill='#b85000'/><text x='8' y='16' fill='#333333'>rehash: aim 1 1</text></g></g>
<g transform='translate(0 312)'><text x='36' y='16' text-anchor='end' fill='#757575'>11</text><g transform='translate(336 0)'><rect fill='#b3d5e8' x='148' y='2' width='112' height='68'/><text transform='translate(148 16)' x='6' font-weight='bold'>1</text><text x='8' y='16' fill='#333333'>lock: locked 1 1</text></g></g>
<g transform='translate(0 336)'><text x='36' y='16' text-anchor='end' fill='#757575'>12</text><g transform='translate(336 0)'><text x='8' y='16' fill='#333333'>act: inserted</text></g></g>
<g transform='translate(0 360)'><text x='36' y='16' text-anchor='end' fill='#757575'>13</text><g transform='translate(336 0)'><text x='8' y='16' fill='#333333'>release: released</text></g></g>
</svg>
";

/// What is drawn of no steps.
const NOTHING: &str =
    "<svg xmlns='http://www.w3.org/2000/svg' width='624' height='84' viewBox='0 0 624 84' role='img' aria-labelledby='title desc' font-family='sans-serif' font-size='12' fill='#333333'>
<title id='title'>Schedule of a linear hash file, steps 0</title>
<desc id='desc'>A lane for the splitter and one for each place, and downwards a row for each step. A box is a bucket that is held, from its lock to its release; an arrow leads from a rehash to the lock after it; an arrow between two boxes marks the move of a split, and a triangle the step of its pointer.</desc>
<rect width='100%' height='100%' fill='#ffffff'/>
<text x='16' y='20'>a box is a bucket that is held, and a curved arrow a rehash</text>
<text x='16' y='38'>a straight arrow is the move of a split, and a triangle the step of its pointer</text>
<g transform='translate(48 64)'><path stroke='#cccccc' d='M0 -8v20'/><text x='8' font-weight='bold'>splitter</text></g>
</svg>
";

/// Those steps: place 0 reads the root, and then bucket 0 is split before it locks.
const STEPS: &str = "call 0 insert 62 31
read 0
split-begin
split-lock
split-move
split-release
split-point
lock 0
act 0
rehash 0
lock 0
act 0
release 0
";

#[test]
fn an_old_root_finds_its_way(rt: HostRuntime) -> Result<(), Fail> {
    writes(&rt, ["lhash", "replay"].as_slice(), STEPS, OLD_ROOT)
}

#[test]
fn no_steps_are_drawn_as_a_lane_of_the_splitter(rt: HostRuntime) -> Result<(), Fail> {
    writes(&rt, ["lhash", "replay"].as_slice(), "", NOTHING)
}

#[test]
fn a_faulty_script_is_not_drawn(rt: HostRuntime) -> Result<(), Fail> {
    fails(
        &rt,
        ["lhash", "replay"].as_slice(),
        "read 0\nread 16\n",
        1,
        "line 2: bad worker number",
    )
}

/// Place 0 inserts a record, finds it again, and holds its bucket.
const FOUND: &str = "call 0 insert 62 31
read 0
lock 0
act 0
release 0
call 0 search 62
read 0
lock 0
act 0
";

/// No split gets the bucket before place 0 lets go of it. Then the file grows to two buckets, and place 1, whose aim is
/// older, finds its way to the second one, where place 0 has deleted its key.
const SPLIT: &str = "split-begin
split-begin
split-lock
split-drop
release 0
split-begin
split-lock
split-move
split-release
split-point
split-begin
lock 1
act 1
rehash 1
call 0 delete 62
read 0
lock 0
act 0
release 0
lock 1
rehash 1
act 1
release 1
lock 0
";

/// The steps of [`FOUND`] and of [`SPLIT`], 9 and 24; in between each place but the first tries six times to lock that
/// bucket, in 8 steps.
fn many_steps(alloc: Global) -> Result<String, Fail> {
    let mut script = String::from_str(alloc, FOUND)?;
    for place in 1..16_u32 {
        script.writeln(format_args!("call {place} replace 62 32\nread {place}"))?;
        for _try in 0..6_u32 {
            script.writeln(format_args!("lock {place}"))?;
        }
    }
    script.push_str(SPLIT)?;
    Ok(script)
}

/// How often what is written of such steps has these parts: a row for each step, the lanes of all places, each word of
/// an event, each refusal, a box over 126 rows and an arrow over 6.
const MANY_PARTS: [(&str, usize); 28] = [
    (" width='4944' height='3756' ", 1),
    (", steps 153</title>", 1),
    ("<g transform='translate(0 ", 153),
    (
        "fill='#757575'>153</text><g transform='translate(336 0)'>",
        1,
    ),
    (
        "<g transform='translate(4656 64)'><path stroke='#cccccc' d='M0 -8v3692'/><text x='8' font-weight='bold'>place 15<",
        1,
    ),
    (">insert: called<", 1),
    (">search: called<", 1),
    (">replace: called<", 15),
    (">delete: called<", 1),
    (">read: aim 0 0<", 17),
    (">act: inserted<", 1),
    (">act: found<", 1),
    (">act: deleted<", 1),
    (">act: absent<", 1),
    (">release: released<", 4),
    (">lock: refused C2<", 90),
    (">split-begin: refused C5<", 1),
    (">split-lock: refused C2<", 1),
    (">split-drop: dropped<", 1),
    (">split-point: point 2<", 1),
    (">split-begin: refused C6<", 1),
    (">act: refused C3<", 1),
    (">rehash: aim 1 1<", 1),
    (">rehash: refused C4<", 1),
    (">lock: refused C1<", 1),
    (" width='112' height='3044'/>", 1),
    (" d='M264 12c16 0 16 144 6 144' ", 1),
    ("<rect fill='#f8e2b3' ", 2),
];

#[test]
fn many_steps_of_all_kinds_are_drawn(rt: HostRuntime) -> Result<(), Fail> {
    let script = many_steps(rt.alloc())?;
    let words = ["lhash", "replay", "--max=2"];
    let (code, written, text) = ran(&rt, words.as_slice(), script.as_bytes())?;
    expect_eq!(&rt, text.as_str(), "");
    has_parts(written.as_slice(), MANY_PARTS.as_slice())?;
    expect_eq!(rt; code, 0);
    Ok(())
}
