//! What help says of the subcommands.

/// What help says of a subcommand: what comes in and what goes out, the operand that names its file, and an example.
#[derive(Clone, Copy)]
pub struct Help {
    pub about: &'static str,
    pub file: &'static str,
    pub example: &'static str,
}

/// The operand of a subcommand that reads a script.
const SCRIPT: &str = "Script to read in place of standard input, which is -";

/// The operand of the subcommand that reads the records of another store.
const RECORDS: &str = "Records to read in place of standard input, which is -";

/// The operand of a subcommand that reads an image.
const IMAGE: &str = "Image to read in place of standard input, which is -";

/// The operand of a subcommand that reads an image and a script behind it.
const LEADING: &str = "Image to read; standard input is the script alone then";

/// The operand of the subcommand that answers a client.
const REQUESTS: &str =
    "Lines to read in place of standard input, which is -; with --image the image to read before it";

pub const COMMANDS: Help = Help {
    about: "Read a script of commands, and write the reply to each",
    file: SCRIPT,
    example: "Lines, and the replies to them; keys and values are hexadecimal, and - is the empty value:
  insert 616461 30313732  inserted
  search 616461           found 30313732
  replace 616461 -        replaced
  delete 616461           deleted

With --text keys and values are text: printable ASCII as it is; a blank, a backslash and any other
byte as \\xx, in hexadecimal; - is the empty value, and \\2d a single -:
  insert ada 0172         inserted

Example: lhash commands --capacity 2 script.txt",
};

pub const STEPS: Help = Help {
    about: "Read a script of steps, and write the effect of each",
    file: SCRIPT,
    example: "Lines, and their effects; 0 is a worker's place, 0 to 15:
  call 0 search 61  called
  read 0            aim 0 0
  split-begin       begun 0 1
  split-lock        both 0 1
  split-move        moved 0 1
  split-release     freed
  lock 0            locked 0 1
  rehash 0          aim 1 0
  lock 0            locked 0 1
  act 0             absent
  release 0         released
  split-point       point 2
  split-begin       begun 0 2
  split-drop        dropped

Example: lhash steps --initial 3 steps.txt",
};

pub const REPLAY: Help = Help {
    about: "Read a script of steps, and draw the effect of each as an SVG",
    file: SCRIPT,
    example: "Example: lhash replay --initial 3 steps.txt -o steps.svg",
};

pub const BUILD: Help = Help {
    about: "Read a script of commands, and write the resulting file as an image",
    file: SCRIPT,
    example: "Example: lhash build --capacity 2 script.txt -o file.lhf",
};

pub const LOAD: Help = Help {
    about: "Read records from another store's dump, cdb or db, and write them as an image",
    file: RECORDS,
    example: "A dump of cdb, in which lengths lead each key and its value, and which an empty line ends:
  +3,4:ada->0172

A dump of db, as db_dump and mdb_dump write it, here with keys and values in hexadecimal:
  VERSION=3
  format=bytevalue
  type=hash
  HEADER=END
   616461
   30313732
  DATA=END

Example: lhash load users.dump -o users.lhf",
};

pub const MIGRATE: Help = Help {
    about: "Read an image of either version, and write the same file as an image of version 2",
    file: IMAGE,
    example: "Example: lhash migrate old.lhf -o new.lhf",
};

pub const CHECK: Help = Help {
    about: "Read an image, and write its counts",
    file: IMAGE,
    example: "Example: lhash check file.lhf",
};

pub const DUMP: Help = Help {
    about: "Read an image, and write its records",
    file: IMAGE,
    example: "Example: lhash dump users.lhf --format cdb | cdb -c users.cdb",
};

pub const DRAW: Help = Help {
    about: "Read an image, and draw its file as an SVG",
    file: IMAGE,
    example: "Example: lhash draw file.lhf -o file.svg",
};

pub const QUERY: Help = Help {
    about: "Read an image and a script of commands behind it, and write the reply to each",
    file: LEADING,
    example: "Example: lhash query file.lhf < script.txt",
};

pub const GET: Help = Help {
    about: "Look keys up in an image, and write what is found of each",
    file: "Image to read; - is standard input",
    example: "Lines, one for each key in turn; keys and values are hexadecimal:
  found 30313732
  absent

Where a key is absent, all lines are written, and the exit status is 6. No page is looked at
that no key leads to; 'lhash check' looks at all.

With --text, as 'lhash commands --help' says: lhash get --text users.lhf ada bob

Example: lhash get users.lhf 616461 626f62",
};

pub const APPLY: Help = Help {
    about: "Read an image and a script of commands behind it, and write the resulting file as an image",
    file: LEADING,
    example: "Example: lhash apply file.lhf -o file.lhf < script.txt",
};

pub const SERVE: Help = Help {
    about: "Answer each line of a client as it comes, until its input ends",
    file: REQUESTS,
    example: "Lines, and the answers to them; keys and values are hexadecimal, and - is the empty value:
  insert 616461 30313732  inserted
  search 616461           found 30313732
  replace 616461 -        replaced
  delete 616461           deleted
  records                 records 0
  buckets                 buckets 1
  image                   image 8192, and behind that line so many bytes
  frob                    fault unknown word

With --text, as 'lhash commands --help' says:
  search ada              found 0172

Example: lhash serve < requests.txt",
};

pub const DRIVE: Help = Help {
    about: "Read a script of commands, run it in threads, and write totals",
    file: SCRIPT,
    example: "Example: lhash drive --threads 8 script.txt",
};
