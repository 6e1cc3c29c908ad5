//! What follows of a run for the words that it was given, by the subcommand that they name, and in the notation that
//! they ask for. Each law is the contract of a function that does nothing.
ghost use Rattle.std.specs.Prelude.{codes};
ghost use Rattle.lh_subcommands.specs.Continued.{query_due};
ghost use Rattle.lh_subcommands.specs.Images.{EndsBuilding, check_due, draw_due, migrate_due};
ghost use Rattle.lh_subcommands.specs.Loading.{EndsLoading};
ghost use Rattle.lh_subcommands.specs.Run.{EndsReplay, EndsSteps};
ghost use Rattle.lhash.specs.Serving.{EndsCommands, EndsTold, RefusesBelow, RefusesBeside, RefusesSnapshots};
ghost use Rattle.lhash.specs.Serving.{ServesApply, ServesClient, ServesDrive, ServesDump, ServesFile, ServesFilled};
ghost use Rattle.lhash.specs.Serving.{ServesFrom, ServesGet, ServesImage, TurnsAway};

/// Words that ask for `commands` have the replies of one plain map to the script's calls written, and the number of
/// buckets that the split policy gives; or the run ends at the script's first fault, with nothing written.
pub fn commands_is_served()
    ensures { ServesFile (codes "commands") EndsCommands }
{}

/// Words that ask for `steps` have a line written for each event of the script, by what the headline tells of them.
pub fn steps_is_served()
    ensures { ServesFile (codes "steps") EndsSteps }
{}

/// Words that ask for `replay` have the picture drawn of the script's events, and of what the headline tells of them.
pub fn replay_is_served()
    ensures { ServesFile (codes "replay") (λ notation. EndsReplay) }
{}

/// Words that ask for `build` have the image written, in the version that they give, of the file that the script's
/// calls lead to; or the reason why it has none.
pub fn build_is_served()
    ensures { ServesFilled (codes "build") EndsBuilding }
{}

/// Words that ask for `load` have the image written, in the version that they give, of a file that has just the records
/// of the input's stream, each with a key of its own; or the reason why it has none. Or the run ends at the stream's
/// first fault, or else at the first record whose key came before, with nothing written.
pub fn load_is_served()
    ensures { ServesFilled (codes "load") (λ notation. EndsLoading) }
{}

/// Words that ask for `drive` have the totals written of a settled, legal history; and, where they give a number of
/// snapshots, that as many were taken, each of which is settled with the acts before it, the first part of that
/// history. On several shards the history is a merge of theirs, legal for one map, of which the shards hold the parts.
pub fn drive_is_served()
    ensures { ServesDrive }
{}

/// Words that ask for `check` have the census written of the listing that the input is an image of.
pub fn check_is_served()
    ensures { ServesImage (codes "check") (λ notation. EndsTold check_due) }
{}

/// Words that ask for `dump` have the records written of the listing that the input is an image of, in the format that
/// they give.
pub fn dump_is_served()
    ensures { ServesDump }
{}

/// Words that ask for `draw` have the drawing written of the listing that the input is an image of.
pub fn draw_is_served()
    ensures { ServesImage (codes "draw") (λ notation. EndsTold draw_due) }
{}

/// Words that ask for `migrate` have the image of version 2 written of the listing that the input is an image of.
pub fn migrate_is_served()
    ensures { ServesImage (codes "migrate") (λ notation. EndsTold migrate_due) }
{}

/// Words that ask for `query` have the replies written of the plain map of the image's listing to the calls of the
/// script behind it, and the number of buckets that the split policy gives; or the run ends at the image's fault, or
/// else at the script's first one, with nothing written.
pub fn query_is_served()
    ensures { ServesImage (codes "query") (λ notation. EndsTold (query_due notation)) }
{}

/// Words that ask for `apply` have the image written, in the version that they give, of the file that the calls of the
/// script behind the input's image leave; or the reason why it has none.
pub fn apply_is_served()
    ensures { ServesApply }
{}

/// Words that ask for `get` have a line written for each key that they give, in turn: what a look-up in the bytes of
/// the image finds; and the status says whether each key was there. Or the run ends at the first fault that opening the
/// image or a look-up meets, with nothing written; or at the first word that is no key, with nothing read.
pub fn get_is_served()
    ensures { ServesGet }
{}

/// Words that ask for `serve` have each line of the input answered by one plain map, in its order: all of them, where
/// the run is done; where a read fails, just those that had come by then; and a beginning of such answers where a write
/// fails.
pub fn serve_is_served()
    ensures { ServesClient }
{}

/// Words that ask for `serve --image` have each line behind the image that the input begins with answered so by the
/// plain map of the image's listing.
pub fn serve_goes_on_from_an_image()
    ensures { ServesFrom }
{}

/// Words whose `--max` is less than their `--initial` are refused, with nothing read and nothing written.
pub fn settings_out_of_order_are_refused()
    ensures { RefusesBelow }
{}

/// Words of `serve --image` that give an option of the configuration are refused, with nothing read and nothing
/// written.
pub fn settings_beside_an_image_are_refused()
    ensures { RefusesBeside }
{}

/// Words of `drive` that ask for snapshots of more shards than one are refused, with nothing read and nothing written.
pub fn snapshots_of_shards_are_refused()
    ensures { RefusesSnapshots }
{}

/// Words that clap doesn't accept are refused, or ask for help or the version; nothing is read.
pub fn other_words_are_turned_away()
    ensures { TurnsAway }
{}
