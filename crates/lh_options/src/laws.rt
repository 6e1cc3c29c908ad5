//! What the options give, at words that are written out.
ghost use Rattle.std.specs.Prelude.{[], ◌∷◌, None, Some, codes, false, true};
ghost use Rattle.lh_options.specs.OptionLaws.{
  GivesApply,
  GivesBuild,
  GivesCommands,
  GivesDrive,
  GivesDump,
  GivesFiles,
  GivesGet,
  GivesLoad,
  GivesReplay,
  GivesServe,
  GivesServeImage,
  GivesSteps,
  GivesText,
  apply_alone,
  apply_of_text,
  apply_with_setting,
  build_given,
  build_of_text,
  check_alone,
  check_of_text,
  check_with_format,
  check_with_option,
  check_with_output,
  commands_of_text,
  commands_with_image,
  drive_alone,
  drive_given,
  drive_of_text,
  draw_alone,
  dump_alone,
  dump_as_cdb,
  dump_as_csv,
  dump_as_db,
  dump_of_text,
  file_given,
  files_given,
  first_image_applied,
  first_image_given,
  get_given,
  get_of_text,
  get_with_setting,
  get_without_key,
  help_asked,
  image_file_served,
  image_served,
  image_served_twice,
  initial_twice,
  image_with_plus,
  initial_zero,
  load_alone,
  load_files_given,
  load_given,
  load_max_below_initial,
  load_of_text,
  max_below_initial,
  max_beside_image,
  max_given,
  max_over_limit,
  max_with_plus,
  migrate_alone,
  no_options,
  no_subcommand,
  output_given,
  program_version_asked,
  query_alone,
  query_of_text,
  replay_given,
  replay_of_text,
  Refuses,
  RefusesMax,
  serve_given,
  serve_of_text,
  shards_given,
  shards_over_limit,
  shards_with_plus,
  shards_zero,
  snapshots_given,
  snapshots_of_two_shards,
  snapshots_over_limit,
  snapshots_with_minus,
  steps_given,
  steps_of_text,
  stream_given,
  text_as_a_key,
  text_twice,
  text_with_value,
  third_image,
  threads_over_limit,
  threads_zero,
  two_files,
  unknown_option,
};
ghost use Rattle.lh_options.specs.Options.{Asks, AsksForHelp};
ghost use Rattle.lh_options.specs.declared.dump_format.DumpFormat.TheVariants.{Cdb, Db, Lines};
ghost use Rattle.lh_options.specs.declared.options.ImageVersion.TheVariants.{First, Second};

/// The words give the options the numbers that stand in them, and an option that is left out its
/// default. A number out of its range or with a sign, an option given twice and an unknown one are refused, and so is
/// each setting of a subcommand that reads an image. `load` has the options of `build`. `dump` has one format of three,
/// which is lines where it is left out. `serve` says whether its input begins with an image, and whether a setting
/// stands beside that. `get` has a file and the words of keys, of which there is one at least. A file is named by an
/// operand or by `-o`; `-` names none, and there is no second one. Nine subcommands have `--text`, once and without a
/// value.
pub fn words_give_options()
    ensures left_out { GivesCommands no_options (record { initial = 1; capacity = 14; load = 100; max = 65536 }) }
    ensures given { GivesCommands max_given (record { initial = 3; capacity = 14; load = 100; max = 7 }) }
    ensures below { GivesCommands max_below_initial (record { initial = 8; capacity = 14; load = 100; max = 7 }) }
    ensures steps { GivesSteps steps_given (record { initial = 1; capacity = 2; load = 200; max = 65536 }) }
    ensures replay { GivesReplay replay_given (record { initial = 9; capacity = 14; load = 100; max = 9 }) }
    ensures build { GivesBuild build_given (record { initial = 1; capacity = 14; load = 100; max = 1 }) Second }
    ensures first { GivesBuild first_image_given
        (record { initial = 1; capacity = 14; load = 100; max = 65536 }) First }
    ensures load { GivesLoad load_alone (record { initial = 1; capacity = 14; load = 100; max = 65536 }) Second }
    ensures load_settings { GivesLoad load_given (record { initial = 1; capacity = 2; load = 100; max = 9 }) First }
    ensures load_below { RefusesMax load_max_below_initial }
    ensures migrate { Asks migrate_alone (codes "migrate") }
    ensures drive { GivesDrive drive_given (record { initial = 3; capacity = 14; load = 100; max = 65536 }) 64 1 0 }
    ensures drive_left_out { GivesDrive drive_alone
        (record { initial = 1; capacity = 14; load = 100; max = 65536 }) 4 1 0 }
    ensures shards { GivesDrive shards_given
        (record { initial = 1; capacity = 14; load = 100; max = 65536 }) 2 64 0 }
    ensures snapshots { GivesDrive snapshots_given
        (record { initial = 1; capacity = 14; load = 100; max = 65536 }) 4 1 1000 }
    ensures of_shards { GivesDrive snapshots_of_two_shards
        (record { initial = 1; capacity = 14; load = 100; max = 65536 }) 4 2 1 }
    ensures check { Asks check_alone (codes "check") }
    ensures dump { GivesDump dump_alone Lines }
    ensures dump_cdb { GivesDump dump_as_cdb Cdb }
    ensures dump_db { GivesDump dump_as_db Db }
    ensures no_csv { Refuses dump_as_csv }
    ensures no_format { Refuses check_with_format }
    ensures draw { Asks draw_alone (codes "draw") }
    ensures query { Asks query_alone (codes "query") }
    ensures apply { GivesApply apply_alone Second }
    ensures get { GivesGet get_given (Some (codes "users.lhf")) (codes "616461" ∷ codes "626f62" ∷ []) }
    ensures without_key { Refuses get_without_key }
    ensures get_without_settings { Refuses get_with_setting }
    ensures serve { GivesServe serve_given (record { initial = 2; capacity = 1; load = 100; max = 65536 }) }
    ensures serve_image { GivesServeImage image_served false }
    ensures beside_image { GivesServeImage max_beside_image true }
    ensures first_applied { GivesApply first_image_applied First }
    ensures without_options { Refuses check_with_option }
    ensures without_settings { Refuses apply_with_setting }
    ensures none { Refuses no_subcommand }
    ensures too_small { Refuses initial_zero }
    ensures no_thread { Refuses threads_zero }
    ensures too_many_threads { Refuses threads_over_limit }
    ensures no_shard { Refuses shards_zero }
    ensures too_many_shards { Refuses shards_over_limit }
    ensures too_many_snapshots { Refuses snapshots_over_limit }
    ensures too_great { Refuses max_over_limit }
    ensures no_third { Refuses third_image }
    ensures no_plus { Refuses max_with_plus }
    ensures no_plus_of_shards { Refuses shards_with_plus }
    ensures no_minus { Refuses snapshots_with_minus }
    ensures no_plus_of_image { Refuses image_with_plus }
    ensures twice { Refuses initial_twice }
    ensures image_twice { Refuses image_served_twice }
    ensures no_image { Refuses commands_with_image }
    ensures unknown { Refuses unknown_option }
    ensures file { GivesFiles file_given (Some (codes "users.lhf")) None }
    ensures stream { GivesFiles stream_given None None }
    ensures files { GivesFiles files_given (Some (codes "old.lhf")) (Some (codes "new.lhf")) }
    ensures load_files { GivesFiles load_files_given (Some (codes "in.cdb")) (Some (codes "out.lhf")) }
    ensures output { GivesFiles output_given None (Some (codes "new.lhf")) }
    ensures image_file { GivesFiles image_file_served (Some (codes "users.lhf")) None }
    ensures image_and_file { GivesServeImage image_file_served false }
    ensures second_file { Refuses two_files }
    ensures no_output { Refuses check_with_output }
    ensures commands_text { GivesText commands_of_text true }
    ensures steps_text { GivesText steps_of_text true }
    ensures drive_text { GivesText drive_of_text true }
    ensures build_text { GivesText build_of_text true }
    ensures query_text { GivesText query_of_text true }
    ensures apply_text { GivesText apply_of_text true }
    ensures serve_text { GivesText serve_of_text true }
    ensures dump_text { GivesText dump_of_text true }
    ensures get_text { GivesText get_of_text true }
    ensures text_left_out { GivesText no_options false }
    ensures text_is_a_key { GivesText text_as_a_key false }
    ensures no_text_of_replay { Refuses replay_of_text }
    ensures no_text_of_load { Refuses load_of_text }
    ensures no_text_of_check { Refuses check_of_text }
    ensures no_second_text { Refuses text_twice }
    ensures no_value_of_text { Refuses text_with_value }
    ensures help { AsksForHelp help_asked }
    ensures version { AsksForHelp program_version_asked }
{}
