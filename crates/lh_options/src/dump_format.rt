//! The forms of the records that `dump` writes.
ghost use Rattle.std.specs.Prelude.{◌≡◌};
ghost use Rattle.lh_options.specs.Options.{format_named};

/// What `dump` writes the records as.
#[derive(Clone, Copy, Debug, PartialEq, Eq)]
pub enum DumpFormat {
    /// A line for each record, with its bucket, its key and its value, as docs/FORMATS.md says.
    Lines,
    /// What `cdb -c` reads.
    Cdb,
    /// What `db_load` and `mdb_load` read.
    Db,
}

impl DumpFormat {
    /// The format that a word names, where it names one.
    pub(crate) fn named(word: &str) -> Option<DumpFormat>
        ensures { result ≡ format_named word.now }
    {
        match word {
            "lines" => Some(DumpFormat::Lines),
            "cdb" => Some(DumpFormat::Cdb),
            "db" => Some(DumpFormat::Db),
            _ => None,
        }
    }
}
