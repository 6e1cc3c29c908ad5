//! Laws over the definitions that the contracts cite.
ghost use Rattle.lh_exchange.specs.ExchangeLaws.{CdbIsExactLaw, EscapeIsOneByteLaw, LineByLineLaw, LongestRecordLaw};
ghost use Rattle.lh_exchange.specs.ExchangeLaws.{OneByOneLaw, WrittenIsReadLaw};

/// What was written is read again, in either format.
pub fn written_is_read()
    ensures { WrittenIsReadLaw }
{}

/// A stream of cdb has its records written in one way alone.
pub fn cdb_is_exact()
    ensures { CdbIsExactLaw }
{}

/// A body is read record by record.
pub fn records_are_read_one_by_one()
    ensures { OneByOneLaw }
{}

/// A header is read line by line.
pub fn a_header_is_read_line_by_line()
    ensures { LineByLineLaw }
{}

/// An escape of a printed text, as `\2d`, is one byte.
pub fn an_escape_is_one_byte()
    ensures { EscapeIsOneByteLaw }
{}

/// How long a record may be as it is written.
pub fn records_have_room()
    ensures { LongestRecordLaw }
{}
