//! Laws of the rows of words. No code runs here.

ghost use Rattle.mon_types.specs.RowLaws.{RowsReadBack, RowsAreWide, ReadersAreTotal, WithinKeepsRecords};

/// Each record that is in range comes back from its row.
pub fn rows_read_back()
    ensures { RowsReadBack }
{}

/// The rows of records that are in range are as long as their objects' rows.
pub fn rows_are_wide()
    ensures { RowsAreWide }
{}

/// A reader gives a record that is in range, whatever the words are.
pub fn readers_are_total()
    ensures { ReadersAreTotal }
{}

/// A record that names nothing past the machine's end is read as it is.
pub fn within_keeps_records()
    ensures { WithinKeepsRecords }
{}
