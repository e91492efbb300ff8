ghost use Rattle.record_text.specs.Laws.{RecordsReadBack};

/// A law: the text of records, read as a table is read, gives them again (a record of no field as one empty
/// field), unless its first field begins with a byte order mark, which the reader drops.
pub fn records_read_back()
    ensures { RecordsReadBack }
{}
