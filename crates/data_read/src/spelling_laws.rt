//! Laws over the definitions alone. Each is the contract of a function that does nothing.

ghost use Rattle.std.specs.Prelude.{List, Some, length, ◌<◌, ◌^◌, ◌≡◌, ◌≤◌};
ghost use Rattle.data_meaning.specs.Database.{Database, IsDatabase};
ghost use Rattle.data_judge.specs.declared.limits.Limits.{Limits};
ghost use Rattle.data_judge.specs.Limits.{excess};
ghost use Rattle.data_read.specs.Reading.{IsRead, IsRefusedAs};
ghost use Rattle.data_read.specs.declared.read_err.ReadErr.{ReadErr};
ghost use Rattle.data_read.specs.Printable.{IsPrintable};
ghost use Rattle.data_read.specs.Spelled.{AreTableLitsOf};
ghost use Rattle.data_read.specs.Words.{HasWords};
ghost use Rattle.data_print.specs.Texts.{database_text};
ghost use Rattle.data_tree.specs.declared.tables.TableLit.{TableLit};
ghost use Rattle.data_tree.specs.Texts.{IsDataText};
ghost use Rattle.data_records.specs.declared.data_err.Limit.{Limit};
ghost use Rattle.data_records.specs.Room.{most_records, most_weight, record_count, total_weight};
ghost use Rattle.type_schema.specs.Proper.{IsProper};
ghost use Rattle.type_schema.specs.Schema.{Schema};

/// The printed text of a database is a text (UTF-8, with tokens) that spells the tables of the
/// database, whatever their offsets. No limit of texts stands against it.
pub fn printed_databases_are_spelled()
    ensures { (s : Schema) (d : Database) → IsProper s → HasWords s → IsDatabase s d →
        (ts : List TableLit) × IsDataText (database_text s d) ts × AreTableLitsOf s d ts }
{}

/// The printed text of a database is read as that database, with the limits where it keeps within
/// them. Where it does not, it is refused for that alone.
pub fn printed_databases_are_read()
    ensures waived { (s : Schema) (d : Database) → IsPrintable s d →
        IsRead Limits.Waived s (database_text s d) d }
    ensures asked { (s : Schema) (d : Database) → IsPrintable s d →
        record_count d ≤ most_records → total_weight d ≤ most_weight →
        IsRead Limits.Asked s (database_text s d) d }
    ensures full { (s : Schema) (d : Database) (what : Limit) → IsPrintable s d →
        excess Limits.Asked d ≡ Some what →
        IsRefusedAs Limits.Asked s (database_text s d) (ReadErr.Full what) }
{}

/// A database within the limits has a text of fewer than 2^32 bytes, as `read_database` of
/// data_read asks, whose schema has at most a million models.
pub fn printed_databases_are_short()
    ensures { (s : Schema) (d : Database) → IsPrintable s d → length s.models ≤ 1000000 →
        record_count d ≤ most_records → total_weight d ≤ most_weight →
        length (database_text s d) < 2 ^ 32 }
{}
