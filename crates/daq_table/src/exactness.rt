//! What holds of the texts of all schemas.

ghost use Rattle.daq_table.specs.SchemaLaws.{DeclaresOnce, HasMeaning, HasOneFault, IsFaultless};

/// The answers of `Schema::parse` are exact: no text has two faults, a text that declares columns has none, and it declares
/// one list of them and of the fields it skips, want of memory left aside.
pub fn schemas_are_exact()
    ensures one { HasOneFault }
    ensures none { IsFaultless }
    ensures same { DeclaresOnce }
{}

/// `Schema::parse` has an answer for each text, want of memory left aside: columns that it declares, or a fault of it.
pub fn schemas_have_meanings()
    ensures { HasMeaning }
{}
