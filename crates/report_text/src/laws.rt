//! What holds of the lines of reports. Each law stands on a function that does nothing.

ghost use Rattle.report_text.specs.Extras.{ExtrasSayOne};
ghost use Rattle.report_text.specs.Groups.{GroupsSayOne};
ghost use Rattle.report_text.specs.Lines.{LinesSayOne};
ghost use Rattle.report_text.specs.Rows.{RowsSayOne, TopsSayOne};
ghost use Rattle.report_text.specs.TextAnswers.{TextItemsSayOne, TextsAreNoValues};

/// The line of an item says one answer of its kind.
pub fn lines_say_one()
    ensures { LinesSayOne }
{}

/// So does the line behind it.
pub fn extras_say_one()
    ensures { ExtrasSayOne }
{}

/// And the line of a group.
pub fn groups_say_one()
    ensures { GroupsSayOne }
{}

/// And the line of a row.
pub fn rows_say_one()
    ensures { RowsSayOne }
{}

/// And that of the numbers of rows.
pub fn tops_say_one()
    ensures { TopsSayOne }
{}

/// And that of an item that is a text.
pub fn text_items_say_one()
    ensures { TextItemsSayOne }
{}

/// What says where a text lies says nothing else: no number, no date, and not that there is no answer.
pub fn texts_are_no_values()
    ensures { TextsAreNoValues }
{}
