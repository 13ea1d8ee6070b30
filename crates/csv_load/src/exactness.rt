//! What holds of all texts.

ghost use Rattle.csv_load.specs.Laws.{HasAnswer, HasOneFault, HeadsHaveTexts, IsFaultless, StandsOnce};

/// The faults that `load` tells are exact: no text has two of them, and a text that stands for a table has none, unless memory
/// runs out. So `load` answers a fault where the text has it, or `NoMemory`.
pub fn faults_are_exact()
    ensures one { HasOneFault }
    ensures none { IsFaultless }
{}

/// In each table that a text stands for, every value of every column can be shown: dates lie in the years 0000 to 9999, and
/// names have at most 255 bytes.
pub fn heads_have_texts()
    ensures { HeadsHaveTexts }
{}

/// A text stands for one table at most.
pub fn tables_are_one()
    ensures { StandsOnce }
{}

/// Under each schema each text stands for a table or has a fault, so `load` has an answer for each (want of memory left
/// aside).
pub fn texts_have_answers()
    ensures { HasAnswer }
{}
