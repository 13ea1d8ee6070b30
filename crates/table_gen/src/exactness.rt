//! What holds of the tables of all seeds.

ghost use Rattle.table_gen.specs.Laws.{HaveTables, HeadsHaveTexts, StandsOnce};

/// Of so many rows a seed has one table at most.
pub fn tables_are_one()
    ensures { StandsOnce }
{}

/// Of so many rows, up to `MOST_ROWS`, each seed has a table.
pub fn seeds_have_tables()
    ensures { HaveTables }
{}

/// In each table of a seed, every value of every column can be shown.
pub fn heads_have_texts()
    ensures { HeadsHaveTexts }
{}
