//! The laws that typed queries mean what their trees mean. Each stands on a function that does nothing.

ghost use Rattle.sql_meaning.specs.Laws.{AnswersMeanTheirTrees, ArgumentsMeanTheirTrees, AveragesMeanTheirTrees, ConditionsMeanTheirTrees};
ghost use Rattle.sql_meaning.specs.Laws.{AttainedEndsMeanTheirTrees, NamedOnceAttain};
ghost use Rattle.sql_meaning.specs.Laws.{DecimalsAreOrdered, IntervalsMeanTheirTrees, IntervalsOfAveragesMeanTheirTrees};
ghost use Rattle.sql_meaning.specs.Laws.{KeysMeanTheirTrees, OrdersMeanTheirTrees};
ghost use Rattle.sql_meaning.specs.Laws.{ResultsMeanTheirTrees, TablesHaveValues, TextsAreOfValues};

/// Decimals are in one total order, however many digits they have behind the point.
pub fn decimals_are_ordered()
    ensures { DecimalsAreOrdered }
{}

/// The text that a report has for a number of a column is that of its value.
pub fn texts_are_of_values()
    ensures { TextsAreOfValues }
{}

/// Each number of a table stands for a value, where columns of texts without names have nulls alone.
pub fn tables_have_values()
    ensures { TablesHaveValues }
{}

/// At each row of a table the typed condition has the truth that the condition as it is written has over the values of the row.
pub fn conditions_mean_their_trees()
    ensures { ConditionsMeanTheirTrees }
{}

/// At each row the typed argument of an item is the value of the expression that is written.
pub fn arguments_mean_their_trees()
    ensures { ArgumentsMeanTheirTrees }
{}

/// The answer of a typed item for a group is the value that the item as it is written has over the rows of the group.
pub fn answers_mean_their_trees()
    ensures { AnswersMeanTheirTrees }
{}

/// The average of a typed item is the total of those values divided by how many they are.
pub fn averages_mean_their_trees()
    ensures { AveragesMeanTheirTrees }
{}

/// The rows that are among the first of a typed query are those that the query as it is written asks for.
pub fn orders_mean_their_trees()
    ensures { OrdersMeanTheirTrees }
{}

/// The keys of a typed query's result are those of the rows at which the condition as it is written is true.
pub fn results_mean_their_trees()
    ensures { ResultsMeanTheirTrees }
{}

/// The parts of a key are the values that its row has in the columns of GROUP BY.
pub fn keys_mean_their_trees()
    ensures { KeysMeanTheirTrees }
{}

/// An interval that admits the answer of a typed item contains the value of the item as it is written.
pub fn intervals_mean_their_trees()
    ensures { IntervalsMeanTheirTrees }
{}

/// And so does one that admits the average of a typed item.
pub fn intervals_of_averages_mean_their_trees()
    ensures { IntervalsOfAveragesMeanTheirTrees }
{}

/// Where a query as it is written attains the ends of an item, or whether keys are in the result, what is typed does.
pub fn attained_ends_mean_their_trees()
    ensures { AttainedEndsMeanTheirTrees }
{}

/// What names no column twice attains its ends.
pub fn named_once_attain()
    ensures { NamedOnceAttain }
{}
