//! What holds of the typing of all trees.

ghost use Rattle.sql_typing.specs.Laws.{HasOneFault, HasTyping, IsFaultless, IsTypedOnce, IsTypedValid};

/// The answers of `type_query` are exact: no tree has two faults on a head, and one that is typed has none, want of memory
/// left aside. And it is typed as one query only.
pub fn typing_is_exact()
    ensures one { HasOneFault }
    ensures none { IsFaultless }
    ensures once { IsTypedOnce }
{}

/// `type_query` has an answer for each tree on each head, want of memory left aside: a typed query, or a fault.
pub fn trees_have_typings()
    ensures { HasTyping }
{}

/// The query as which a tree is typed on a head can be answered on tables with that head.
pub fn typed_queries_are_valid()
    ensures { IsTypedValid }
{}
