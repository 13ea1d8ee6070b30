//! Printing a query.

ghost use Rattle.std.specs.Prelude.{◌≡◌, ◌++◌, [], map, OnOk, IfOk};
ghost use Rattle.std.specs.Prelude.{IsUtf8, string_bytes, ℕ, List, length, ◌≤◌};
ghost use Rattle.std.specs.Str.Lossy.{utf8_lossy};
ghost use Rattle.sql_tokens.specs.Spelling.{doubled, is_plain_name};
ghost use Rattle.sql_text.specs.Tree.{Query, name_of, operand_of, expr_of, item_of, head_of, pred_of, pred_option, ending_of, query_of};
ghost use Rattle.sql_print.specs.Bare.{bare};
ghost use Rattle.sql_text.specs.Answer.{IsText};
ghost use Rattle.sql_print.specs.declared.printing.Side.TheVariants.{Right};
ghost use Rattle.sql_print.specs.Printed.{name_text, string_text, sign_text, digits_of, pointed, num_text, operand_text};
ghost use Rattle.sql_print.specs.Printed.{listed_text, opening, closing, wraps_loose, wraps_tight, expr_text, call_text, item_text};
ghost use Rattle.sql_print.specs.Printed.{head_text, cmp_text, between_text, members_text};
ghost use Rattle.sql_print.specs.Printed.{null_text, negated_text, pred_text, filter_text, direction_text, ending_text, printed};

use itoa::Buffer;
use sql_text::{
    CallKind, Comparison, Ending, ExprTree, ItemTree, Named, Num, PredTree, Select, Tree, Value,
};
use std::alloc::{AllocError, Global};

/// Where an operand stands: on the left of a sum or OR, beside a sum or OR or on the left of a product or AND, or beside these.
#[derive(Clone, Copy, Debug, PartialEq, Eq)]
pub enum Side {
    Left,
    Middle,
    Right,
}

impl Side {
    fn wraps_loose(self) -> bool
        ensures { result ≡ wraps_loose self }
    {
        match self {
            Side::Left => false,
            Side::Middle | Side::Right => true,
        }
    }

    fn wraps_tight(self) -> bool
        ensures { result ≡ wraps_tight self }
    {
        match self {
            Side::Left | Side::Middle => false,
            Side::Right => true,
        }
    }
}

fn put(out: &mut Vec<u8>, bytes: &[u8]) -> Result<(), AllocError>
    ensures { OnOk result (out.new.items ≡ out.old.items ++ bytes.now) }
{
    out.extend_from_slice(bytes)?;
    Ok(())
}

fn put_opening(out: &mut Vec<u8>, wraps: bool) -> Result<(), AllocError>
    ensures { OnOk result (out.new.items ≡ out.old.items ++ opening wraps) }
{
    if wraps { put(out, b"(") } else { put(out, b"") }
}

fn put_closing(out: &mut Vec<u8>, wraps: bool) -> Result<(), AllocError>
    ensures { OnOk result (out.new.items ≡ out.old.items ++ closing wraps) }
{
    if wraps { put(out, b")") } else { put(out, b"") }
}

fn put_name(out: &mut Vec<u8>, name: &[u8]) -> Result<(), AllocError>
    ensures { OnOk result (out.new.items ≡ out.old.items ++ name_text name.now) }
{
    if sql_tokens::is_plain_name(name) {
        return put(out, name);
    }
    put(out, b"\"")?;
    put(out, name)?;
    put(out, b"\"")
}

fn put_doubled(out: &mut Vec<u8>, text: &[u8]) -> Result<(), AllocError>
    ensures { OnOk result (out.new.items ≡ out.old.items ++ doubled text.now) }
{
    match text {
        [] => put(out, b""),
        [b, rest @ ..] => {
            if *b == b'\'' {
                put(out, b"''")?;
                return put_doubled(out, rest);
            }
            out.push(*b)?;
            put_doubled(out, rest)
        }
    }
}

fn put_string(out: &mut Vec<u8>, text: &[u8]) -> Result<(), AllocError>
    ensures { OnOk result (out.new.items ≡ out.old.items ++ string_text text.now) }
{
    put(out, b"'")?;
    put_doubled(out, text)?;
    put(out, b"'")
}

/// The digits of a number, more of them than stand behind its point.
#[tactic(auto, unfolding(crate::specs::Printed::digits_of))]
fn digits_of(alloc: Global, units: u64, scale: u16) -> Result<Vec<u8>, AllocError>
    ensures { IfOk result (λ v. v.items ≡ digits_of units scale) }
{
    let mut buffer = Buffer::new();
    let digits = buffer.format(units).as_bytes();
    let zeros = (usize::from(scale) + 1).saturating_sub(digits.len());
    let mut all = vec![in alloc; b'0'; zeros]?;
    all.extend_from_slice(digits)?;
    Ok(all)
}

/// Digits, of which the last ones stand behind a point.
#[tactic(auto, unfolding(crate::specs::Printed::pointed))]
fn put_pointed(out: &mut Vec<u8>, digits: &[u8], scale: u16) -> Result<(), AllocError>
    ensures { OnOk result (out.new.items ≡ out.old.items ++ pointed digits.now scale) }
{
    if scale == 0 {
        return put(out, digits);
    }
    let whole = digits.len().saturating_sub(usize::from(scale));
    put(out, &digits[..whole])?;
    put(out, b".")?;
    put(out, &digits[whole..])
}

fn put_sign(out: &mut Vec<u8>, units: i64) -> Result<(), AllocError>
    ensures { OnOk result (out.new.items ≡ out.old.items ++ sign_text units) }
{
    if units < 0 {
        put(out, b"-")
    } else {
        put(out, b"")
    }
}

fn put_number(alloc: Global, out: &mut Vec<u8>, number: &Num) -> Result<(), AllocError>
    ensures { OnOk result (out.new.items ≡ out.old.items ++ num_text number.now) }
{
    put_sign(out, number.units)?;
    let digits = digits_of(alloc, number.units.unsigned_abs(), number.scale)?;
    put_pointed(out, digits.as_slice(), number.scale)
}

fn put_value(alloc: Global, out: &mut Vec<u8>, value: &Value) -> Result<(), AllocError>
    ensures { OnOk result (out.new.items ≡ out.old.items ++ operand_text (operand_of value.now)) }
{
    match value {
        Value::Number(number) => put_number(alloc, out, number),
        Value::Str { text, .. } => put_string(out, text.as_slice()),
        Value::Day { text, .. } => {
            put(out, b"DATE ")?;
            put_string(out, text.as_slice())
        }
    }
}

fn put_expr(alloc: Global, out: &mut Vec<u8>, side: Side, expr: &ExprTree) -> Result<(), AllocError>
    ensures { OnOk result (out.new.items ≡ out.old.items ++ expr_text side (expr_of expr.now)) }
{
    match expr {
        ExprTree::Column(column) => put_name(out, column.name.as_slice()),
        ExprTree::Number(number) => put_number(alloc, out, number),
        ExprTree::Add(left, right) => {
            put_opening(out, side.wraps_loose())?;
            put_expr(alloc, out, Side::Left, left)?;
            put(out, b" + ")?;
            put_expr(alloc, out, Side::Middle, right)?;
            put_closing(out, side.wraps_loose())
        }
        ExprTree::Sub(left, right) => {
            put_opening(out, side.wraps_loose())?;
            put_expr(alloc, out, Side::Left, left)?;
            put(out, b" - ")?;
            put_expr(alloc, out, Side::Middle, right)?;
            put_closing(out, side.wraps_loose())
        }
        ExprTree::Mul { left, right, .. } => {
            put_opening(out, side.wraps_tight())?;
            put_expr(alloc, out, Side::Middle, left)?;
            put(out, b" * ")?;
            put_expr(alloc, out, Side::Right, right)?;
            put_closing(out, side.wraps_tight())
        }
    }
}

fn put_call(out: &mut Vec<u8>, kind: CallKind) -> Result<(), AllocError>
    ensures { OnOk result (out.new.items ≡ out.old.items ++ call_text kind) }
{
    match kind {
        CallKind::Count => put(out, b"COUNT("),
        CallKind::Sum => put(out, b"SUM("),
        CallKind::Avg => put(out, b"AVG("),
        CallKind::Min => put(out, b"MIN("),
        CallKind::Max => put(out, b"MAX("),
    }
}

fn put_item(alloc: Global, out: &mut Vec<u8>, item: &ItemTree) -> Result<(), AllocError>
    ensures { OnOk result (out.new.items ≡ out.old.items ++ item_text (item_of item.now)) }
{
    match item {
        ItemTree::Column(column) => put_name(out, column.name.as_slice()),
        ItemTree::Count => put(out, b"COUNT(*)"),
        ItemTree::Call { kind, arg } => {
            put_call(out, *kind)?;
            put_expr(alloc, out, Side::Left, arg)?;
            put(out, b")")
        }
    }
}

/// Each of a list, with this before the first and a comma before the next ones.
fn put_items(
    alloc: Global,
    out: &mut Vec<u8>,
    before: &[u8],
    items: &[ItemTree],
) -> Result<(), AllocError>
    ensures { OnOk result (out.new.items ≡ out.old.items ++ listed_text item_text before.now (map item_of items.now)) }
{
    match items {
        [] => put(out, b""),
        [first, rest @ ..] => {
            put(out, before)?;
            put_item(alloc, out, first)?;
            put_items(alloc, out, b", ", rest)
        }
    }
}

/// Each of a list, with this before the first and a comma before the next ones.
fn put_values(
    alloc: Global,
    out: &mut Vec<u8>,
    before: &[u8],
    items: &[Value],
) -> Result<(), AllocError>
    ensures { OnOk result (out.new.items ≡ out.old.items ++ listed_text operand_text before.now (map operand_of items.now)) }
{
    match items {
        [] => put(out, b""),
        [first, rest @ ..] => {
            put(out, before)?;
            put_value(alloc, out, first)?;
            put_values(alloc, out, b", ", rest)
        }
    }
}

/// Each of a list, with this before the first and a comma before the next ones.
fn put_names(out: &mut Vec<u8>, before: &[u8], items: &[Named]) -> Result<(), AllocError>
    ensures { OnOk result (out.new.items ≡ out.old.items ++ listed_text (λ n. name_text n.name) before.now (map name_of items.now)) }
{
    match items {
        [] => put(out, b""),
        [first, rest @ ..] => {
            put(out, before)?;
            put_name(out, first.name.as_slice())?;
            put_names(out, b", ", rest)
        }
    }
}

fn put_cmp(out: &mut Vec<u8>, op: Comparison) -> Result<(), AllocError>
    ensures { OnOk result (out.new.items ≡ out.old.items ++ cmp_text op) }
{
    match op {
        Comparison::Eq => put(out, b" = "),
        Comparison::Ne => put(out, b" <> "),
        Comparison::Lt => put(out, b" < "),
        Comparison::Le => put(out, b" <= "),
        Comparison::Gt => put(out, b" > "),
        Comparison::Ge => put(out, b" >= "),
    }
}

fn put_between(
    alloc: Global,
    out: &mut Vec<u8>,
    negated: bool,
    column: &Named,
    low: &Value,
    high: &Value,
) -> Result<(), AllocError>
    ensures { OnOk result
        (out.new.items ≡ out.old.items ++ between_text negated (name_of column.now) (operand_of low.now) (operand_of high.now)) }
{
    put_name(out, column.name.as_slice())?;
    let word: &[u8] = if negated {
        b" NOT BETWEEN "
    } else {
        b" BETWEEN "
    };
    put(out, word)?;
    put_value(alloc, out, low)?;
    put(out, b" AND ")?;
    put_value(alloc, out, high)
}

fn put_members(
    alloc: Global,
    out: &mut Vec<u8>,
    negated: bool,
    column: &Named,
    values: &[Value],
) -> Result<(), AllocError>
    ensures { OnOk result (out.new.items ≡ out.old.items ++ members_text negated (name_of column.now) (map operand_of values.now)) }
{
    put_name(out, column.name.as_slice())?;
    let word: &[u8] = if negated { b" NOT IN (" } else { b" IN (" };
    put(out, word)?;
    put_values(alloc, out, b"", values)?;
    put(out, b")")
}

fn put_null(out: &mut Vec<u8>, negated: bool, column: &Named) -> Result<(), AllocError>
    ensures { OnOk result (out.new.items ≡ out.old.items ++ null_text negated (name_of column.now)) }
{
    put_name(out, column.name.as_slice())?;
    let word: &[u8] = if negated {
        b" IS NOT NULL"
    } else {
        b" IS NULL"
    };
    put(out, word)
}

fn put_compare(
    alloc: Global,
    out: &mut Vec<u8>,
    column: &Named,
    op: Comparison,
    value: &Value,
) -> Result<(), AllocError>
    ensures { OnOk result (out.new.items ≡ out.old.items
        ++ (name_text (name_of column.now).name ++ (cmp_text op ++ operand_text (operand_of value.now)))) }
{
    put_name(out, column.name.as_slice())?;
    put_cmp(out, op)?;
    put_value(alloc, out, value)
}

fn put_columns(
    out: &mut Vec<u8>,
    left: &Named,
    op: Comparison,
    right: &Named,
) -> Result<(), AllocError>
    ensures { OnOk result (out.new.items ≡ out.old.items
        ++ (name_text (name_of left.now).name ++ (cmp_text op ++ name_text (name_of right.now).name))) }
{
    put_name(out, left.name.as_slice())?;
    put_cmp(out, op)?;
    put_name(out, right.name.as_slice())
}

/// The condition that NOT stands before.
#[cycle(put_pred)]
fn put_negated(alloc: Global, out: &mut Vec<u8>, pred: &PredTree) -> Result<(), AllocError>
    ensures { OnOk result (out.new.items ≡ out.old.items ++ negated_text (pred_of pred.now) (pred_text Right (pred_of pred.now))) }
{
    match pred {
        PredTree::Between { column, low, high } => put_between(alloc, out, true, column, low, high),
        PredTree::OneOf { column, values } => {
            put_members(alloc, out, true, column, values.as_slice())
        }
        PredTree::IsNull { column } => put_null(out, true, column),
        PredTree::Compare { .. }
        | PredTree::Columns { .. }
        | PredTree::Not(_)
        | PredTree::And(_, _)
        | PredTree::Or(_, _) => {
            put(out, b"NOT ")?;
            put_pred(alloc, out, Side::Right, pred)
        }
    }
}

#[cycle(put_pred)]
fn put_pred(alloc: Global, out: &mut Vec<u8>, side: Side, pred: &PredTree) -> Result<(), AllocError>
    ensures { OnOk result (out.new.items ≡ out.old.items ++ pred_text side (pred_of pred.now)) }
{
    match pred {
        PredTree::Compare { column, op, value } => put_compare(alloc, out, column, *op, value),
        PredTree::Columns { left, op, right } => put_columns(out, left, *op, right),
        PredTree::Between { column, low, high } => {
            put_between(alloc, out, false, column, low, high)
        }
        PredTree::OneOf { column, values } => {
            put_members(alloc, out, false, column, values.as_slice())
        }
        PredTree::IsNull { column } => put_null(out, false, column),
        PredTree::Not(inner) => put_negated(alloc, out, inner),
        PredTree::And(left, right) => {
            put_opening(out, side.wraps_tight())?;
            put_pred(alloc, out, Side::Middle, left)?;
            put(out, b" AND ")?;
            put_pred(alloc, out, Side::Right, right)?;
            put_closing(out, side.wraps_tight())
        }
        PredTree::Or(left, right) => {
            put_opening(out, side.wraps_loose())?;
            put_pred(alloc, out, Side::Left, left)?;
            put(out, b" OR ")?;
            put_pred(alloc, out, Side::Middle, right)?;
            put_closing(out, side.wraps_loose())
        }
    }
}

fn put_filter(alloc: Global, out: &mut Vec<u8>, filter: &Option<PredTree>) -> Result<(), AllocError>
    ensures { OnOk result (out.new.items ≡ out.old.items ++ filter_text (pred_option filter.now)) }
{
    match filter {
        None => put(out, b""),
        Some(pred) => {
            put(out, b" WHERE ")?;
            put_pred(alloc, out, Side::Left, pred)
        }
    }
}

/// What stands between the key of an order and its limit.
fn put_direction(out: &mut Vec<u8>, down: bool) -> Result<(), AllocError>
    ensures { OnOk result (out.new.items ≡ out.old.items ++ direction_text down) }
{
    if down {
        put(out, b" DESC LIMIT ")
    } else {
        put(out, b" LIMIT ")
    }
}

fn put_ending(alloc: Global, out: &mut Vec<u8>, ending: &Ending) -> Result<(), AllocError>
    ensures { OnOk result (out.new.items ≡ out.old.items ++ ending_text (ending_of ending.now)) }
{
    match ending {
        Ending::Nothing => put(out, b""),
        Ending::Group(names) => {
            put(out, b" GROUP BY ")?;
            put_names(out, b"", names.as_slice())
        }
        Ending::Order { key, down, limit } => {
            put(out, b" ORDER BY ")?;
            put_name(out, key.name.as_slice())?;
            put_direction(out, *down)?;
            put_number(alloc, out, limit)
        }
    }
}

fn put_head(alloc: Global, out: &mut Vec<u8>, head: &Select) -> Result<(), AllocError>
    ensures { OnOk result (out.new.items ≡ out.old.items ++ head_text (head_of head.now)) }
{
    match head {
        Select::Star => put(out, b"*"),
        Select::Items(items) => put_items(alloc, out, b"", items.as_slice()),
    }
}

fn put_query(alloc: Global, out: &mut Vec<u8>, tree: &Tree) -> Result<(), AllocError>
    ensures { OnOk result (out.new.items ≡ out.old.items ++ printed (query_of tree.now)) }
{
    put(out, b"SELECT ")?;
    put_head(alloc, out, &tree.head)?;
    put(out, b" FROM ")?;
    put_name(out, tree.table.name.as_slice())?;
    put_filter(alloc, out, &tree.pred)?;
    put_ending(alloc, out, &tree.ending)
}

/// The printed form of a query. Bytes that are no text, which no tree of `parse` has, are replaced.
pub fn print(alloc: Global, tree: &Tree) -> Result<String, AllocError>
    ensures text { IfOk result (λ s. IsUtf8 (printed (query_of tree.now)) → string_bytes s ≡ printed (query_of tree.now)) }
    ensures always { IfOk result (λ s. string_bytes s ≡ utf8_lossy (printed (query_of tree.now))) }
{
    let mut out = Vec::new(alloc);
    put_query(alloc, &mut out, tree)?;
    String::from_utf8_lossy(alloc, out.as_slice())
}

/// The printed form of a query of a text is a text, and where it is short enough a query again, the same but for places.
pub fn reads_back()
    ensures again { (text : List ℕ) (q : Query) → IsText text q → length (printed q) ≤ 4096
        → (p : Query) × IsText (printed q) p × (bare p ≡ bare q) }
    ensures text { (text : List ℕ) (q : Query) → IsText text q → IsUtf8 text → IsUtf8 (printed q) }
{}
