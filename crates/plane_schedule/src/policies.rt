//! The policies: their words, and the column that each chooses next.

ghost use Rattle.std.specs.Prelude.{◌≡◌, ◌≤◌, ◌<◌, ◌*◌, ◌^◌, ℕ, slice_index, ◌↔◌, IsTrue, IfSome, IfNone};
ghost use Rattle.plane_schedule.specs.declared.policies.FixedPolicy.TheVariants.{Widest, InOrder, FilterFirst, Balanced};
ghost use Rattle.plane_schedule.specs.declared.policy.Policy.TheVariants.{By, Listed};
ghost use Rattle.plane_schedule.specs.declared.progress.Role.TheVariants.{Filter};
ghost use Rattle.plane_schedule.specs.Choices.{Chooses, HasChoice, HasRole, HasUnread, HasUnreadOf, IsOf, IsUnread, IsWidestOf, outlook_of};
ghost use Rattle.plane_schedule.specs.Choices.{HasLeftFor, IsLeastTakenOf, IsLessParted, IsReadFor, PartsRows, policy_named, policy_words};

use crate::progress::{Progress, Role};
use query_model::Columns;

/// A policy with a word of its own; it depends only on what is still open. A column is wider the more unread planes it has.
#[derive(Clone, Copy, Debug, PartialEq, Eq)]
pub enum FixedPolicy {
    /// The widest column, of equals the least number.
    Widest,
    /// The least number with an unread plane.
    InOrder,
    /// The columns of the condition while it is unknown at some row, next those of the groups, then all; of each the widest.
    FilterFirst,
    /// The columns of the condition while as large a share of the rows that may pass is unknown as of a value is unread; next those of the
    /// groups, then those that give values; of each the one of which the fewest planes are read.
    Balanced,
}

impl FixedPolicy {
    /// The policy that the word names.
    #[tactic(auto, unfolding(crate::specs::Choices::policy_named))]
    pub fn named(word: &str) -> Option<FixedPolicy>
        ensures { result ≡ policy_named word.now }
    {
        match word {
            "widest" => Some(FixedPolicy::Widest),
            "order" => Some(FixedPolicy::InOrder),
            "filter" => Some(FixedPolicy::FilterFirst),
            "balanced" => Some(FixedPolicy::Balanced),
            _ => None,
        }
    }

    /// The words of all, as a person is told them.
    #[tactic(auto, unfolding(crate::specs::Choices::policy_words))]
    pub fn words() -> &'static [u8]
        ensures { result.now ≡ policy_words }
    {
        b"widest (the default), order, filter, or balanced"
    }
}

/// The least column with an unread plane.
pub fn in_order(progress: &Progress) -> usize
    requires { HasUnread (outlook_of progress.now) }
    ensures { Chooses (By InOrder) (outlook_of progress.now) result }
{
    for column in 0..16usize {
        if column < progress.columns as usize && progress.unread[column] > 0 {
            return column;
        }
    }
    unreachable!()
}

// The unread planes of a column of this role, or of any where none is given; 0 where the column is another.
fn unread_in(role: Option<Role>, progress: &Progress, column: usize) -> u8
    requires { column < 16 }
    ensures counted { IsOf (outlook_of progress.now) role column → IsUnread (outlook_of progress.now) column →
        result ≡ slice_index progress.now.unread column }
    ensures only { 0 < result → IsOf (outlook_of progress.now) role column × IsUnread (outlook_of progress.now) column }
{
    let counts = match role {
        Some(role) => progress.role[column] == role,
        None => true,
    };
    if counts && column < progress.columns as usize {
        progress.unread[column]
    } else {
        0
    }
}

// The widest column of this role, or of all where none is given.
fn widest_of(role: Option<Role>, progress: &Progress) -> Option<usize>
    ensures some { IfSome result (λ column. IsWidestOf (IsOf (outlook_of progress.now) role) (outlook_of progress.now) column) }
    ensures none { IfNone result ((column : ℕ) → IsOf (outlook_of progress.now) role column → ¬ IsUnread (outlook_of progress.now) column) }
{
    let mut best = 0;
    let mut most = 0;
    for column in 0..16usize {
        let unread = unread_in(role, progress, column);
        if unread > most {
            best = column;
            most = unread;
        }
    }
    if most > 0 { Some(best) } else { None }
}

/// The column with the most unread planes, of equals the least.
pub fn widest(progress: &Progress) -> usize
    requires { HasUnread (outlook_of progress.now) }
    ensures { Chooses (By Widest) (outlook_of progress.now) result }
{
    match widest_of(None, progress) {
        Some(column) => column,
        None => unreachable!(),
    }
}

// The widest of the columns that the condition reads, while it is unknown at some row.
fn widest_of_filter(progress: &Progress) -> Option<usize>
    ensures some { IfSome result (λ column.
        (0 < progress.now.unknown) × IsWidestOf (HasRole (outlook_of progress.now) Filter) (outlook_of progress.now) column) }
    ensures none { IfNone result (0 < progress.now.unknown → ¬ HasUnreadOf Filter (outlook_of progress.now)) }
{
    if progress.unknown == 0 {
        return None;
    }
    widest_of(Some(Role::Filter), progress)
}

/// While the condition is unknown at some row, the widest of the columns that it reads; else, or where these are read, the
/// widest of those of the groups; else the widest of all.
pub fn filter_first(progress: &Progress) -> usize
    requires { HasUnread (outlook_of progress.now) }
    ensures { Chooses (By FilterFirst) (outlook_of progress.now) result }
{
    if let Some(column) = widest_of_filter(progress) {
        return column;
    }
    match widest_of(Some(Role::Group), progress) {
        Some(column) => column,
        None => widest(progress),
    }
}

// Whether a column has an unread plane.
fn is_unread(progress: &Progress, column: usize) -> bool
    ensures { IsTrue result ↔ IsUnread (outlook_of progress.now) column }
{
    column < 16 && column < progress.columns as usize && progress.unread[column] > 0
}

// Whether a column is read for this; for values, also where the condition or the groups name it and it gives them.
fn is_read_for(role: Role, progress: &Progress, column: usize) -> bool
    requires { column < 16 }
    ensures { IsTrue result ↔ IsReadFor (outlook_of progress.now) role column }
{
    let is_role = progress.role[column] == role;
    match role {
        Role::Value => is_role || progress.gives_values[column],
        Role::Filter | Role::Group => is_role,
    }
}

// Whether a column is unread and read for this.
fn is_left_for(role: Role, progress: &Progress, column: usize) -> bool
    requires { column < 16 }
    ensures { IsTrue result ↔ IsReadFor (outlook_of progress.now) role column × IsUnread (outlook_of progress.now) column }
{
    is_unread(progress, column) && is_read_for(role, progress, column)
}

// Whether fewer planes of a column are taken than of the best one so far, if there is one.
fn is_less_taken(best: Option<usize>, progress: &Progress, column: usize) -> bool
    requires best { IfSome best (λ b. b < 16) }
    requires column { column < 16 }
    ensures { IsTrue result ↔ IfSome best (λ b. slice_index progress.now.read column < slice_index progress.now.read b) }
{
    match best {
        Some(best) => progress.read[column] < progress.read[best],
        None => true,
    }
}

// Of the columns that are read for this and have an unread plane, the one of which the fewest planes are taken.
fn least_taken_for(role: Role, progress: &Progress) -> Option<usize>
    ensures some { IfSome result (λ column.
        IsLeastTakenOf (IsReadFor (outlook_of progress.now) role) (outlook_of progress.now) column) }
    ensures none { IfNone result (¬ HasLeftFor role (outlook_of progress.now)) }
{
    let mut best = None;
    for column in 0..16usize {
        if is_left_for(role, progress, column) && is_less_taken(best, progress, column) {
            best = Some(column);
        }
    }
    best
}

// Whether at least as large a share of the rows that may pass is unknown, as of a value is unread when so many of its digits are taken.
fn is_share_unknown(progress: &Progress, taken: u8) -> bool
    requires { 0 < progress.now.unknown }
    ensures { IsTrue result ↔ progress.now.possible ≤ progress.now.unknown * 2 ^ taken }
{
    let possible = u128::from(progress.possible);
    if taken >= 64 {
        return true;
    }
    let parts = 2u128.pow(u32::from(taken));
    possible <= u128::from(progress.unknown).saturating_mul(parts)
}

// Whether at least as large a share of the rows that may pass is unknown, as is unread of any key or value.
fn is_less_parted(progress: &Progress) -> bool
    ensures { IsTrue result ↔ IsLessParted (outlook_of progress.now) }
{
    let is_decided = progress.unknown == 0;
    if is_decided {
        return false;
    }
    for column in 0..16usize {
        let is_shown = is_left_for(Role::Group, progress, column)
            || is_left_for(Role::Value, progress, column);
        if is_shown && !is_share_unknown(progress, progress.read[column]) {
            return false;
        }
    }
    true
}

// The column of the condition that parts the rows, where they are to be parted next.
fn parting(progress: &Progress) -> Option<usize>
    ensures some { IfSome result (λ column. PartsRows (outlook_of progress.now)
        × IsLeastTakenOf (IsReadFor (outlook_of progress.now) Filter) (outlook_of progress.now) column) }
    ensures none { IfNone result (¬ PartsRows (outlook_of progress.now)) }
{
    let column = least_taken_for(Role::Filter, progress)?;
    let is_all_read = least_taken_for(Role::Group, progress).is_none()
        && least_taken_for(Role::Value, progress).is_none();
    if is_all_read || is_less_parted(progress) {
        Some(column)
    } else {
        None
    }
}

/// A column of the condition, while at least as large a share of the rows that may pass is unknown as of a value is unread; then one of the
/// groups, then one of the values. In each case the column with the fewest planes read, of equals the first.
pub fn balanced(progress: &Progress) -> usize
    requires { HasUnread (outlook_of progress.now) }
    ensures { Chooses (By Balanced) (outlook_of progress.now) result }
{
    if let Some(column) = parting(progress) {
        return column;
    }
    if let Some(column) = least_taken_for(Role::Group, progress) {
        return column;
    }
    match least_taken_for(Role::Value, progress) {
        Some(column) => column,
        None => unreachable!(),
    }
}

/// The column that the policy reads next.
pub fn choose(policy: FixedPolicy, progress: &Progress) -> usize
    requires { HasUnread (outlook_of progress.now) }
    ensures chosen { Chooses (By policy) (outlook_of progress.now) result }
    ensures unread { IsUnread (outlook_of progress.now) result }
{
    match policy {
        FixedPolicy::Widest => widest(progress),
        FixedPolicy::InOrder => in_order(progress),
        FixedPolicy::FilterFirst => filter_first(progress),
        FixedPolicy::Balanced => balanced(progress),
    }
}

/// The list's column for the next round, where it has an unread plane; else the widest.
pub fn listed(list: &Columns, progress: &Progress) -> usize
    requires { HasUnread (outlook_of progress.now) }
    ensures unread { IsUnread (outlook_of progress.now) result }
    ensures listed { HasChoice (Listed list.now) (outlook_of progress.now) → Chooses (Listed list.now) (outlook_of progress.now) result }
    ensures rest { ¬ HasChoice (Listed list.now) (outlook_of progress.now) → Chooses (By Widest) (outlook_of progress.now) result }
{
    if let Some(column) = list.as_slice().get(progress.done as usize) {
        let column = *column as usize;
        if is_unread(progress, column) {
            return column;
        }
    }
    widest(progress)
}
