//! How far a session has come.

ghost use Rattle.std.specs.Prelude.{◌≡◌, ◌≤◌, ◌<◌, ℕ, Some, length, slice_get, slice_index};
ghost use Rattle.plane_schedule.specs.Choices.{IsUnread, outlook_of};
ghost use Rattle.query_model.specs.Knowledge.{IsKnowledge};
ghost use Rattle.round_engine.specs.Stages.{Stage};
ghost use Rattle.multi_session.specs.Members.{AreSomeMembers, stages_of};
ghost use Rattle.multi_session.specs.Sessions.{Awaits, IsSessionProgress, TellsColumns, first_role};
ghost use Rattle.multi_session.specs.Sessions.{gives_in, possible_in, role_in, session_outlook, taken_in, unknown_in, unread_in, unread_of};

use crate::columns::Columns;
use crate::member::Member;
use crate::session::Session;
use plane_schedule::{Nearness, Progress, Role};

// Of two roles the one that goes first: the condition, then the groups, then values.
fn first_role(a: Role, b: Role) -> Role
    ensures { result ≡ first_role a b }
{
    match (a, b) {
        (Role::Filter, _) | (_, Role::Filter) => Role::Filter,
        (Role::Group, _) | (_, Role::Group) => Role::Group,
        (Role::Value, Role::Value) => Role::Value,
    }
}

// The unread planes of a column of the session, where some query awaits them.
fn unread_in(members: &[Member], columns: &Columns, column: usize, near: Nearness) -> u8
    requires kept { AreSomeMembers near columns.now.places.items columns.now.known members.now }
    requires column { column < length columns.now.places.items }
    ensures unread { result ≡ unread_in near (slice_index columns.now.places.items column) (stages_of columns.now.known members.now) }
    ensures few { result ≤ 65 }
{
    for member in members {
        if member.awaited(columns.places[column]).is_some() {
            return columns.known.unread(column);
        }
    }
    0
}

// What the queries that await a column's next plane do with it: what they read it for, how many of its planes they took, and whether it
// gives values to one of them.
#[derive(Clone, Copy)]
struct ColumnUse {
    role: Role,
    read: u8,
    gives_values: bool,
}

fn use_in(members: &[Member], columns: &Columns, place: usize, near: Nearness) -> ColumnUse
    requires { AreSomeMembers near columns.now.places.items columns.now.known members.now }
    ensures role { result.role ≡ role_in near place (stages_of columns.now.known members.now) }
    ensures read { result.read ≡ taken_in near place (stages_of columns.now.known members.now) }
    ensures few { result.read ≤ 65 }
    ensures gives { result.gives_values ≡ gives_in near place (stages_of columns.now.known members.now) }
{
    let mut role = Role::Value;
    let mut read = 0u8;
    let mut gives_values = false;
    for member in members {
        if let Some(own) = member.awaited(place) {
            let progress = member.view(columns).progress();
            role = first_role(role, progress.role[own]);
            read = read.max(progress.read[own]);
            gives_values = gives_values | progress.gives_values[own];
        }
    }
    ColumnUse {
        role,
        read,
        gives_values,
    }
}

// At how many rows the conditions of the queries that are not finished are unknown, and at how many they may hold, all added.
struct RowCounts {
    unknown: u64,
    possible: u64,
}

fn rows_in(members: &[Member], columns: &Columns, near: Nearness) -> RowCounts
    requires kept { AreSomeMembers near columns.now.places.items columns.now.known members.now }
    requires few { length members.now ≤ 16 }
    ensures unknown { result.unknown ≡ unknown_in near (stages_of columns.now.known members.now) }
    ensures possible { result.possible ≡ possible_in near (stages_of columns.now.known members.now) }
{
    let mut unknown = 0;
    let mut possible = 0;
    for member in members {
        if !member.finished {
            let progress = member.view(columns).progress();
            unknown += progress.unknown;
            possible += progress.possible;
        }
    }
    RowCounts { unknown, possible }
}

// What the queries do with each column of the session.
struct ColumnUses {
    unread: [u8; 16],
    read: [u8; 16],
    role: [Role; 16],
    gives_values: [bool; 16],
}

fn told_of(members: &[Member], columns: &Columns, near: Nearness) -> ColumnUses
    requires kept { AreSomeMembers near columns.now.places.items columns.now.known members.now }
    requires few { length columns.now.places.items ≤ 16 }
    ensures { TellsColumns near columns.now.places.items (stages_of columns.now.known members.now)
        (length columns.now.places.items) result.unread result.read result.role result.gives_values }
{
    let mut unread = [0u8; 16];
    let mut read = [0u8; 16];
    let mut role = [Role::Value; 16];
    let mut gives_values = [false; 16];
    for (column, place) in columns.places.iter().enumerate() {
        unread[column] = unread_in(members, columns, column, near);
        let column_use = use_in(members, columns, *place, near);
        read[column] = column_use.read;
        role[column] = column_use.role;
        gives_values[column] = column_use.gives_values;
    }
    ColumnUses {
        unread,
        read,
        role,
        gives_values,
    }
}

impl Session {
    /// How far the session has come. Of each column: the planes that some query awaits, those that are read, what these queries read them
    /// for, and whether they give values. Of the queries that are not finished, added: at how many rows their conditions are unknown, and
    /// at how many they may hold. And the number of steps.
    pub fn progress(&self) -> Progress
        ensures progress { IsSessionProgress self.now result }
        ensures unread { (column : ℕ) → IsUnread (outlook_of result) column → IsUnread (session_outlook self.now) column }
        ensures alike { (column : ℕ) (stage : Stage) (own : ℕ) → column < length self.now.columns → Awaits self.now column stage own
            → slice_index result.unread column ≡ unread_of stage own }
        ensures known { (query : ℕ) (stage : Stage) → slice_get self.now.stages query ≡ Some stage → IsKnowledge stage.frame stage.known }
    {
        let ColumnUses {
            unread,
            read,
            role,
            gives_values,
        } = told_of(&self.members, &self.columns, self.near);
        let RowCounts { unknown, possible } = rows_in(&self.members, &self.columns, self.near);
        Progress {
            columns: self.columns.places.len() as u8,
            unread,
            read,
            role,
            gives_values,
            unknown,
            possible,
            done: self.steps,
        }
    }
}
