//! Choices of the next column, and rounds by a chooser.

ghost use Rattle.std.specs.Prelude.{◌<◌, IsTrue};
ghost use Rattle.plane_schedule.specs.Choices.{HasUnread, IsSound, outlook_of};
ghost use Rattle.plane_schedule.specs.Keeping.{Follows, Keeps};

use plane_schedule::{
    Chooser, Ending, Extras, FixedPolicy, Listing, Nearness, Plan, Policy, Progress, Role, choose,
    listed,
};
use query_model::Columns;
use std::alloc::AllocError;

// Five columns: two of the condition, one of a group, two of values.
fn five_columns(unread: [u8; 16], unknown: u64) -> Progress {
    let mut role = [Role::Value; 16];
    role[1] = Role::Filter;
    role[2] = Role::Filter;
    role[3] = Role::Group;
    Progress {
        columns: 5,
        unread,
        read: [0; 16],
        role,
        gives_values: [false; 16],
        unknown,
        possible: unknown,
        done: 0,
    }
}

// Whether some column has an unread plane.
fn has_unread(progress: &Progress) -> bool
    ensures { IsTrue result → HasUnread (outlook_of progress.now) }
{
    for column in 0..16usize {
        if column < progress.columns as usize && progress.unread[column] > 0 {
            return true;
        }
    }
    false
}

// The balanced choice, where a plane is unread.
fn next_balanced(progress: &Progress) -> Option<usize> {
    if !has_unread(progress) {
        return None;
    }
    Some(choose(FixedPolicy::Balanced, progress))
}

// The columns that the three policies choose, in their order: widest, in order, filter first.
fn choices(progress: &Progress) -> Option<[usize; 3]> {
    if !has_unread(progress) {
        return None;
    }
    Some([
        choose(FixedPolicy::Widest, progress),
        choose(FixedPolicy::InOrder, progress),
        choose(FixedPolicy::FilterFirst, progress),
    ])
}

#[test]
fn least_of_equals_is_chosen(rt: HostRuntime) {
    let mut unread = [0; 16];
    unread[0] = 3;
    unread[2] = 7;
    unread[4] = 7;
    unread[9] = 9;
    assert_eq!(rt; choices(&five_columns(unread, 0)), Some([2, 0, 2]));
}

#[test]
fn filter_goes_first_while_unknown(rt: HostRuntime) {
    let mut unread = [0; 16];
    unread[0] = 30;
    unread[1] = 4;
    unread[2] = 5;
    unread[3] = 6;
    assert_eq!(rt; choices(&five_columns(unread, 1)), Some([0, 0, 2]));
    assert_eq!(rt; choices(&five_columns(unread, 0)), Some([0, 0, 3]));
    unread[1] = 0;
    unread[2] = 0;
    assert_eq!(rt; choices(&five_columns(unread, 1)), Some([0, 0, 3]));
    unread[3] = 0;
    assert_eq!(rt; choices(&five_columns(unread, 1)), Some([0, 0, 0]));
}

#[test]
fn columns_of_no_query_are_left(rt: HostRuntime) {
    let mut unread = [0; 16];
    unread[5] = 1;
    assert_eq!(rt; choices(&five_columns(unread, 1)), None);
}

// A nullable column may have 65 planes, and it has one where all its numbers are the same.
#[test]
fn plane_that_tells_null_counts(rt: HostRuntime) {
    let mut unread = [0; 16];
    unread[0] = 64;
    unread[4] = 65;
    assert_eq!(rt; choices(&five_columns(unread, 1)), Some([4, 0, 4]));
    unread[0] = 0;
    unread[4] = 1;
    assert_eq!(rt; choices(&five_columns(unread, 1)), Some([4, 4, 4]));
}

// Asks a chooser that follows the policy until nothing is unread, and says how often each column was named.
fn rounds<F: Fn(&Progress) -> usize>(
    policy: &Policy,
    chooser: &Chooser<F>,
    start: Progress,
) -> [u8; 16]
    requires kept { Keeps F.Fn chooser.now.choose }
    requires follows { Follows F.Fn chooser.now.choose policy.now }
    requires sound { IsSound start }
{
    let mut progress = start;
    let mut named = [0u8; 16];
    while let Some(column) = chooser.next(&progress) {
        progress.unread[column] -= 1;
        progress.done = progress.done.saturating_add(1);
        named[column] = named[column].saturating_add(1);
    }
    named
}

// The rounds by the policy's own chooser.
fn rounds_of(policy: &Policy, start: Progress) -> [u8; 16]
    requires sound { IsSound start }
{
    match policy {
        Policy::By(by) => {
            let by = *by;
            rounds(policy, &Chooser::new(|p: &Progress| choose(by, p)), start)
        }
        Policy::Listed(list) => rounds(
            policy,
            &Chooser::new(|p: &Progress| listed(list, p)),
            start,
        ),
    }
}

fn two_columns(done: u32) -> Progress
    ensures { IsSound result }
{
    let mut unread = [0; 16];
    unread[0] = 2;
    unread[1] = 3;
    Progress {
        columns: 2,
        unread,
        read: [0; 16],
        role: [Role::Value; 16],
        gives_values: [true; 16],
        unknown: 0,
        possible: 0,
        done,
    }
}

#[test]
fn all_is_read(rt: HostRuntime) -> Result<(), AllocError> {
    let mut all = [0; 16];
    all[0] = 2;
    all[1] = 3;
    let list = Columns::new(vec![in rt.alloc(); 1, 0, 7, 1]?);
    for policy in [
        Policy::By(FixedPolicy::Widest),
        Policy::By(FixedPolicy::InOrder),
        Policy::By(FixedPolicy::FilterFirst),
        Policy::By(FixedPolicy::Balanced),
        Policy::Listed(list),
    ] {
        assert_eq!(rt; rounds_of(&policy, two_columns(0)), all);
    }
    Ok(())
}

// Rows are parted while as large a share of them is unknown as of a value is unread: here while 2^m is at least 4.
#[test]
fn rows_are_parted_as_values_are_known(rt: HostRuntime) {
    let mut start = five_columns([9; 16], 3);
    start.possible = 12;
    for (taken, column) in [(0, 3), (1, 3), (2, 1), (64, 1), (65, 1)] {
        let progress = Progress {
            read: [taken; 16],
            ..start
        };
        assert_eq!(rt; next_balanced(&progress), Some(column));
    }
    start.read = [65; 16];
    start.unknown = 0;
    assert_eq!(rt; next_balanced(&start), Some(3));
    start.unread[3] = 0;
    assert_eq!(rt; next_balanced(&start), Some(0));
    start.unread[0] = 0;
    start.unread[4] = 0;
    assert_eq!(rt; next_balanced(&start), Some(1));
}

// The share of the least known column decides, and of each kind the column of which the fewest planes are read is next.
#[test]
fn least_read_is_chosen(rt: HostRuntime) {
    let mut start = five_columns([9; 16], 3);
    start.possible = 12;
    start.read[0] = 3;
    start.read[1] = 5;
    start.read[2] = 4;
    start.read[3] = 2;
    start.read[4] = 2;
    assert_eq!(rt; next_balanced(&start), Some(2));
    start.read[4] = 1;
    assert_eq!(rt; next_balanced(&start), Some(3));
    start.unread[3] = 0;
    assert_eq!(rt; next_balanced(&start), Some(4));
    start.gives_values[1] = true;
    start.read[1] = 1;
    assert_eq!(rt; next_balanced(&start), Some(1));
}

// The list's choice, where a plane is unread.
fn next_listed(list: &Columns, progress: &Progress) -> Option<usize> {
    if !has_unread(progress) {
        return None;
    }
    Some(listed(list, progress))
}

// From round 2 on the list names no column with an unread plane, and the widest is read.
#[test]
fn list_is_read_while_it_can(rt: HostRuntime) -> Result<(), AllocError> {
    let list = Columns::new(vec![in rt.alloc(); 0, 1, 7]?);
    for (round, column) in [(0, 0), (1, 1), (2, 1), (3, 1)] {
        assert_eq!(rt; next_listed(&list, &two_columns(round)), Some(column));
    }
    Ok(())
}

// Narrow comes before the wanted number, and that before the end of the list.
#[test]
fn first_ending_is_told(rt: HostRuntime) -> Result<(), AllocError> {
    let plan = Plan {
        policy: Policy::Listed(Columns::new(vec![in rt.alloc(); 0, 0]?)),
        near: Nearness::exact(),
        most: Some(2),
        listing: Listing::Certain,
        extras: Extras::none(),
    };
    assert_eq!(rt; plan.ending(false, 1), None);
    assert_eq!(rt; plan.ending(true, 2), Some(Ending::Narrow));
    assert_eq!(rt; plan.ending(false, 2), Some(Ending::Rounds));
    let plan = Plan { most: None, ..plan };
    assert_eq!(rt; plan.ending(false, 2), Some(Ending::Reads));
    assert_eq!(rt; Plan::widest().ending(false, 2), None);
    Ok(())
}
