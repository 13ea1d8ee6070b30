//! A choice of columns that is known to name a column with an unread plane.

ghost use Rattle.std.specs.Prelude.{◌≡◌, ◌↔◌, IfSome, IsNone};
ghost use Rattle.std.specs.Fn.{FnReturnsAt};
ghost use Rattle.plane_schedule.specs.declared.policy.Policy.{Policy};
ghost use Rattle.plane_schedule.specs.Choices.{Chooses, HasChoice, HasUnread, IsSound, IsUnread, outlook_of};
ghost use Rattle.plane_schedule.specs.Keeping.{Follows, Keeps};

use crate::progress::{Progress, has_unread};

/// A closure that may be called wherever a plane is unread, and then names a column with one.
#[derive(Drop)]
pub struct Chooser<F> {
    choose: F,
}

impl<F: Fn(&Progress) -> usize> Chooser<F> {
    /// The chooser that asks this closure.
    pub fn new(choose: F) -> Chooser<F>
        requires { Keeps F.Fn choose }
        ensures kept { Keeps F.Fn result.choose }
        ensures closure { result.choose ≡ choose }
    {
        Chooser { choose }
    }

    /// The closure's answer, or none where nothing is unread. Each policy that the closure follows chooses it.
    pub fn next(&self, progress: &Progress) -> Option<usize>
        requires kept { Keeps F.Fn self.now.choose }
        requires sound { IsSound progress.now }
        ensures none { IsNone result ↔ ¬ HasUnread (outlook_of progress.now) }
        ensures unread { IfSome result (λ column. IsUnread (outlook_of progress.now) column) }
        ensures answer { IfSome result (λ column. FnReturnsAt F.Fn self.now.choose progress.now column) }
        ensures follows { IfSome result (λ column.
            (policy : Policy) → Follows F.Fn self.now.choose policy → HasChoice policy (outlook_of progress.now) →
            Chooses policy (outlook_of progress.now) column) }
    {
        if has_unread(progress) {
            Some((self.choose)(progress))
        } else {
            None
        }
    }
}
