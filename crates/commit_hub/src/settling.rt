//! Whether the shares add up to what a hub's desk accepted.
ghost use Rattle.std.specs.Prelude.{◌≡◌, ◌+◌, ◌-◌, ◌^◌, ◌↔◌, IsTrue, IsOk, IfOk, IfErr, OnOk, length, map, min};
ghost use Rattle.std.specs.List.{sum_by};
ghost use Rattle.group_commit.specs.Since.{IsKnownDesk};
ghost use Rattle.commit_hub.specs.Holders.{count_of, AddUp};

use crate::ledgers::NodeLedger;
use crate::locked::Locked;
use crate::share::Share;
use group_commit::{Desk, SharedDesk};
use std::sync::ledger;

impl<A: NodeLedger> Locked<A> {
    /// Ends the ledgers and the shares, and gives the desk, exactly where the shares count all inputs that were accepted
    /// since the hub was made. They do where every place is here. Else all comes back.
    pub(crate) fn settle(self, shares: Vec<Share<A>>) -> Result<Desk, (Locked<A>, Vec<Share<A>>)>
        ensures exact { IsOk result ↔ AddUp shares.items A.opened self.shared.desk }
        ensures whole { 1 + length shares.items ≡ A.parts → IsOk result }
        ensures desk { IfOk result (λ desk. desk ≡ self.shared.desk) }
        ensures known { OnOk result (IsKnownDesk self.shared.desk) }
        ensures back { IfErr result (λ e. e.0.shared.desk ≡ self.shared.desk) }
        ensures shares { IfErr result (λ e. map count_of e.1.items ≡ map count_of shares.items) }
    {
        let mut locked = self;
        let mut shares = shares;
        if !locked.adds_up(&mut shares) {
            return Err((locked, shares));
        }
        let Locked { shared, .. } = locked;
        let SharedDesk { desk } = shared;
        Ok(desk)
    }

    // Whether the shares count all inputs that were accepted since the hub was made. They do where every place is here.
    fn adds_up(&mut self, shares: &mut Vec<Share<A>>) -> bool
        ensures exact { IsTrue result ↔ AddUp shares.old.items A.opened self.old.shared.desk }
        ensures whole { 1 + length shares.old.items ≡ A.parts → IsTrue result }
        ensures desk { self.new.shared.desk ≡ self.old.shared.desk }
        ensures known { IsKnownDesk self.old.shared.desk }
        ensures shares { map count_of shares.new.items ≡ map count_of shares.old.items }
    {
        let Locked {
            shared,
            accepted,
            first,
            opened,
            places,
            ..
        } = self;
        if shared.desk.accepted() == opened.saturating_add(counted_by(shares)) {
            return true;
        }
        // With every place here the shares count all that was accepted, so this is never so.
        if places.are_all(shares.len()) {
            merge_all(first, shares);
            accepted.audit(first);
            unreachable!();
        }
        false
    }
}

/// What the shares count together, 2^64 - 1 at most.
pub(crate) fn counted_by<A: NodeLedger>(shares: &[Share<A>]) -> u64
    ensures { result ≡ min (sum_by count_of shares.now) (2 ^ 64 - 1) }
{
    let mut total: u64 = 0;
    for share in shares {
        total = total.saturating_add(share.count);
    }
    total
}

// Puts what all shares have into one.
fn merge_all<A: NodeLedger>(whole: &mut ledger::Share<A>, shares: &mut Vec<Share<A>>)
    ensures parts { whole.new.parts ≡ whole.old.parts + length shares.old.items }
    ensures amount { whole.new.amount ≡ whole.old.amount + sum_by count_of shares.old.items }
{
    while let Some(share) = shares.pop() {
        let Share { count: _, token } = share;
        whole.merge(token);
    }
}
