// The answer's records, written from trades that stand by the positions of a feeder: members in order, links by their lower
// and then their higher member, and the total. Each writer is lent the part of the answer area that starts at its first
// byte, and leaves what follows its last one.
#![tactic(auto)]

ghost use Rattle.std.specs.Prelude.{◌≡◌, List, ◌++◌, ◌*◌, ◌≤◌, length, drop, ℤ};
ghost use Rattle.problem.specs.Problem.{Market};
ghost use Rattle.records.specs.Answer.{answer_of};
ghost use Rattle.answer.specs.inner.Words.{Settles};
ghost use Rattle.answer.specs.inner.Records.{members_by};

use crate::allocation::Allocation;
use engine::Trade;
use network::Feeder;
use numbers::{Member, Price};

mod allocation;
mod bytes;
mod links;

impl Allocation<'_> {
    // The members' records, with the value that each member's table gives for its net: in an allocation that is possible
    // every member has one.
    fn write_members(&self, records: &[u8], out: &mut [u8])
        requires { 8 * self.now.feeder.now.members ≤ length out.old }
        ensures { out.new ≡ members_by records.now self.now ++ drop (8 * self.now.feeder.now.members) out.old }
    {
        // not by chunks of 8: once a slice's chunks are back, a proof knows its length and not its bytes
        for i in 0..self.feeder.members as usize {
            let j = Member::at(i);
            let x = self.trades[self.position_of[i] as usize].net;
            let value = rows::value_of(records, j, x).unwrap_or(Price(0));
            out[8 * i..8 * i + 8].copy_from_slice(&bytes::member(j, x, value));
        }
    }
}

// The whole answer: the members' records; those of the links in the middle part, which is lent on; and the total.
pub fn write(records: &[u8], feeder: &Feeder, trades: &[Trade; 32], total: Price, answer: &mut [u8])
    requires settles { (m : Market) × (ys : List ℤ) × Settles m ys records.now feeder.now trades.now }
    requires room { 16 * feeder.now.members ≤ length answer.old }
    ensures { (m : Market) (ys : List ℤ) → Settles m ys records.now feeder.now trades.now → answer.new ≡ answer_of m ys total.0 ++ drop (16 * feeder.now.members) answer.old }
{
    let allocation = Allocation::of(feeder, trades);
    allocation.write_members(records, answer);
    let members = feeder.members as usize;
    let from = 8 * members;
    let to = 16 * members - 8;
    allocation.write_links(&mut answer[from..to]);
    answer[to..to + 8].copy_from_slice(&bytes::total(total));
}
