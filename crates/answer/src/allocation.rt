// What the answer says, by the positions of a feeder.
ghost use Rattle.std.specs.Prelude.{◌≡◌, ◌≤◌, ◌<◌};
ghost use Rattle.answer.specs.inner.Words.{position_in, Positioned, Fitting};

use engine::Trade;
use network::Feeder;
use numbers::Member;

// An allocation: what the member at each position of a feeder buys, and what its link carries toward member 1.
#[derive(Clone, Copy)]
pub struct Allocation<'a> {
    pub feeder: &'a Feeder,
    pub trades: &'a [Trade; 32],
    // the position of each member, member 1's first
    pub position_of: [u8; 32],
    ghost positioned: { Positioned feeder.now position_of },
    ghost fitting: { Fitting feeder.now trades.now },
}

// The position of each member, member 1's first.
fn positions(feeder: &Feeder) -> [u8; 32]
    ensures { Positioned feeder.now result }
{
    let mut position = [0u8; 32];
    for i in 0..feeder.members {
        position[feeder.position[i as usize].member.index()] = i;
    }
    position
}

impl<'a> Allocation<'a> {
    pub fn of(feeder: &'a Feeder, trades: &'a [Trade; 32]) -> Allocation<'a>
        requires { Fitting feeder.now trades.now }
        ensures { (result.feeder.now ≡ feeder.now) × (result.trades.now ≡ trades.now) }
    {
        Allocation {
            feeder,
            trades,
            position_of: positions(feeder),
        }
    }

    // The position of a member.
    pub fn place_of(&self, member: Member) -> usize
        requires { (1 ≤ member.0) × (member.0 ≤ 32) }
        ensures is { result ≡ position_in self.now.position_of member.0 }
        ensures inside { result < self.now.feeder.now.members }
    {
        self.position_of[member.index()] as usize
    }
}
