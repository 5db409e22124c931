// Choices come down the walk, the first position first: each link's choice is read where its parent's index points, and
// the choices make what each member buys and sends. `choose` promises the choices of elimination, and `settle` the nets
// and flows that they make.
ghost use Rattle.std.specs.Prelude.{◌≡◌, ℕ, ◌≤◌, ◌<◌, pos, ◌-ℤ◌};
ghost use Rattle.network.specs.inner.Feeders.{away_at};
ghost use Rattle.engine.specs.inner.Words.{walk_of, top_of, choice_in, Kept, Settled, Flows};

use crate::Trade;
use crate::links::{top, width};
use crate::stores::{CHOICES, slot};
use network::Feeder;
use numbers::Units;

// The choice on a position's link, and the index that all the choices give the position.
#[derive(Clone, Copy)]
pub struct Choice {
    pub taken: u8,
    pub index: u16,
}

// The choices, read from what was kept.
pub fn choose(feeder: &Feeder, choices: &[u8; CHOICES]) -> [Choice; 32]
    requires { (own : ℕ → ℕ → ℕ) × Kept (walk_of feeder.now own) feeder.now.members choices.now 0 0 }
    ensures { (own : ℕ → ℕ → ℕ) → Kept (walk_of feeder.now own) feeder.now.members choices.now 0 0 → Settled (walk_of feeder.now own) feeder.now.members result }
{
    let mut chosen = [Choice { taken: 0, index: 0 }; 32];
    for i in 1..feeder.members as usize {
        let parent = feeder.position[i].parent as usize;
        let x = chosen[parent].index;
        let taken = choices[slot(i) + x as usize];
        let index = taken as u16;
        chosen[parent].index = x + (width(feeder, i) - index);
        chosen[i] = Choice { taken, index };
    }
    chosen
}

// What a choice makes of the member at i: what it buys by the index, and what its link carries toward member 1.
fn trade_of(feeder: &Feeder, i: usize, choice: Choice) -> Trade
    requires { (i < feeder.now.members) × (choice.index ≤ 2480) }
    ensures net { result.net.0 ≡ pos (top_of feeder.now i) -ℤ pos choice.index }
    ensures sent { result.sent.0 ≡ pos choice.taken -ℤ pos (away_at feeder.now i) }
{
    let flow = Units::of(choice.taken as u16);
    let net = top(feeder, i) - Units::of(choice.index);
    let sent = flow - feeder.position[i].away;
    Trade { net, sent }
}

// What the choices make.
#[tactic(auto, using(crate::proofs::Fill::flows_none, crate::proofs::Fill::flows_more))]
pub fn settle(feeder: &Feeder, chosen: &[Choice; 32]) -> [Trade; 32]
    requires { (i : ℕ) → i < feeder.now.members → (choice_in chosen.now i).index ≤ 2480 }
    ensures { Flows feeder.now chosen.now result feeder.now.members }
{
    let mut trades = [Trade {
        net: Units(0),
        sent: Units(0),
    }; 32];
    for i in 0..feeder.members as usize {
        trades[i] = trade_of(feeder, i, chosen[i]);
    }
    trades
}
