// The best choices on a tree of tables: the cell of the highest total, and what each member buys and sends with it. The
// tree is one value, a feeder by the positions of its walk; the tables are records. Messages go up the walk, choices come
// down it. `solve` promises the best total, and the first of the choices that make it.
#![tactic(auto)]

ghost use Rattle.std.specs.Prelude.{IfErr, IfOk};
ghost use Rattle.records.specs.Records.{entries};
ghost use Rattle.records.specs.Market.{offers_of};
ghost use Rattle.engine.specs.inner.Words.{own_of, Solved, Unsolved};

use network::Feeder;
use numbers::Units;

mod downward;
mod links;
mod stores;
mod upward;

// What a member buys, and what its link carries toward member 1.
#[derive(Clone, Copy)]
pub struct Trade {
    pub net: Units,
    pub sent: Units,
}

// The cell of the best total, 0 where there is none, and by position what makes it. Past the members stands 0.
#[derive(Clone, Copy)]
pub struct Solution {
    pub best: u32,
    pub trades: [Trade; 32],
}

// The best total over a feeder, where every member's table stands in the same records; an error where no allocation is
// possible, with what the choices make all the same.
#[tactic(auto, using(crate::proofs::Passes::made))]
pub fn solve(feeder: &Feeder, records: &[u8]) -> Result<Solution, Solution>
    ensures solved { IfOk result (λ s. Solved feeder.now (own_of feeder.now (offers_of (entries records.now))) s) }
    ensures unsolved { IfErr result (λ s. Unsolved feeder.now (own_of feeder.now (offers_of (entries records.now))) s) }
{
    let mut stores = stores::Stores::new();
    upward::upward(feeder, records, &mut stores);
    let best = stores.messages[0][0];
    let chosen = downward::choose(feeder, &stores.choices);
    let trades = downward::settle(feeder, &chosen);
    let solution = Solution { best, trades };
    // named, so that the goals past the test keep their names under the edit `impossible_at_1`
    let impossible = best == 0;
    if impossible {
        Err(solution)
    } else {
        Ok(solution)
    }
}
