// Messages go up the walk, the last position first: each member's own row takes in its children's messages, and what is
// left of it is the member's own message. The choice that each cell was made by is kept on the way. `upward` promises that
// the stores hold what elimination makes of the feeder and the tables.
ghost use Rattle.std.specs.Prelude.{ℕ, ◌<◌};
ghost use Rattle.records.specs.Records.{entries};
ghost use Rattle.records.specs.Market.{offers_of};
ghost use Rattle.engine.specs.inner.Words.{own_of, Ready, Done};

use crate::links::{row_len, top, width};
use crate::stores::{ROW, Stores, put_message, take_in};
use network::Feeder;

// One member, whose table is given: its own row, the messages of its children taken in, and its message put in the store.
fn member(feeder: &Feeder, table: &[u8], v: usize, row: &mut [u32; ROW], stores: &mut Stores)
    requires feeder { v < feeder.now.members }
    requires ready { (own : ℕ → ℕ → ℕ) × Ready feeder.now table.now v stores.old own }
    ensures { (own : ℕ → ℕ → ℕ) → Ready feeder.now table.now v stores.old own → Done feeder.now v stores.new own }
{
    let mut len = row_len(feeder, v);
    rows::own_row(
        table,
        feeder.position[v].member,
        top(feeder, v),
        &mut row[..len],
    );
    for k in (v + 1..feeder.members as usize).rev() {
        if feeder.position[k].parent as usize == v {
            let w = width(feeder, k) as usize;
            take_in(
                &mut row[..len],
                &stores.messages[k],
                w,
                &mut stores.choices,
                k,
            );
            len -= w;
        }
    }
    put_message(&row[..len], &mut stores.messages[v]);
}

// Every member, the last of the walk first, where every table stands in the same records.
#[tactic(auto, using(crate::proofs::Passes::done_next))]
pub fn upward(feeder: &Feeder, records: &[u8], stores: &mut Stores)
    ensures { Done feeder.now 0 stores.new (own_of feeder.now (offers_of (entries records.now))) }
{
    let mut row = [0; ROW];
    for v in (0..feeder.members as usize).rev() {
        member(feeder, records, v, &mut row, stores);
    }
}
