// Everything between the reading of records and the clearing: a file is either refused under 1 to 10, 13 or 14, or it is
// a market on a tree whose walk is known. Nothing is asked of a file's bytes.
#![tactic(auto)]

ghost use Rattle.market.specs.inner.Feeders.{Checked};

use crate::offers::offers;
use crate::rings::links;
use crate::tree::feeder;
use network::Feeder;
use records::{Refusal, check_records};

mod line;
mod links;
mod offers;
mod rings;
mod tree;

// The feeder of a file's market, or the first of refusals 1 to 10, 13 and 14 that applies.
pub fn market(file: &[u8]) -> Result<Feeder, Refusal>
    ensures { Checked file.now result }
{
    check_records(file)?;
    let tally = offers(file)?;
    let links = links(file)?;
    feeder(&links, tally.members)
}
