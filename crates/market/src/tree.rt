// Refusal 10, and the tree of a market that passes: its members by the positions of the walk, the position that each was
// reached from, and the capacity of the link between.
ghost use Rattle.std.specs.Prelude.{◌≡◌, [], ℕ, ◌<◌, ◌≤◌};
ghost use Rattle.std.proofs.Math.Option.{none};
ghost use Rattle.problem.proofs.Tree.{Within, Open};
ghost use Rattle.network.specs.inner.Positions.{no_position, position_at};
ghost use Rattle.network.specs.inner.Walks.{walked_from};
ghost use Rattle.records.specs.Refusals.{refusal};
ghost use Rattle.market.specs.Refusals.{apart};
ghost use Rattle.market.specs.inner.Feeders.{step_at, FeederOf, Finds};
ghost use Rattle.market.specs.inner.Lines.{kept, market_on};

use crate::line::Line;
use crate::links::{capacity, neighbours};
use network::walk::{Walked, walk};
use network::{Feeder, Position};
use numbers::{Member, Units};
use records::{Refusal, Rule};

// The positions of a walk of n members, each with the capacity of the link that it was reached over.
fn positions(links: &[Line], walked: &Walked, n: Member) -> [Position; 32]
    requires { (n.0 ≤ 32) × ((i : ℕ) → i < n.0 → walked_from walked.now.step i < 32) }
    ensures at { (i : ℕ) → i < n.0 → position_at result i ≡ step_at (kept links.now) walked.now.step i }
    ensures past { (i : ℕ) → n.0 ≤ i → position_at result i ≡ no_position }
{
    let none = Position {
        member: Member(0),
        parent: 0,
        toward: Units(0),
        away: Units(0),
    };
    let mut out = [none; 32];
    for i in 0..usize::from(n.0) {
        let step = walked.step[i];
        let from = walked.step[usize::from(step.from)];
        let most = capacity(links, step.member, from.member);
        out[i] = Position {
            member: step.member,
            parent: step.from,
            toward: most,
            away: most,
        };
    }
    out
}

// The feeder of the links' market of n members, or refusal 10 at the lowest member that is not joined to member 1.
pub fn feeder(links: &[Line], n: Member) -> Result<Feeder, Refusal>
    requires { (1 ≤ n.0) × (n.0 ≤ 32) × Within n.0 (kept links.now) × Open [] (kept links.now) }
    ensures { Finds (FeederOf (market_on n.0 (kept links.now))) (refusal 10 (apart (market_on n.0 (kept links.now)))) none result }
{
    let walked = walk(&neighbours(links));
    if let Some(member) = walked.reached.lowest_missing(n) {
        return Err(Refusal {
            rule: Rule::Apart,
            place: u16::from(member.0),
        });
    }
    let position = positions(links, &walked, n);
    Ok(Feeder {
        members: n.0,
        position,
    })
}
