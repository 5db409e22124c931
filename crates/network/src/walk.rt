// The walk from member 1: from the latest member reached that has a neighbour not yet reached, to the lowest such neighbour.
ghost use Rattle.std.specs.Prelude.{◌≡◌, ◌≤◌, length};
ghost use Rattle.network.specs.inner.Sets.{index};
ghost use Rattle.network.specs.inner.Walks.{add_masks, blank, on_mask, step_of, Known, WalkOf, Blank};

use crate::bits::Members;
use crate::parts::Ends;
use numbers::Member;

// The neighbours of each member, with the ends of the link as neighbours.
pub fn linked(adj: &mut [Members; 32], link: Ends)
    ensures { adj.new ≡ add_masks adj.old (index link.a) (index link.b) }
{
    let a = link.a.index();
    let b = link.b.index();
    adj[a] = adj[a].with(link.b);
    adj[b] = adj[b].with(link.a);
}

// A step of a walk: the member reached, and the position that it was reached from.
#[derive(Clone, Copy)]
pub struct Step {
    pub member: Member,
    pub from: u8,
}

// A walk by its positions, and the members that it reached. Past the count the steps are 0, as a feeder's positions are past
// its members; so the count stands beside a whole array, and no slice.
#[derive(Clone, Copy)]
pub struct Walked {
    pub step: [Step; 32],
    pub count: usize,
    pub reached: Members,
}

// The next step: from the latest position that has a neighbour not yet reached, to the lowest such neighbour.
fn go_on(adj: &[Members; 32], steps: &[Step], reached: Members) -> Option<Step>
    requires { (length steps.now ≤ 32) × Known steps.now (length steps.now) }
    ensures { result ≡ step_of (on_mask adj.now steps.now reached.0 (length steps.now)) }
{
    for k in (0..steps.len()).rev() {
        let free = adj[steps[k].member.index()].without(reached);
        if let Some(member) = free.lowest() {
            return Some(Step {
                member,
                from: k as u8,
            });
        }
    }
    None
}

// The walk from member 1 over the neighbours of each member.
#[tactic(auto, using(crate::proofs::Stops::next_numbered, crate::proofs::Stops::walks_more, crate::proofs::Stops::walks_end))]
pub fn walk(adj: &[Members; 32]) -> Walked
    ensures { WalkOf adj.now result.step result.count result.reached.0 × Blank blank result.count result.step }
{
    let mut step = [Step {
        member: Member(0),
        from: 0,
    }; 32];
    step[0].member = Member(1);
    let mut reached = Members::only(Member(1));
    for count in 1..32 {
        let Some(next) = go_on(adj, &step[..count], reached) else {
            return Walked {
                step,
                count,
                reached,
            };
        };
        step[count] = next;
        reached = reached.with(next.member);
    }
    Walked {
        step,
        count: 32,
        reached,
    }
}
