// A file's links as they are kept, in the file's order: each is read once.
ghost use Rattle.std.specs.Prelude.{◌≡◌, pos, find};
ghost use Rattle.numbers.specs.inner.Held.{units};
ghost use Rattle.problem.specs.Problem.{joins};
ghost use Rattle.network.specs.inner.Walks.{Masks};
ghost use Rattle.market.specs.inner.Feeders.{capacity_of};
ghost use Rattle.market.specs.inner.Lines.{link_in, kept};

use crate::line::Line;
use network::bits::Members;
use network::walk::linked;
use numbers::{Member, Units};

// The neighbours of each member.
pub fn neighbours(links: &[Line]) -> [Members; 32]
    ensures { Masks result (kept links.now) }
{
    let mut adj = [Members(0); 32];
    for x in links {
        linked(&mut adj, x.ends);
    }
    adj
}

// The link between u and v, if there is one.
fn between(links: &[Line], u: Member, v: Member) -> Option<Line>
    ensures { result ≡ find (λ x. joins (link_in x) u.0 v.0) links.now }
{
    links.iter().copied().find(|x| x.joins(u, v))
}

// Its capacity, or 0 where there is none.
pub fn capacity(links: &[Line], u: Member, v: Member) -> Units
    ensures { result ≡ units (pos (capacity_of (kept links.now) u.0 v.0)) }
{
    match between(links, u, v) {
        Some(x) => x.capacity,
        None => Units(0),
    }
}
