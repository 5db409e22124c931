// A file's link as it is kept.
ghost use Rattle.std.specs.Prelude.{◌≡◌, ◌<◌, ◌≤◌, pos, nat_abs};

use network::parts::Ends;
use numbers::{Member, Units};
use std::default::Default;

// A link's lower and higher member, and its capacity, from 0 to 40.
#[derive(Clone, Copy)]
pub struct Line {
    pub ends: Ends,
    pub capacity: Units,
    pub ghost below: { ends.a.0 < ends.b.0 },
    pub ghost counted: { capacity.0 ≡ pos (nat_abs capacity.0) },
    pub ghost small: { nat_abs capacity.0 ≤ 40 },
}

// What stands where no link is kept yet.
impl Default for Line {
    fn default() -> Line {
        let ends = Ends {
            a: Member(1),
            b: Member(2),
        };
        Line {
            ends,
            capacity: Units(0),
        }
    }
}

impl Line {
    ghost use Rattle.std.specs.Prelude.{◌&&◌, eqb};
    ghost use Rattle.problem.specs.Problem.{joins};
    ghost use Rattle.market.specs.inner.Lines.{link_in};

    // Its lower member is u and its higher member v.
    fn leads(self, u: Member, v: Member) -> bool
        ensures { result ≡ (eqb self.ends.a.0 u.0 && eqb self.ends.b.0 v.0) }
    {
        self.ends.a == u && self.ends.b == v
    }

    // It is between u and v.
    pub fn joins(self, u: Member, v: Member) -> bool
        ensures { result ≡ joins (link_in self) u.0 v.0 }
    {
        self.leads(u, v) || self.leads(v, u)
    }
}
