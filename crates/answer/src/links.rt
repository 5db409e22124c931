// The links' records, by their lower and then their higher member. A link is found at the position that was reached over it.
ghost use Rattle.std.specs.Prelude.{◌≡◌, ◌++◌, ◌≤◌, ◌<◌, length, drop, nat_abs, IfSome};
ghost use Rattle.answer.specs.inner.Words.{Filled};
ghost use Rattle.answer.specs.inner.Records.{joint_of, from_lower, link_by, links_of, links_by};

use crate::allocation::Allocation;
use crate::bytes;
use numbers::{Member, Units};

// Where the link between two members is found: at the position that was reached over it, which is the lower member's or
// the higher one's. (`lower` tells whose the position is, which is there either way.)
#[derive(Clone, Copy)]
pub struct Joint {
    pub reached: usize,
    pub lower: bool,
}

impl Joint {
    // What flows from the lower member to the higher one, where one of them sends so much toward member 1.
    #[tactic(auto, unfolding(crate::specs::inner::Records::from_lower))]
    fn from_lower(self, sent: Units) -> Units
        requires { nat_abs sent.0 ≤ 40 }
        ensures { result.0 ≡ from_lower self.lower sent.0 }
    {
        if self.lower { sent } else { Units(0) - sent }
    }
}

impl Allocation<'_> {
    // The link from a to b.
    #[tactic(auto, unfolding(crate::specs::inner::Records::joint_of))]
    fn link_between(&self, a: Member, b: Member) -> Option<Joint>
        requires { (1 ≤ a.0) × (a.0 ≤ 32) × (1 ≤ b.0) × (b.0 ≤ 32) }
        ensures is { result ≡ joint_of self.now a.0 b.0 }
        ensures inside { IfSome result (λ j. j.reached < self.now.feeder.now.members) }
    {
        if a >= b {
            return None;
        }
        let lower = self.place_of(a);
        let higher = self.place_of(b);
        if self.feeder.position[higher].parent as usize == lower {
            Some(Joint {
                reached: higher,
                lower: false,
            })
        } else if self.feeder.position[lower].parent as usize == higher {
            Some(Joint {
                reached: lower,
                lower: true,
            })
        } else {
            None
        }
    }

    // The records of member a's links to higher members, in their order. Gives the number of bytes written.
    #[tactic(auto, using(crate::proofs::Sizes::size_from_lower))]
    fn write_links_of(&self, a: Member, out: &mut [u8]) -> usize
        requires { (1 ≤ a.0) × (a.0 ≤ self.now.feeder.now.members) × (length (links_of self.now a.0) ≤ length out.old) }
        ensures { Filled (link_by self.now a.0) self.now.feeder.now.members out.old result out.new }
    {
        let mut at = 0;
        for i in 0..self.feeder.members as usize {
            let b = Member::at(i);
            let Some(joint) = self.link_between(a, b) else {
                continue;
            };
            let capacity = self.feeder.position[joint.reached].toward;
            let flow = joint.from_lower(self.trades[joint.reached].sent);
            let load = bytes::load_of(capacity, flow);
            out[at..at + 8].copy_from_slice(&bytes::link(a, b, flow, load));
            at += 8;
        }
        at
    }

    // The records of all links.
    pub fn write_links(&self, out: &mut [u8])
        requires { length (links_by self.now) ≤ length out.old }
        ensures { out.new ≡ links_by self.now ++ drop (length (links_by self.now)) out.old }
    {
        let mut at = 0;
        for i in 0..self.feeder.members as usize {
            at += self.write_links_of(Member::at(i), &mut out[at..]);
        }
    }
}
