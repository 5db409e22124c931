// A feeder's members and links as the code holds them: sets of members as bits, the parts that links join, the walk from
// member 1, and the tree that it makes. No record is read here.
#![tactic(auto)]

ghost use Rattle.network.specs.inner.Positions.{Sound};

use numbers::{Member, Units};

pub mod bits;
pub mod parts;
pub mod walk;

// What stands at a position of a feeder's walk: a member, and the link that it was reached over.
#[derive(Clone, Copy)]
pub struct Position {
    pub member: Member,
    // the position that it was reached from
    pub parent: u8,
    // the most that the link carries toward member 1
    pub toward: Units,
    // and away from member 1
    pub away: Units,
}

// A market's tree by the positions of its walk: position 0 is member 1, and position i the i-th member reached. What stands
// past the members is 0. (An array beside its length, for `Sound` says of every place what a walk's laws need, past it too.)
#[derive(Clone, Copy)]
pub struct Feeder {
    pub members: u8,
    pub position: [Position; 32],
    pub ghost sound: { Sound members position },
}
