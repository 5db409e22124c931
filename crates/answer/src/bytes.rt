// One record of the answer each.
ghost use Rattle.std.specs.Prelude.{◌≡◌, ℕ, ◌≤◌, nat_abs};
ghost use Rattle.problem.specs.Problem.{Link, load as load_of};
ghost use Rattle.records.specs.Answer.{member_bytes, link_record, total_record};

use numbers::{Member, Price, Units};
use records::Kind;

const MEMBER: u8 = Kind::Member as u8;

const FLOW: u8 = Kind::Flow as u8;

const TOTAL: u8 = Kind::Total as u8;

// A member's record.
#[tactic(auto, unfolding(records::specs::Answer::member_bytes, records::specs::Answer::low16, records::specs::Answer::low32))]
pub fn member(j: Member, net: Units, value: Price) -> [u8; 8]
    ensures { result ≡ member_bytes j.0 net.0 value.0 }
{
    let [n0, n1] = net.bits().to_le_bytes();
    let [v0, v1, v2, v3] = value.bits().to_le_bytes();
    [MEMBER, j.0, n0, n1, v0, v1, v2, v3]
}

// A link's load: thousandths of its capacity, or the mark for a link that has none.
#[tactic(auto, unfolding(problem::specs::Problem::load))]
pub fn load_of(capacity: Units, flow: Units) -> u16
    requires { (nat_abs capacity.0 ≤ 40) × (nat_abs flow.0 ≤ nat_abs capacity.0) }
    ensures { (a b : ℕ) → result ≡ load_of (record { a = a; b = b; capacity = nat_abs capacity.0 }) flow.0 }
{
    let thousandths = 1000 * flow.size();
    thousandths.checked_div(capacity.size()).unwrap_or(9999)
}

// A link's record.
#[tactic(auto, unfolding(records::specs::Answer::link_record, records::specs::Answer::low16))]
pub fn link(a: Member, b: Member, flow: Units, load: u16) -> [u8; 8]
    ensures { (capacity : ℕ) → let l : Link = record { a = a.0; b = b.0; capacity = capacity } in load ≡ load_of l flow.0 → result ≡ link_record l flow.0 }
{
    let [y0, y1] = flow.bits().to_le_bytes();
    let [z0, z1] = load.to_le_bytes();
    [FLOW, a.0, b.0, 0, y0, y1, z0, z1]
}

// The total's record.
#[tactic(auto, unfolding(records::specs::Answer::total_record, records::specs::Answer::low32))]
pub fn total(total: Price) -> [u8; 8]
    ensures { result ≡ total_record total.0 }
{
    let [v0, v1, v2, v3] = total.bits().to_le_bytes();
    [TOTAL, 0, 0, 0, v0, v1, v2, v3]
}
