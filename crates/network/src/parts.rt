// The parts that links join: for each link the set of the members of its part. A link closes a ring if one of the sets holds
// both its ends; else the sets that hold one of them become one.
ghost use Rattle.std.specs.Prelude.{◌≡◌, ◌&&◌, ◌<◌, cond};
ghost use Rattle.std.specs.Int.Bits.{bit_or};
ghost use Rattle.network.specs.inner.Sets.{Numbered, index, holds, set_in};
ghost use Rattle.network.specs.inner.Parts.{touches, Merged};

use crate::bits::Members;
use numbers::Member;

// The two members that a link joins.
#[derive(Clone, Copy)]
pub struct Ends {
    pub a: Member,
    pub b: Member,
    pub ghost numbered: { Numbered a × Numbered b },
}

pub fn holds_both(part: Members, link: Ends) -> bool
    ensures { result ≡ (holds part.0 (index link.a) && holds part.0 (index link.b)) }
{
    part.has(link.a) && part.has(link.b)
}

fn touched(part: Members, link: Ends) -> bool
    ensures { result ≡ touches part.0 (index link.a) (index link.b) }
{
    part.has(link.a) || part.has(link.b)
}

// The set m with the members of the part, where it holds an end of the link.
pub fn gathered(m: Members, part: Members, link: Ends) -> Members
    ensures { result.0 ≡ cond (touches part.0 (index link.a) (index link.b)) (bit_or m.0 part.0) m.0 }
{
    if touched(part, link) { m.join(part) } else { m }
}

// Of the parts of count links those that hold an end of the link are made one, m, which is also the link's. The whole array
// is lent, and not the links' places alone, since it is promised that what stands past them stays (Merged).
pub fn merged(parts: &mut [Members; 31], count: usize, link: Ends, m: Members)
    requires { count < 31 }
    ensures { Merged (set_in parts.old) (set_in parts.new) count (index link.a) (index link.b) m.0 }
{
    for part in parts[..count].iter_mut() {
        if touched(*part, link) {
            *part = m;
        }
    }
    parts[count] = m;
}
