// Sets of members as the bits of a number: a member's bit is its index.
ghost use Rattle.std.specs.Prelude.{◌≡◌, ◌≢◌, ◌+◌, ◌<◌, ◌≤◌, ◌^◌, MatchOption};
ghost use Rattle.std.specs.Int.{w32, trailing_zeros};
ghost use Rattle.std.specs.Int.Bits.{bit_or};
ghost use Rattle.network.specs.inner.Sets.{Numbered, index, holds, Lowest};
ghost use Rattle.network.specs.inner.Walks.{free_mask};

use numbers::Member;

// A set of members from 1 to 32.
#[derive(Clone, Copy, PartialEq, Eq)]
pub struct Members(pub u32);

impl Members {
    #[tactic(auto, unfolding(crate::specs::inner::Sets::holds))]
    pub fn has(self, member: Member) -> bool
        requires { Numbered member }
        ensures { result ≡ holds self.0 (index member) }
    {
        (self.0 >> member.index()) % 2 == 1
    }

    // The set of the member alone.
    pub fn only(member: Member) -> Members
        requires { Numbered member }
        ensures { result.0 ≡ 2 ^ index member }
    {
        Members(1 << member.index())
    }

    // The members of either set.
    pub fn join(self, other: Members) -> Members
        ensures { result.0 ≡ bit_or self.0 other.0 }
    {
        Members(self.0 | other.0)
    }

    // The set and the member.
    pub(crate) fn with(self, member: Member) -> Members
        requires { Numbered member }
        ensures { result.0 ≡ bit_or self.0 (2 ^ index member) }
    {
        self.join(Members::only(member))
    }

    // The members of the set that are not in the other.
    pub(crate) fn without(self, other: Members) -> Members
        ensures { result.0 ≡ free_mask self.0 other.0 }
    {
        Members(self.0 & !other.0)
    }

    pub(crate) fn lowest(self) -> Option<Member>
        ensures { MatchOption result (self.0 ≡ 0) (λ v. (self.0 ≢ 0) × (v.0 ≡ trailing_zeros w32 self.0 + 1)) }
    {
        if self.0 == 0 {
            return None;
        }
        Some(Member::at(self.0.trailing_zeros() as usize))
    }

    // The lowest member that is not in the set, of those up to the last one.
    pub fn lowest_missing(self, last: Member) -> Option<Member>
        requires { (last.0 ≤ 32) × (self.0 < 2 ^ last.0) }
        ensures { MatchOption result (Lowest self.0 last.0 last.0) (λ v. (1 ≤ v.0) × (v.0 ≤ last.0) × Lowest self.0 last.0 (index v)) }
    {
        if self.0.count_ones() == u32::from(last.0) {
            None
        } else {
            Some(Member::at((!self.0).trailing_zeros() as usize))
        }
    }
}
