// What a file's records say of its members and offers: one pass counts them, and refusals 5 to 7 are read from the counts. A
// record that is at fault counts for nothing here.
ghost use Rattle.std.specs.Prelude.{◌≡◌, ℕ, ◌+◌, ◌*◌, ◌<◌, ◌≤◌, max, length, get_or, take, position, IfSome};
ghost use Rattle.records.specs.Records.{entry_at, entries};
ghost use Rattle.records.specs.Refusals.{file_limit};
ghost use Rattle.records.specs.Market.{members_of};
ghost use Rattle.market.specs.Refusals.{from5, from9};
ghost use Rattle.market.specs.inner.Feeders.{Finds};
ghost use Rattle.market.specs.inner.Tallies.{Offered, Counts, outside};

use numbers::Member;
use records::{Record, Refusal, Rule, read_at};

// The highest member number in any record, the number of offers, and how many each member has; member 1 stands first.
#[derive(Clone, Copy)]
pub struct Tally {
    pub members: Member,
    pub offers: u16,
    pub by: [u16; 32],
}

impl Tally {
    // One record more, which names member m.
    fn named(&mut self, m: Member)
        ensures { (self.new.members.0 ≡ max self.old.members.0 m.0) × (self.new.offers ≡ self.old.offers) × (self.new.by ≡ self.old.by) }
    {
        self.members = self.members.max(m);
    }

    // One offer more, of member m.
    fn offered(&mut self, m: Member)
        requires { (1 ≤ m.0) × (m.0 ≤ 32) × (self.old.offers < 65535) × ((j : ℕ) → j < 32 → get_or self.old.by j 0 < 65535) }
        ensures { Offered m.0 self.old self.new }
    {
        self.named(m);
        self.offers += 1;
        self.by[m.index()] += 1;
    }

    // Record i more. (The clause on the file's length is that of `read_at`, whose promise is by a record's place.)
    fn counted(&mut self, file: &[u8], i: usize)
        requires { (8 * i + 8 ≤ length file.now) × (self.old.offers < 65535) × ((j : ℕ) → j < 32 → get_or self.old.by j 0 < 65535) }
        ensures { Counts (entry_at file.now i) self.old self.new }
    {
        match read_at(file, i) {
            Ok(Record::Link(a, b, _)) => {
                self.named(a);
                self.named(b);
            }
            Ok(Record::Offer(m, _)) => self.offered(m),
            Ok(Record::Begins(m)) => self.named(m),
            Err(_) => {}
        }
    }

    // The index of the lowest member that has fewer than `least` offers or more than `most`.
    fn lowest_outside(&self, least: u16, most: u16) -> Option<usize>
        requires { self.now.members.0 ≤ 32 }
        ensures first { result ≡ position (outside least most) (take self.now.members.0 self.now.by) }
        ensures bound { IfSome result (λ j. j < self.now.members.0) }
    {
        self.by[..usize::from(self.members.0)]
            .iter()
            .position(|count| *count < least || most < *count)
    }
}

// The tally of a file that has an offer and from 1 to 64 of each member, else refusal 5, 6 or 7.
pub fn offers(file: &[u8]) -> Result<Tally, Refusal>
    requires { length file.now ≤ file_limit }
    ensures { Finds (λ t. (t.members.0 ≡ members_of (entries file.now)) × (1 ≤ t.members.0)) (from5 file.now) (from9 file.now) result }
{
    let mut t = Tally {
        members: Member(0),
        offers: 0,
        by: [0; 32],
    };
    for i in 0..file.len() / 8 {
        t.counted(file, i);
    }
    if t.offers == 0 {
        return Err(Refusal {
            rule: Rule::NoOffer,
            place: 0,
        });
    }
    if let Some(j) = t.lowest_outside(1, u16::MAX) {
        return Err(Refusal {
            rule: Rule::WithoutOffer,
            place: member_place(j),
        });
    }
    if let Some(j) = t.lowest_outside(0, 64) {
        return Err(Refusal {
            rule: Rule::TooManyOffers,
            place: member_place(j),
        });
    }
    Ok(t)
}

// The number of the member at an index, as a refusal's place.
fn member_place(index: usize) -> u16
    requires { index < 32 }
    ensures { result ≡ index + 1 }
{
    u16::from(Member::at(index).0)
}
