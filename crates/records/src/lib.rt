// A file is records of 8 bytes. Each record is read as exactly one of a link, an offer and the first record of a span's offer,
// or is refused under a rule, and one pass over the file gives refusals 1 to 4, 13 and 14. Nothing is asked of a file's bytes.
#![tactic(auto)]

ghost use Rattle.std.specs.Prelude.{◌≡◌, ◌&&◌, ◌+◌, ◌*◌, ◌≤◌, leb, ltb, length};
ghost use Rattle.records.specs.Records.{byte, four, units_at, number_at, names, is_price, link_at, point_at, span_of, entry_at};
ghost use Rattle.records.specs.Refusals.{unsound};
ghost use Rattle.records.specs.inner.Cases.{number_of, kind_number, KindOf, bytes_at, fields_of, reading_of, verdict_of};

use numbers::{Amount, Member, Price, Slope, Units, Whole};

// The most bytes that a file has: 31 links and 32 times 64 offers of two records each.
pub const FILE_LIMIT: usize = 33016;

// The other limits, from docs/RULES.md, "Sizes".
const MEMBERS: u8 = 32;

const CAPACITY: u16 = 40;

const LEAST_UNITS: Units = Units(-2000);

const MOST_UNITS: Units = Units(2000);

const LOWEST_PRICE: Amount = Amount(-1000000);

const HIGHEST_PRICE: Amount = Amount(1000000);

// What an offer offers: a price for some units, or for every number of units from a lower to an upper end the slope times it
// plus a base.
#[derive(Clone, Copy)]
pub enum Terms {
    Point(Units, Price),
    Span(Units, Units, Slope, Price),
}

// A record as it is read, if it is not refused: a link's ends and capacity, an offer's member and terms, or the member whose
// span the next record offers. A span is read at the later of its two records; its lower end's range is for the earlier one
// to check.
#[derive(Clone, Copy)]
pub enum Record {
    Link(Member, Member, Units),
    Offer(Member, Terms),
    Begins(Member),
}

// What a file or an answer area is refused for. The table with the numbers is docs/RULES.md, "Refusals"; 8 has no rule there,
// and is never given.
#[derive(Clone, Copy, PartialEq, Eq)]
pub enum Rule {
    TooLong = 1,
    NotWhole = 2,
    UnknownKind = 3,
    OutOfRange = 4,
    NoOffer = 5,
    WithoutOffer = 6,
    TooManyOffers = 7,
    ClosesRing = 9,
    Apart = 10,
    NoRoom = 11,
    Impossible = 12,
    Unpaired = 13,
    BadSpan = 14,
}

impl Rule {
    // The rule's number in the table.
    #[tactic(auto, unfolding(crate::specs::inner::Cases::number_of))]
    pub fn number(self) -> u8
        ensures { result ≡ number_of self }
    {
        self as u8
    }
}

// A refusal: the rule that applies, and the place that the table gives for it.
#[derive(Clone, Copy, PartialEq, Eq)]
pub struct Refusal {
    pub rule: Rule,
    pub place: u16,
}

// The kinds of records, in a file and in an answer, by their numbers in docs/RULES.md.
#[derive(Clone, Copy, PartialEq, Eq)]
pub enum Kind {
    Link = 1,
    Point = 2,
    Member = 3,
    Flow = 4,
    Total = 5,
    Begin = 6,
    End = 7,
}

impl TryFrom<u8> for Kind {
    type Error = Rule;

    ghost try_from_gives = { KindOf };

    #[tactic(auto, unfolding(crate::specs::inner::Cases::kind_number))]
    fn try_from(byte: u8) -> Result<Kind, Rule> {
        match byte {
            1 => Ok(Kind::Link),
            2 => Ok(Kind::Point),
            3 => Ok(Kind::Member),
            4 => Ok(Kind::Flow),
            5 => Ok(Kind::Total),
            6 => Ok(Kind::Begin),
            7 => Ok(Kind::End),
            _ => Err(Rule::UnknownKind),
        }
    }
}

// The bytes of record i. (The clause on the file's length is that of `read_at`, which reads the records beside i too.)
fn bytes_at(file: &[u8], i: usize) -> [u8; 8]
    requires { 8 * i + 8 ≤ length file.now }
    ensures { result ≡ bytes_at file.now i }
{
    let at = 8 * i;
    file[at..at + 8].try_into().unwrap()
}

// An offer's units, from its record's bytes.
fn units(bytes: [u8; 8]) -> Units
    ensures { result.0 ≡ units_at bytes 0 }
{
    Units::from_bits(u16::from_le_bytes([bytes[2], bytes[3]]))
}

// The 32 bits of its number: a point's price, or one of a span's base and slope.
fn number(bytes: [u8; 8]) -> u32
    ensures { result ≡ four bytes 0 4 }
{
    u32::from_le_bytes([bytes[4], bytes[5], bytes[6], bytes[7]])
}

// The record is of this kind and names this member.
#[tactic(auto, unfolding(crate::specs::inner::Cases::kind_number))]
fn names(bytes: [u8; 8], kind: Kind, member: Member) -> bool
    ensures { result ≡ names bytes 0 (kind_number kind) member.0 }
{
    bytes[0] == kind as u8 && bytes[1] == member.0
}

// An offer's member and units, if they are in range.
#[tactic(auto, unfolding(crate::specs::inner::Cases::fields_of))]
fn fields(bytes: [u8; 8]) -> Result<(Member, Units), Rule>
    ensures { result ≡ fields_of bytes }
{
    let member = Member(bytes[1]);
    let units = units(bytes);
    if matches!(member.0, 1..=MEMBERS) && units.within(LEAST_UNITS, MOST_UNITS) {
        Ok((member, units))
    } else {
        Err(Rule::OutOfRange)
    }
}

// Money that is in a price's range.
fn is_price(amount: Amount) -> bool
    ensures { result ≡ is_price amount.0 }
{
    amount.within(LOWEST_PRICE, HIGHEST_PRICE)
}

// A link's numbers are in range, its lower member first.
fn is_link(a: u8, b: u8, capacity: u16) -> bool
    ensures { result ≡ (leb 1 a && ltb a b && leb b 32 && leb capacity 40) }
{
    1 <= a && a < b && b <= MEMBERS && capacity <= CAPACITY
}

// A record of kind 1.
#[tactic(auto, unfolding(crate::specs::Records::link_at, crate::specs::Records::link_of, crate::specs::inner::Cases::reading_of, crate::specs::inner::Cases::rule_of))]
fn link(bytes: [u8; 8]) -> Result<Record, Rule>
    ensures { result ≡ reading_of (link_at bytes 0) }
{
    let [_, a, b, 0, low, high, 0, 0] = bytes else {
        return Err(Rule::OutOfRange);
    };
    let capacity = u16::from_le_bytes([low, high]);
    if is_link(a, b, capacity) {
        Ok(Record::Link(Member(a), Member(b), Units::of(capacity)))
    } else {
        Err(Rule::OutOfRange)
    }
}

// A record of kind 2.
#[tactic(auto, unfolding(crate::specs::Records::point_at, crate::specs::Records::point_of, crate::specs::inner::Cases::fields_of, crate::specs::inner::Cases::reading_of, crate::specs::inner::Cases::terms_of, crate::specs::inner::Cases::rule_of))]
fn point(bytes: [u8; 8]) -> Result<Record, Rule>
    ensures { result ≡ reading_of (point_at bytes 0) }
{
    let (member, units) = fields(bytes)?;
    let price = Price::from_bits(number(bytes));
    if is_price(Amount::from(price)) {
        Ok(Record::Offer(member, Terms::Point(units, price)))
    } else {
        Err(Rule::OutOfRange)
    }
}

// A span, from the bytes of its two records. (Inlined: a call of its own costs a file of spans a tenth of its reading.)
#[inline(always)]
#[tactic(auto, unfolding(crate::specs::Records::span_of, crate::specs::Records::bad_span, crate::specs::inner::Cases::reading_of, crate::specs::inner::Cases::terms_of, crate::specs::inner::Cases::rule_of))]
fn span(first: [u8; 8], last: [u8; 8]) -> Result<Record, Rule>
    ensures { result ≡ reading_of (span_of (byte last 0 1) (units_at first 0) (units_at last 0) (number_at last 0) (number_at first 0)) }
{
    let (low, high) = (units(first), units(last));
    let slope = Slope::from_bits(number(last));
    let base = Price::from_bits(number(first));
    if low <= high && is_price(slope.amount(low, base)) && is_price(slope.amount(high, base)) {
        Ok(Record::Offer(Member(last[1]), Terms::Span(low, high, slope, base)))
    } else {
        Err(Rule::BadSpan)
    }
}

// Record i of the file, kind before fields.
#[tactic(auto, unfolding(crate::specs::Records::entry_at, crate::specs::Records::unbegun, crate::specs::Records::link_at, crate::specs::Records::point_at, crate::specs::Records::begin_at, crate::specs::Records::unfinished, crate::specs::Records::span_at, crate::specs::inner::Cases::kind_number, crate::specs::inner::Cases::fields_of, crate::specs::inner::Cases::reading_of, crate::specs::inner::Cases::rule_of))]
pub fn read_at(file: &[u8], i: usize) -> Result<Record, Rule>
    requires { 8 * i + 8 ≤ length file.now }
    ensures { result ≡ reading_of (entry_at file.now i) }
{
    let bytes = bytes_at(file, i);
    match Kind::try_from(bytes[0])? {
        Kind::Link => link(bytes),
        Kind::Point => point(bytes),
        Kind::Begin => {
            let (member, _) = fields(bytes)?;
            if i + 1 < file.len() / 8 && names(bytes_at(file, i + 1), Kind::End, member) {
                Ok(Record::Begins(member))
            } else {
                Err(Rule::Unpaired)
            }
        }
        Kind::End => {
            let (member, _) = fields(bytes)?;
            if i == 0 {
                return Err(Rule::Unpaired);
            }
            let first = bytes_at(file, i - 1);
            if names(first, Kind::Begin, member) {
                span(first, bytes)
            } else {
                Err(Rule::Unpaired)
            }
        }
        Kind::Member | Kind::Flow | Kind::Total => Err(Rule::UnknownKind),
    }
}

// Refusals 1 to 4, 13 and 14.
pub fn check_records(file: &[u8]) -> Result<(), Refusal>
    ensures { result ≡ verdict_of (unsound file.now) }
{
    let len = file.len();
    if FILE_LIMIT < len {
        return Err(Refusal {
            rule: Rule::TooLong,
            place: 0,
        });
    }
    if len % 8 != 0 {
        return Err(Refusal {
            rule: Rule::NotWhole,
            place: 0,
        });
    }
    for i in 0..len / 8 {
        if let Err(rule) = read_at(file, i) {
            return Err(Refusal {
                rule,
                place: i as u16,
            });
        }
    }
    Ok(())
}
