// Rows of cells. A cell is a price or none in one number: 0 is none, and v + 1 is the price v - 1,000,000, so that the
// higher cell is the better one. It is no Option, whose rows would take twice the memory, and memory is fixed. A member's table
// is read from the records as a row, and a message is taken into a row. Prices become cells in `cell_of` and cells become
// prices in `total_of`, nowhere else.
#![tactic(auto)]

ghost use Rattle.std.specs.Prelude.{◌≡◌, ℕ, ◌+◌, ◌*◌, ◌-◌, ◌^◌, ◌≤◌, ◌<◌, pos, neg_ℤ, ◌-ℤ◌, length, slice_index, EachIndex, IsTrue};
ghost use Rattle.std.proofs.Math.Option.{some};
ghost use Rattle.numbers.specs.Whole.{within};
ghost use Rattle.problem.specs.Problem.{value};
ghost use Rattle.problem.proofs.Cell.{◌⊕◌};
ghost use Rattle.problem.proofs.Max.{max_to, argmax};
ghost use Rattle.problem.proofs.Prices.{cell_of};
ghost use Rattle.records.specs.Records.{entries};
ghost use Rattle.records.specs.Market.{offers_of};
ghost use Rattle.rows.specs.inner.Rows.{given, Offers, worth_of, meets, Combined};

use numbers::{Amount, Member, Price, Units, Whole};
use records::{Kind, Record};

mod span;

use span::Span;

// The cell of an amount that is in a price's range.
fn cell_of(p: Amount) -> u32
    requires { IsTrue (within (neg_ℤ (pos 1000000)) (pos 1000000) p.0) }
    ensures { result ≡ cell_of 1000000 (some p.0) }
{
    (p.number() + 1000001) as u32
}

// The price of a cell that sums n prices, and is not none.
pub fn total_of(best: u32, n: u8) -> Price
    requires { (1 ≤ best) × (best ≤ 2 ^ 31) }
    ensures { result.0 ≡ pos (best - 1) -ℤ pos (n * 1000000) }
{
    let shift = i32::from(n) * 1000000;
    Price((best - 1) as i32 - shift)
}

// What record i offers member j. A record of another member, or one that only begins a span, is not read any further. (The
// clause on the records' length is that of `read_at`.)
fn offer_at(records: &[u8], i: usize, j: Member) -> Option<Span>
    requires { 8 * i + 8 ≤ length records.now }
    ensures { Offers (given records.now i j.0) result }
{
    if records[8 * i + 1] != j.0 || records[8 * i] == Kind::Begin as u8 {
        return None;
    }
    let Record::Offer(_, t) = records::read_at(records, i).ok()? else {
        return None;
    };
    Some(Span::of(t))
}

// The cell that member j's table gives for x units.
fn cell_at(records: &[u8], j: Member, x: Units) -> u32
    ensures { result ≡ cell_of 1000000 (value (offers_of (entries records.now)) j.0 x.0) }
{
    let mut best: u32 = 0;
    for i in 0..records.len() / 8 {
        if let Some(s) = offer_at(records, i, j) {
            best = best.max(s.cell(x));
        }
    }
    best
}

// What x units are worth to member j: the highest price that its table gives for them, or none.
pub fn value_of(records: &[u8], j: Member, x: Units) -> Option<Price>
    ensures { result ≡ worth_of (value (offers_of (entries records.now)) j.0 x.0) }
{
    match cell_at(records, j, x) {
        0 => None,
        best => Some(total_of(best, 1)),
    }
}

// Member j's own row: cell x is what its table gives for top - x units.
pub fn own_row(records: &[u8], j: Member, top: Units, row: &mut [u32])
    ensures { EachIndex row.old (λ x. slice_index row.new x ≡ cell_of 1000000 (value (offers_of (entries records.now)) j.0 (top.0 -ℤ pos x))) }
{
    row.fill(0);
    for i in 0..records.len() / 8 {
        if let Some(s) = offer_at(records, i, j) {
            s.put(top, row);
        }
    }
}

// The sum of two cells: none where either is none.
fn sum(a: u32, b: u32) -> u32
    requires { (a < 2 ^ 31) × (b < 2 ^ 31) }
    ensures { result ≡ a ⊕ b }
{
    if a == 0 || b == 0 { 0 } else { a + b - 1 }
}

#[derive(Clone, Copy)]
struct Found {
    best: u32,
    pick: u8,
}

// One cell: the best over p of msg[p] with row[x + w - p], where w is the message's last place, and the smallest p that has it.
fn cell(row: &[u32], msg: &[u32], x: usize) -> Found
    requires sizes { (1 ≤ length msg.now) × (length msg.now ≤ 81) × (x + length msg.now ≤ length row.now) }
    requires values { ((y : ℕ) → x ≤ y → y < length row.now → slice_index row.now y < 2 ^ 31) × EachIndex msg.now (λ p. slice_index msg.now p < 2 ^ 31) }
    ensures { (result.best ≡ max_to (meets row.now msg.now x) (length msg.now - 1)) × (result.pick ≡ argmax (meets row.now msg.now x) (length msg.now - 1)) }
{
    let w = msg.len() - 1;
    let mut best = sum(msg[0], row[x + w]);
    let mut pick: u8 = 0;
    for p in 1..msg.len() {
        let s = sum(msg[p], row[x + (w - p)]);
        if best < s {
            best = s;
            pick = p as u8;
        }
    }
    Found { best, pick }
}

// A message taken into a row, with the choice that each cell was made by. The row is worked out where it stands: a cell is made
// of the old cells from its own place on, so with x rising no cell is read after it is written. The cells and choices past
// those that are left stay.
pub fn combine(row: &mut [u32], msg: &[u32], choice: &mut [u8])
    requires sizes { (1 ≤ length msg.now) × (length msg.now ≤ 81) × (length msg.now ≤ length row.old) × (length row.old + 1 ≤ length choice.old + length msg.now) }
    requires values { EachIndex row.old (λ y. slice_index row.old y < 2 ^ 31) × EachIndex msg.now (λ p. slice_index msg.now p < 2 ^ 31) }
    ensures { Combined row.old msg.now choice.old row.new choice.new }
{
    let left = row.len() + 1 - msg.len();
    for x in 0..left {
        let c = cell(row, msg, x);
        row[x] = c.best;
        choice[x] = c.pick;
    }
}
