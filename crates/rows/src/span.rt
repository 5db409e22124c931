// Lines of prices: what a member is offered, read for some units or taken into a row of cells.
ghost use Rattle.std.specs.Prelude.{◌≡◌, ℕ, ◌≤◌, ◌<◌, max, ltb, ℤ, pos, ◌-ℤ◌, ◌≤ℤ◌, length, slice_index, EachIndex};
ghost use Rattle.std.specs.Int.Signed.{le_z};
ghost use Rattle.problem.specs.Problem.{worth};
ghost use Rattle.problem.proofs.Prices.{Limited};
ghost use Rattle.records.specs.inner.Cases.{terms_in};
ghost use Rattle.rows.specs.inner.Lines.{Ranged};

use numbers::{Price, Slope, Units, Whole};
use records::Terms;

// A line over each number of units from low to high: slope times units plus base, all of it in a price's range.
#[derive(Clone, Copy)]
pub struct Span {
    low: Units,
    high: Units,
    slope: Slope,
    base: Price,
    ghost ranged: { Ranged low.0 high.0 slope.0 base.0 },
}

impl Span {
    ghost use Rattle.rows.specs.inner.Rows.{spanned, cell_in};

    // An offer as a span: a point is a span of its own units alone, with slope 0.
    pub fn of(t: Terms) -> Span
        requires { (x : ℤ) → Limited 1000000 (worth (terms_in t) x) }
        ensures { (x : ℤ) → worth (terms_in t) x ≡ worth (spanned result) x }
    {
        match t {
            Terms::Point(units, price) => Span {
                low: units,
                high: units,
                slope: Slope(0),
                base: price,
            },
            Terms::Span(low, high, slope, base) => Span {
                low,
                high,
                slope,
                base,
            },
        }
    }

    // The cell for x units.
    pub fn cell(self, x: Units) -> u32
        ensures { result ≡ cell_in self x.0 }
    {
        if x.within(self.low, self.high) {
            crate::cell_of(self.slope.amount(x, self.base))
        } else {
            0
        }
    }

    // Taken into a row whose cell x is for top - x units: each cell that the span covers becomes the higher of what it holds
    // and what the span gives, which falls by the slope from cell to cell, the units falling by one.
    pub fn put(self, top: Units, row: &mut [u32])
        ensures { EachIndex row.old (λ x. slice_index row.new x ≡ max (slice_index row.old x) (cell_in self (top.0 -ℤ pos x))) }
    {
        let first = self.high.min(top);
        let start = place_of(top, first);
        let end = cells_to(top, self.low, row.len());
        let mut p = self.slope.amount(first, self.base);
        for x in start..end {
            row[x] = row[x].max(crate::cell_of(p));
            p = p.less(self.slope);
        }
    }
}

// The place of u units in a row whose cell 0 is for top units.
fn place_of(top: Units, u: Units) -> usize
    requires { u.0 ≤ℤ top.0 }
    ensures { pos result ≡ top.0 -ℤ u.0 }
{
    (top.number() - u.number()) as usize
}

// How many of n cells are for at least `low` units, in a row whose cell 0 is for top units.
fn cells_to(top: Units, low: Units, n: usize) -> usize
    ensures { (result ≤ n) × ((x : ℕ) → x < n → le_z low.0 (top.0 -ℤ pos x) ≡ ltb x result) }
{
    if top < low {
        return 0;
    }
    let end = place_of(top, low) + 1;
    end.min(n)
}
