// Refusal 9: the first link record whose link joins members already joined by earlier links. The links before it are kept.
ghost use Rattle.std.specs.Prelude.{◌≡◌, ◌≢◌, [], ◌+◌, ◌*◌, ◌≤◌, length, MatchOption};
ghost use Rattle.std.proofs.Math.Option.{none};
ghost use Rattle.problem.specs.Problem.{Link};
ghost use Rattle.records.specs.Records.{entry_at, entries};
ghost use Rattle.records.specs.Records.Entry.{link};
ghost use Rattle.records.specs.Refusals.{file_limit};
ghost use Rattle.records.specs.Market.{links_of};
ghost use Rattle.market.specs.Refusals.{first_record, closes, from9, from10};
ghost use Rattle.market.specs.inner.Feeders.{Finds};
ghost use Rattle.market.specs.inner.Lines.{link_in, kept};

use crate::line::Line;
use arrayvec::ArrayVec;
use network::bits::Members;
use network::parts::{Ends, gathered, holds_both, merged};
use records::{Record, Refusal, Rule, read_at};

// Record i as it is kept, if it is a link. (The clause on the file's length is that of `read_at`.)
fn line_at(file: &[u8], i: usize) -> Option<Line>
    requires { 8 * i + 8 ≤ length file.now }
    ensures { MatchOption result ((l : Link) → entry_at file.now i ≢ link l) (λ x. entry_at file.now i ≡ link (link_in x)) }
{
    let Ok(record) = read_at(file, i) else {
        return None;
    };
    let Record::Link(a, b, capacity) = record else {
        return None;
    };
    let ends = Ends { a, b };
    Some(Line { ends, capacity })
}

// The links of a file of which none closes a ring, else refusal 9 at the first that does. For each earlier link the members of
// its part are kept as a set. A link closes a ring if one of the sets holds both its ends; else the sets that hold one of them
// become one.
pub fn links(file: &[u8]) -> Result<ArrayVec<Line, 31>, Refusal>
    requires { length file.now ≤ file_limit }
    ensures { Finds (λ s. (first_record closes 0 [] (entries file.now) ≡ none) × (kept s.items ≡ links_of (entries file.now))) (from9 file.now) (from10 file.now) result }
{
    let mut links = ArrayVec::new();
    // as many parts as links; an array all the same, for `merged` promises of what stands past them that it stays
    let mut parts = [Members(0); 31];
    let closing = 'closing: {
        'records: for i in 0..file.len() / 8 {
            let Some(line) = line_at(file, i) else {
                continue;
            };
            let mut m = Members::only(line.ends.a).join(Members::only(line.ends.b));
            'parts: for part in &parts[..links.len()] {
                if holds_both(*part, line.ends) {
                    break 'closing Some(i as u16);
                }
                m = gathered(m, *part, line.ends);
            }
            merged(&mut parts, links.len(), line.ends, m);
            links.push(line);
        }
        None
    };
    if let Some(place) = closing {
        return Err(Refusal {
            rule: Rule::ClosesRing,
            place,
        });
    }
    Ok(links)
}
