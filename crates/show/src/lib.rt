// A market's answer, or its refusal, as lines on a page.
#![tactic(auto)]

ghost use Rattle.std.specs.Prelude.{◌≡◌, [], ◌∷◌, pos, length, codes, IfErr};
ghost use Rattle.print.specs.inner.Page.{Put, line_of};
ghost use Rattle.records.specs.inner.Cases.{number_of};

use print::Page;
use records::{Kind, Refusal};

const MEMBER: u8 = Kind::Member as u8;

const FLOW: u8 = Kind::Flow as u8;

const TOTAL: u8 = Kind::Total as u8;

// The line of a record of the answer: a member with its net and value, a link with its flow and load, or the total.
fn line(page: &mut Page, record: &[u8])
    ensures lent { page.new.bytes.ghost_name ≡ page.old.bytes.ghost_name }
    ensures kept { length page.new.bytes.now ≡ length page.old.bytes.now }
{
    match *record {
        [MEMBER, member, n0, n1, v0, v1, v2, v3] => {
            let net = i16::from_le_bytes([n0, n1]);
            let value = i32::from_le_bytes([v0, v1, v2, v3]);
            page.line(b"P", &[member.into(), net.into(), value.into()]);
        }
        [FLOW, a, b, _, f0, f1, l0, l1] => {
            let flow = i16::from_le_bytes([f0, f1]);
            let load = u16::from_le_bytes([l0, l1]);
            page.line(b"L", &[a.into(), b.into(), flow.into(), load.into()]);
        }
        [TOTAL, _, _, _, t0, t1, t2, t3] => {
            let total = i32::from_le_bytes([t0, t1, t2, t3]);
            page.line(b"T", &[total.into()]);
        }
        _ => {}
    }
}

// Clears the market of a file, and puts its lines on the page: those of the answer, or the refusal's. The page is on the bytes
// that were lent, and as long as it was.
pub fn lines(file: &[u8], page: &mut Page) -> Result<(), Refusal>
    ensures refusal { IfErr result (λ r. Put page.old.bytes.now page.old.end
        (line_of (codes "R") (pos (number_of r.rule) ∷ pos r.place ∷ [])) page.new.bytes.now page.new.end) }
    ensures lent { page.new.bytes.ghost_name ≡ page.old.bytes.ghost_name }
    ensures kept { length page.new.bytes.now ≡ length page.old.bytes.now }
{
    let mut answer = [0u8; 512];
    let cleared = clearing::clear(file, &mut answer);
    match cleared {
        Ok(n) => {
            for record in answer[..n].chunks_exact(8) {
                line(page, record);
            }
            Ok(())
        }
        Err(refusal) => {
            page.line(b"R", &[refusal.rule.number().into(), refusal.place.into()]);
            Err(refusal)
        }
    }
}
