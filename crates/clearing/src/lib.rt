// A market has one answer: the allocation of highest total, by the tie rule among equals, written as records into the
// answer area; or a refusal, which leaves the area as it was. Nothing is asked of the file or of the area.
#![tactic(auto)]

ghost use Rattle.std.specs.Prelude.{◌≡◌, ◌*◌, ◌≤◌, length, IfOk};
ghost use Rattle.problem.specs.Problem.{Market};
ghost use Rattle.clearing.specs.Outcome.{Outcome};
ghost use Rattle.clearing.specs.Promise.{Result};
ghost use Rattle.clearing.specs.inner.Words.{Held, returned};

use network::Feeder;
use records::{Refusal, Rule};

// What becomes of a market, given as its feeder and the records that hold its tables, in an area that has room.
fn allocate(records: &[u8], feeder: &Feeder, answer: &mut [u8]) -> Result<usize, Refusal>
    requires held { (m : Market) × Held m feeder.now records.now }
    requires room { 16 * feeder.now.members ≤ length answer.old }
    ensures outcome { (m : Market) → Held m feeder.now records.now → Outcome m answer.old (returned result) answer.new }
    ensures size { IfOk result (λ n. n ≤ 512) }
{
    let Ok(solution) = engine::solve(feeder, records) else {
        return Err(Refusal {
            rule: Rule::Impossible,
            place: 0,
        });
    };
    let total = rows::total_of(solution.best, feeder.members);
    answer::write(records, feeder, &solution.trades, total, answer);
    Ok(16 * feeder.members as usize)
}

// Clears the market of a file into the answer area: the number of bytes written, or the refusal.
#[tactic(auto, using(crate::proofs::Refused::file_held, crate::proofs::Refused::file_refused))]
pub fn clear(file: &[u8], answer: &mut [u8]) -> Result<usize, Refusal>
    ensures promise { Result file.now answer.old (returned result) answer.new }
    ensures size { IfOk result (λ n. n ≤ 512) }
{
    let feeder = market::market(file)?;
    let size = 16 * feeder.members as usize;
    // named, so that the goal past the test keeps its name under the edit `room_of_the_file`
    let short = answer.len() < size;
    if short {
        return Err(Refusal {
            rule: Rule::NoRoom,
            place: size as u16,
        });
    }
    allocate(file, &feeder, answer)
}
