// How many choices the links around a position have.
ghost use Rattle.std.specs.Prelude.{◌≡◌, ℕ, ◌+◌, ◌≤◌, ◌<◌, pos};
ghost use Rattle.problem.proofs.Reach.{reach};
ghost use Rattle.network.specs.inner.Feeders.{toward_at, away_at};
ghost use Rattle.engine.specs.inner.Words.{walk_of, top_of};

use crate::stores::ROW;
use network::Feeder;
use numbers::Units;

// How many choices the link of position i has, less 1.
pub fn width(feeder: &Feeder, i: usize) -> u16
    requires { i < 32 }
    ensures { result ≡ toward_at feeder.now i + away_at feeder.now i }
{
    feeder.position[i].toward.size() + feeder.position[i].away.size()
}

// The most units that the member at v can buy.
#[tactic(auto, using(crate::proofs::Tops::top_start, crate::proofs::Tops::top_kid, crate::proofs::Tops::top_not, crate::proofs::Tops::link_few, crate::proofs::Tops::top_end))]
pub fn top(feeder: &Feeder, v: usize) -> Units
    requires { v < feeder.now.members }
    ensures { result.0 ≡ pos (top_of feeder.now v) }
{
    let mut sum = feeder.position[v].away.size();
    for k in 1..feeder.members as usize {
        if feeder.position[k].parent as usize == v {
            sum += feeder.position[k].toward.size();
        }
    }
    Units::of(sum)
}

// How many cells the row of v has.
#[tactic(auto, using(crate::proofs::Shape::row_first, crate::proofs::Shape::row_kid, crate::proofs::Shape::row_not, crate::proofs::Shape::width_few, crate::proofs::Shape::width_near))]
pub fn row_len(feeder: &Feeder, v: usize) -> usize
    requires { v < feeder.now.members }
    ensures few { result ≤ ROW }
    ensures joined { (own : ℕ → ℕ → ℕ) → result ≡ 1 + reach (walk_of feeder.now own) feeder.now.members v }
{
    let mut len = 1 + width(feeder, v);
    for k in v + 1..feeder.members as usize {
        if feeder.position[k].parent as usize == v {
            len += width(feeder, k);
        }
    }
    len as usize
}
