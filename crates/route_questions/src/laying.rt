// The ranks of a route's answer as numbers.

ghost use Rattle.std.specs.Prelude.{◌<◌, ◌^◌};

use hexes::limits;
use questions::answer::{put, whole};

// Lays out every rank as two numbers, beginning at a place of the answer.
pub(crate) fn lay_ranks(ranks: &[u64], from: usize, numbers: &mut [i64])
    requires { from < 2 ^ 62 }
{
    for (i, rank) in ranks.iter().enumerate() {
        let (cost, steps) = cost_and_steps(*rank);
        put(numbers, from + 2 * i, cost);
        put(numbers, from + 2 * i + 1, steps);
    }
}

// A rank as its cost and its steps, since no word holds the largest; where there is no route, as -1 and 0.
fn cost_and_steps(rank: u64) -> (i64, i64) {
    if rank == limits::NO_RANK {
        return (-1, 0);
    }
    (
        whole(rank / limits::RANK_UNIT),
        whole(rank % limits::RANK_UNIT),
    )
}
