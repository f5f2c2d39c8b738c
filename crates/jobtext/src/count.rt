//! How many rays a job asks for.

ghost use Rattle.std.specs.Prelude.{◌≡◌, ◌<◌, ◌+◌, ◌*◌, ◌^◌, nat_lt};
ghost use Rattle.lensmodel.specs.Setup.Launches.{count as ray_count, job_count};

use lensmodel::job::Ask;

/// The most rays of a job.
const MAX_RAYS: u128 = 10_000;

/// Whether a job asks for more than 10,000 rays in all.
pub fn has_too_many_rays(asks: &[Ask]) -> bool
    ensures { result ≡ nat_lt 10_000 (job_count asks.now) }
{
    let mut total = 0;
    for ask in asks {
        total += count(ask);
        if total > MAX_RAYS {
            return true;
        }
    }
    false
}

/// How many rays a line asks for.
#[tactic(auto, unfolding(lensmodel::specs::Setup::Launches::count))]
fn count(ask: &Ask) -> u128
    ensures value { result ≡ ray_count ask.now }
    ensures bound { result < 2 ^ 68 }
{
    match *ask {
        Ask::Ray { .. } => 1,
        Ask::Aim { .. } => 1,
        Ask::Fan { n, .. } => 2 * side(n),
        Ask::Spot { n, .. } => side(n) * side(n),
        Ask::First { .. } => 0,
        Ask::Seidel { .. } => 0,
    }
}

/// How many rays stand on a line through the pupil's middle, with `n` on each side of it.
fn side(n: u32) -> u128
    ensures value { result ≡ 2 * n + 1 }
    ensures bound { result < 2 ^ 34 }
{
    2 * u128::from(n) + 1
}
