// A frame that comes in one burst: skip's own way over the whole of it, where nothing is refused.
ghost use Rattle.std.specs.Prelude.{◌≡◌, ◌+◌};
ghost use Rattle.frame.specs.Machine.{ran};
ghost use Rattle.frame.specs.State.{rest_of, ran_to, Standing, is_first, is_head, is_start, whole_of, ends_at};

use crate::{Level, Nest, Now, Progress, Resting, Stand, Wait};
use skip::Skipped;
use types::{Place, TConfiguration, TType};

fn is_first(top: Nest) -> bool
    ensures { result ≡ is_first top }
{
    match top {
        Nest::Fields(id) => id.0 == 0,
        Nest::Items(_, _) => false,
        Nest::Keys(_, _, _) => false,
        Nest::Values(_, _, _) => false,
    }
}

fn is_head(now: Now) -> bool
    ensures { result ≡ is_head now }
{
    match now {
        Now::Asks(wait) => match wait {
            Wait::Head => true,
            Wait::Truth => false,
            Wait::List => false,
            Wait::Types(_) => false,
            Wait::Varint(_, _) => false,
            Wait::Number(_) => false,
        },
        Now::Done(_) => false,
        Now::Refused(_) => false,
    }
}

// Whether nothing has come of a frame: its struct's first header is waited for.
fn is_start(depth: usize, body: usize, top: Nest, now: Now) -> bool
    ensures { result ≡ is_start depth body top now }
{
    if depth != 1 {
        return false;
    }
    if body != 0 {
        return false;
    }
    if is_head(now) {
        return is_first(top);
    }
    false
}

// The bytes that skip passes over where the burst holds the whole frame; 0 where it does not, or skip refuses it.
fn passed_whole(limits: TConfiguration, left: usize, burst: &[u8]) -> usize
    ensures { result ≡ whole_of limits left burst.now }
{
    if burst.len() < left {
        return 0;
    }
    match skip::skip_value(
        &burst[..left],
        Place(0),
        TType::Struct,
        limits.depth,
        limits,
    ) {
        Skipped::Done(to) => to.0,
        Skipped::Refused(_) => 0,
    }
}

fn ends(levels: [Level; 64]) -> Stand
    ensures { result ≡ ends_at levels }
{
    Stand {
        levels,
        depth: 0,
        body: 0,
        rest: Resting(Now::Done(0)),
    }
}

// Bytes come. A refused frame goes byte by byte, since its state tells where that was.
pub(crate) fn run_from(
    limits: TConfiguration,
    from: Stand,
    left: usize,
    taken: usize,
    burst: &[u8],
) -> Progress
    requires { Standing limits (taken + left) left taken from }
    ensures { (ran_to result ≡ ran limits left taken (rest_of from) burst.now) × Standing limits (taken + left) result.left result.taken result.stand }
{
    if taken == 0 {
        let level = from.levels[0];
        let top = level.0;
        let resting = from.rest;
        let now = resting.0;
        if is_start(from.depth, from.body, top, now) {
            let used = passed_whole(limits, left, burst);
            if 0 < used {
                let levels = from.levels;
                let stand = ends(levels);
                return crate::come_to(left - used, used, stand);
            }
        }
    }
    crate::run(limits, from, left, taken, burst)
}
