// A set of values below 64 as one number: its bit v says whether v may follow a prefix.
ghost use Rattle.std.specs.Prelude.{◌≡◌, ◌≤◌, ◌<◌};
ghost use Rattle.listing.specs.Inner.{Forbids, forbidden};

// The set without the values from low up to below high.
pub fn without(set: u64, low: usize, high: usize) -> u64
    requires { high ≤ 64 }
    ensures { Forbids set low high result }
{
    if high <= low {
        return set;
    }
    let kept = set % (1u64 << low);
    if high == 64 {
        return kept;
    }
    kept + ((set >> high) << high)
}

// Is the value not in the set?
#[tactic(auto, unfolding(crate::specs::Inner::forbidden, crate::specs::Inner::bit))]
pub fn lacks(set: u64, v: usize) -> bool
    requires { v < 64 }
    ensures { result ≡ forbidden set v }
{
    (set >> v) % 2 == 0
}
