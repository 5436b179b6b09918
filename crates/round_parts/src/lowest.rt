// The lowest limit so far, and whether the rounds are over.
ghost use Rattle.std.specs.Prelude.{◌≡◌, cond, ◌||◌, ltb, eqb, length};

// The limit of some prices takes the place of the lowest so far only if it is lower, and these prices that of
// its list; returns the limit that stays.
pub fn keep_lower(seen: u32, limit: u32, prices: &[u16], lowest: &mut [u16]) -> u32
    requires { length prices.now ≡ length lowest.old }
    ensures value { result ≡ cond (ltb seen limit) seen limit }
    ensures lowest_after { lowest.new ≡ cond (ltb seen limit) prices.now lowest.old }
{
    if limit <= seen {
        return limit;
    }
    lowest.copy_from_slice(prices);
    seen
}

// Whether the rounds are over after a look.
pub fn is_over(limit: u32, worth: u32, made: u32, rounds: u32) -> bool
    ensures { result ≡ (eqb limit worth || eqb made rounds) }
{
    (limit == worth) | (made == rounds)
}
