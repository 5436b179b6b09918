// Rounds in which prices move, whatever the rule: a look at the prices, then a round, until the lowest limit is
// the best worth or no round is left.

#![tactic(auto)]

ghost use Rattle.choice_map.specs.Choice.{choice_in, Clean};
ghost use Rattle.selection.specs.Asked.{NumbersOf};
ghost use Rattle.price_rule.specs.Rules.{size_of, RulePosed, RowsFor};
ghost use Rattle.price_rounds.specs.Rounds.{task_by, chosen_from, BetterKept, RoundsStart, ReachedFrom};

use conflict_sets::ROW_WORDS;
use hall_look::MINUTES;
use instance::{MAP_BYTES, MOST_TURNS, PLACES};
use price_rule::PriceRule;
use round_parts::{is_over, keep_lower, next_change, put_list, put_ranks};
use selection::ASKED;
use shift_look::ORDERS;

// A hall has a price for each minute; the slopes and turns of a shift are fewer.
const MOST_PRICES: usize = MINUTES;

// Above every limit: the first look finds a lower one. The definition starts from the first limit itself;
// FirstLook.antt shows that both come to the same. No Option, since keep_lower of round_parts compares numbers.
const NO_LIMIT: u32 = u32::MAX;

// The most rounds, and the worth of the choice to start from.
#[derive(Clone, Copy)]
pub struct Start {
    pub rounds: u32,
    pub worth: u32,
}

// What the rounds came to, beside price list and choice.
#[derive(Clone, Copy)]
pub struct Reached {
    pub limit: u32,
    pub worth: u32,
    pub rounds: u32,
}

// The choice made from a list takes the place of the best so far only if it is worth more; returns the worth of
// the one that stays.
fn keep_better<R: PriceRule>(
    rule: R,
    worth: u32,
    cols: &[u16; PLACES],
    rows: &[u64; ROW_WORDS],
    list: &[u16],
    best: &mut [u8],
) -> u32
    requires rule_posed { RulePosed (R.rule rule) cols.now × NumbersOf (size_of (R.rule rule)).count list.now × RowsFor (R.rule rule) cols.now rows.now }
    requires clean { Clean (size_of (R.rule rule)).count best.old }
    ensures better_kept { BetterKept (R.rule rule) cols.now (chosen_from (R.rule rule) cols.now list.now)
        (choice_in (size_of (R.rule rule)).count best.old) worth (choice_in (size_of (R.rule rule)).count best.new) result }
    ensures clean_2 { Clean (size_of (R.rule rule)).count best.new }
{
    let mut space = [0u8; MAP_BYTES];
    let map = &mut space[..best.len()];
    let found = rule.choose_listed(cols, rows, list, map);
    if worth < found {
        best.copy_from_slice(map);
        found
    } else {
        worth
    }
}

// Makes the rounds of a shift or of a hall, from prices of 0 and the choice in `best`. That is the best choice then, and
// `kept` has the prices of the lowest limit. The room is scratch space.
pub fn make_rounds<R: PriceRule>(
    rule: R,
    s: Start,
    cols: &[u16; PLACES],
    kept: &mut [u16],
    best: &mut [u8],
    room: &mut [u16; PLACES],
) -> Reached
    requires { RoundsStart (task_by (R.rule rule) s) cols.now kept.old best.old room.old }
    ensures { ReachedFrom (task_by (R.rule rule) s) cols.now best.old result kept.new best.new }
{
    let p = rule.size();
    let mut orders = [0u16; ORDERS];
    let mut rows = [0u64; ROW_WORDS];
    rule.put_orders(cols, &mut orders, room, &mut rows);
    let mut places = [0u16; MOST_TURNS];
    let ranks = &mut places[..p.count];
    put_ranks(p, cols, ranks);
    let mut space = [0u16; MOST_PRICES];
    let prices = &mut space[..kept.len()];
    let mut change = rule.first_change(cols);
    let mut limit = NO_LIMIT;
    let mut worth = s.worth;
    let mut made = 0;
    // A `loop`: a `for` over the rounds would have an end that is never come to, as is_over tells first.
    loop {
        let mut map = [0u8; MAP_BYTES];
        let relaxed = &mut map[..best.len()];
        let seen = rule.look_at(cols, &orders, prices, relaxed);
        limit = keep_lower(seen, limit, prices, kept);
        let mut numbers = [0u16; ASKED];
        let count = put_list(ranks, relaxed, &mut numbers);
        let list = &numbers[..count];
        worth = keep_better(rule, worth, cols, &rows, list, best);
        if is_over(limit, worth, made, s.rounds) {
            return Reached {
                limit,
                worth,
                rounds: made,
            };
        }
        rule.move_prices(cols, &orders, relaxed, list, change, prices);
        change = next_change(change);
        made += 1;
    }
}
