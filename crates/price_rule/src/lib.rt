// The rule of rounds, of a shift and of a hall: what does not depend on prices, a look at the prices, the choice made
// from a list, how a round moves the prices, and the first change.

#![tactic(auto)]

ghost use Rattle.std.specs.Prelude.{◌≡◌, false, ◌≤◌, length, replicate};
ghost use Rattle.turn.specs.Turn.{most_worth};
ghost use Rattle.model.specs.Choice.{choose_each, chosen};
ghost use Rattle.choice_map.specs.Choice.{choice_in, Clean};
ghost use Rattle.instance.specs.Columns.{turns_by};
ghost use Rattle.selection.specs.Asked.{NumbersOf};
ghost use Rattle.price_rule.specs.Rules.{RuleFor, Shift, Hall, size_of, prices_of, change_of, rule_limit, relaxed_of, fits_of, choosing_list, moved_of, RulePosed, OrderedFor, RowsFor};

use conflict_sets::ROW_WORDS;
use hall_look::HallSize;
use hall_steps::OneKind;
use instance::{PLACES, Size};
use round_parts::greatest_worth;
use shift_look::{Extent, ORDERS};

// What rounds ask of a rule. Its value holds how large the problem is; the columns hold its turns or windows.
pub trait PriceRule: Copy {
    ghost rule: { Self → RuleFor };

    // How many turns or windows there are, and the gap between them.
    fn size(self) -> Size
        ensures { result ≡ size_of (rule self) };

    // What does not depend on prices: the orders of a shift's turns, and the rows of turns in conflict, by which a
    // choice is made. The room is scratch space.
    fn put_orders(
        self,
        cols: &[u16; PLACES],
        orders: &mut [u16; ORDERS],
        room: &mut [u16; PLACES],
        rows: &mut [u64; ROW_WORDS],
    )
        requires { RulePosed (rule self) cols.now }
        ensures { OrderedFor (rule self) cols.now orders.new × RowsFor (rule self) cols.now rows.new };

    // The change of the first round.
    fn first_change(self, cols: &[u16; PLACES]) -> u32
        requires { RulePosed (rule self) cols.now }
        ensures { (result ≡ change_of (rule self) cols.now) × (result ≤ most_worth) };

    // The limit at some prices, and their relaxed set into a map that has none chosen.
    fn look_at(
        self,
        cols: &[u16; PLACES],
        orders: &[u16; ORDERS],
        prices: &[u16],
        relaxed: &mut [u8],
    ) -> u32
        requires rule_posed { RulePosed (rule self) cols.now × OrderedFor (rule self) cols.now orders.now × (length prices.now ≡ prices_of (rule self)) }
        requires clean { Clean (size_of (rule self)).count relaxed.old
            × (choice_in (size_of (rule self)).count relaxed.old ≡ replicate (size_of (rule self)).count false) }
        ensures value { result ≡ rule_limit (rule self) cols.now prices.now }
        ensures clean_2 { Clean (size_of (rule self)).count relaxed.new
            × (choice_in (size_of (rule self)).count relaxed.new ≡ relaxed_of (rule self) cols.now prices.now) };

    // Goes through a list from its last number to its first and chooses each turn or window that fits. Returns what
    // the choice is worth.
    fn choose_listed(
        self,
        cols: &[u16; PLACES],
        rows: &[u64; ROW_WORDS],
        list: &[u16],
        map: &mut [u8],
    ) -> u32
        requires rule_posed { RulePosed (rule self) cols.now × RowsFor (rule self) cols.now rows.now × NumbersOf (size_of (rule self)).count list.now }
        requires clean { Clean (size_of (rule self)).count map.old
            × (choice_in (size_of (rule self)).count map.old ≡ replicate (size_of (rule self)).count false) }
        ensures map_after { choice_in (size_of (rule self)).count map.new
            ≡ choose_each (fits_of (rule self) cols.now) list.now (replicate (size_of (rule self)).count false) }
        ensures clean_2 { Clean (size_of (rule self)).count map.new
            × (result ≡ chosen (size_of (rule self)).count (choice_in (size_of (rule self)).count map.new) (turns_by (size_of (rule self)) cols.now).worth) };

    // Moves the prices by a relaxed set, which is there as a map and, by worth, at the end of a list.
    fn move_prices(
        self,
        cols: &[u16; PLACES],
        orders: &[u16; ORDERS],
        relaxed: &[u8],
        list: &[u16],
        change: u32,
        prices: &mut [u16],
    )
        requires rule_posed { RulePosed (rule self) cols.now × OrderedFor (rule self) cols.now orders.now × (length prices.old ≡ prices_of (rule self)) }
        requires clean { Clean (size_of (rule self)).count relaxed.now × (list.now ≡ choosing_list (rule self) cols.now relaxed.now) × (change ≤ most_worth) }
        ensures { prices.new
            ≡ moved_of (rule self) cols.now (choice_in (size_of (rule self)).count relaxed.now) change prices.old };
}

// A shift's turns are tested by their rows.
impl PriceRule for Extent {
    ghost rule = { λ e. Shift e };

    fn size(self) -> Size {
        self.size
    }

    fn put_orders(
        self,
        cols: &[u16; PLACES],
        orders: &mut [u16; ORDERS],
        room: &mut [u16; PLACES],
        rows: &mut [u64; ROW_WORDS],
    ) {
        shift_look::put_orders(self, cols, orders, room);
        conflict_sets::fill_rows(self.size, cols, orders, rows);
    }

    fn first_change(self, cols: &[u16; PLACES]) -> u32 {
        (greatest_worth(self.size, cols) + 3) / 4
    }

    fn look_at(
        self,
        cols: &[u16; PLACES],
        orders: &[u16; ORDERS],
        prices: &[u16],
        relaxed: &mut [u8],
    ) -> u32 {
        shift_look::look_at(self, cols, orders, prices, relaxed)
    }

    fn choose_listed(
        self,
        cols: &[u16; PLACES],
        rows: &[u64; ROW_WORDS],
        list: &[u16],
        map: &mut [u8],
    ) -> u32 {
        conflict_sets::choose_listed(self.size, cols, rows, list, map)
    }

    fn move_prices(
        self,
        cols: &[u16; PLACES],
        orders: &[u16; ORDERS],
        relaxed: &[u8],
        list: &[u16],
        change: u32,
        prices: &mut [u16],
    ) {
        let taken = &list[self.size.count..];
        shift_moves::move_prices(self, cols, orders, taken, change, prices);
    }
}

// For a hall there is nothing to put down.
impl PriceRule for HallSize {
    ghost rule = { λ h. Hall h };

    fn size(self) -> Size {
        self.size
    }

    fn put_orders(
        self,
        cols: &[u16; PLACES],
        orders: &mut [u16; ORDERS],
        room: &mut [u16; PLACES],
        rows: &mut [u64; ROW_WORDS],
    ) {}

    fn first_change(self, cols: &[u16; PLACES]) -> u32 {
        (greatest_worth(self.size, cols) + 7) / 8
    }

    fn look_at(
        self,
        cols: &[u16; PLACES],
        orders: &[u16; ORDERS],
        prices: &[u16],
        relaxed: &mut [u8],
    ) -> u32 {
        hall_look::look_at(self, cols, prices, relaxed)
    }

    fn choose_listed(
        self,
        cols: &[u16; PLACES],
        rows: &[u64; ROW_WORDS],
        list: &[u16],
        map: &mut [u8],
    ) -> u32 {
        // wide plays no part: choose_listed takes windows of both kinds.
        let all = OneKind {
            units: self.units,
            size: self.size,
            wide: false,
        };
        charge::choose_listed(all, cols, list, map);
        round_parts::worth_chosen(self.size, cols, map)
    }

    fn move_prices(
        self,
        cols: &[u16; PLACES],
        orders: &[u16; ORDERS],
        relaxed: &[u8],
        list: &[u16],
        change: u32,
        prices: &mut [u16],
    ) {
        hall_moves::move_minutes(self, cols, relaxed, change, prices);
    }
}
