// By which ways two turns conflict. Steps, the order of steps, the planner's choice, the check and the search
// ask here. The table of the best worth reads neither slopes nor drivers and tests groomer and gap itself
// (is_in_the_way of best_table); the choice in rounds goes by that table's orders.
ghost use Rattle.std.specs.Prelude.{◌≡◌, ◌<◌};
ghost use Rattle.model.specs.Turns.{overlapping};
ghost use Rattle.instance.specs.Ways.{shared_of, ways_of, conflicting};

// What the engine asks of a turn. Driver 0 stands for none.
#[derive(Clone, Copy)]
pub struct Row {
    pub slope: u16,
    pub groomer: u16,
    pub start: u16,
    pub end: u16,
    pub worth: u16,
    pub driver: u16,
}

// For each way in which two turns can conflict, whether it is there.
#[derive(Clone, Copy)]
pub struct Ways {
    pub slope: bool,
    pub groomer: bool,
    pub driver: bool,
}

// Whether two stretches of minutes overlap, each with the gap after it. It has no branch: where every turn
// is tested, one at each turn would be mispredicted too often.
pub fn overlap(gap: u16, start: u16, end: u16, from: u16, until: u16) -> bool
    ensures { result ≡ overlapping gap start end from until }
{
    (u32::from(start) < u32::from(until) + u32::from(gap))
        & (u32::from(from) < u32::from(end) + u32::from(gap))
}

// What two turns share, whatever their minutes: the ways in which they could conflict.
pub fn shared_of(x: Row, y: Row) -> Ways
    ensures { result ≡ shared_of x y }
{
    Ways {
        slope: x.slope == y.slope,
        groomer: x.groomer == y.groomer,
        driver: (0 < x.driver) & (x.driver == y.driver),
    }
}

// The ways in which they do conflict.
pub fn ways_of(gap: u16, x: Row, y: Row) -> Ways
    ensures { result ≡ ways_of gap x y }
{
    let shared = shared_of(x, y);
    let near = overlap(gap, x.start, x.end, y.start, y.end);
    Ways {
        slope: shared.slope,
        groomer: shared.groomer & near,
        driver: shared.driver & near,
    }
}

// Whether they conflict by any way.
pub fn rows_conflict(gap: u16, x: Row, y: Row) -> bool
    ensures { result ≡ conflicting gap x y }
{
    let w = ways_of(gap, x, y);
    w.slope | (w.groomer | w.driver)
}
