// All that is judged and worked out before the first minute.
ghost use Rattle.std.specs.Prelude.{◌≡◌, false, ◌++◌, ◌≤◌, ◌<◌};
ghost use Rattle.refusal.specs.Failure.{number_of};
ghost use Rattle.sheet.specs.Kind.{most_groomers};
ghost use Rattle.instance.specs.Columns.{turns_by, Held};
ghost use Rattle.instance_spec.specs.Problem.{shift_gap};
ghost use Rattle.board.specs.Board.{board_turns, board_choice};
ghost use Rattle.board_open.specs.Open.{malformed};
ghost use Rattle.check_spec.specs.Check.{board_causes};
ghost use Rattle.play_spec.specs.Play.{serves_for, lent_causes};
ghost use Rattle.play.specs.Table.{blank_table, GroomersKnown, Playable};
ghost use Rattle.play.specs.Prepared.{PreparedBy, PreparedFor};

use super::days::{DAY_TABLE_PLACES, MINUTES, delays_fit, put_days};
use instance::{PLACES, Size};
use refusal::Refusal;

// What is known before the first minute: the answer, and how many minutes are played of how many groomers, none
// on a refusal.
#[derive(Clone, Copy)]
pub struct Prepared {
    pub refusal: u8,
    pub groomers: u16,
    pub moved: usize,
    pub minutes: u16,
}

// How many standings are wanted, and how many places the caller lends for them.
#[derive(Clone, Copy)]
pub struct Lent {
    pub groomers: u16,
    pub places: usize,
}

fn refused(k: Refusal) -> Prepared
    ensures { (result.refusal ≡ number_of k) × (result.groomers ≡ 0) × (result.moved ≡ 0) × (result.minutes ≡ 0) }
{
    Prepared {
        refusal: u8::from(k),
        groomers: 0,
        moved: 0,
        minutes: 0,
    }
}

// Whether the table of delays has a number for each of n turns, none above the limit.
fn delays_serve(delays: &[u16], n: usize) -> bool
    ensures { result ≡ serves_for n delays.now }
{
    delays.len() == n && delays_fit(delays)
}

// For a board that passes: the days go into the blank table.
fn prepare_days(
    p: Size,
    cols: &[u16; PLACES],
    lent: Lent,
    board: &[u8],
    delays: &[u16],
    table: &mut [u16; DAY_TABLE_PLACES],
) -> Prepared
    requires held { Held p cols.now × (lent.groomers ≤ most_groomers) × (malformed board.now ≡ false) × (board_turns board.now ≡ p.count) }
    requires playable { Playable (turns_by p cols.now) (board_choice board.now) × (table.old ≡ blank_table) }
    ensures { PreparedBy (lent_causes lent.groomers p.count delays.now lent.places) (turns_by p cols.now) lent
        (board_choice board.now) delays.now result table.new }
{
    if delays_serve(delays, p.count) {
        if lent.places < lent.groomers as usize {
            return refused(Refusal::BufferTooSmall);
        }
        let map = board_open::map(board);
        put_days(p, cols, map, delays, &mut *table);
        return Prepared {
            refusal: 0,
            groomers: lent.groomers,
            moved: lent.groomers as usize,
            minutes: MINUTES,
        };
    }
    refused(Refusal::BadDelays)
}

// Judges the board first.
fn prepare_board(
    p: Size,
    cols: &[u16; PLACES],
    lent: Lent,
    board: &[u8],
    delays: &[u16],
    table: &mut [u16; DAY_TABLE_PLACES],
) -> Prepared
    requires held { Held p cols.now × (p.gap ≡ shift_gap) × GroomersKnown (turns_by p cols.now) × (lent.groomers ≤ most_groomers) }
    requires table_value { table.old ≡ blank_table }
    ensures { PreparedBy (board_causes (turns_by p cols.now) board.now
        ++ lent_causes lent.groomers p.count delays.now lent.places) (turns_by p cols.now) lent
        (board_choice board.now) delays.now result table.new }
{
    let mut scratch = [0u16; PLACES];
    match check_board::board_fault(board, p, cols, &mut scratch) {
        Err(fault) => refused(fault),
        Ok(_) => prepare_days(p, cols, lent, board, delays, &mut *table),
    }
}

// All that is judged and worked out before the first minute; the days go into the blank table.
pub fn prepare<'a>(
    sheet: &'a [u8],
    board: &'a [u8],
    delays: &'a [u16],
    places: usize,
    table: &mut [u16; DAY_TABLE_PLACES],
) -> Prepared
    requires { table.old ≡ blank_table }
    ensures { PreparedFor sheet.now board.now delays.now places result table.new }
{
    let mut cols = [0u16; PLACES];
    let (counts, n) = match instance::load(sheet, &mut cols) {
        Ok(read) => read,
        Err(fault) => return refused(fault),
    };
    let p = instance::shift_size(n);
    let lent = Lent {
        groomers: counts.groomers,
        places,
    };
    prepare_board(p, &cols, lent, board, delays, &mut *table)
}
