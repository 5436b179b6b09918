// One function for each entry of the library: it makes the call and gives what the case's line says.
ghost use Rattle.std.specs.Prelude.{◌≡◌, ◌≤◌, ◌/◌, min, length, take};
ghost use Rattle.turn.specs.Turn.{counts_of};
ghost use Rattle.refusal.specs.Outcome.{beside};
ghost use Rattle.sheet.specs.Read.{read_of};
ghost use Rattle.sheet.specs.Short.{read_short_of};
ghost use Rattle.write_spec.specs.Write.{write_of};
ghost use Rattle.draw_spec.specs.DrawnSheet.{draw_of};
ghost use Rattle.check_spec.specs.Check.{check_of};
ghost use Rattle.plan_spec.specs.Plan.{plan_of};
ghost use Rattle.list_spec.specs.List.{list_of};
ghost use Rattle.assign_spec.specs.Assign.{assign_of};
ghost use Rattle.best_spec.specs.Best.{best_of};
ghost use Rattle.improve_spec.specs.Improve.{improve_of};
ghost use Rattle.archive_spec.specs.Archive.{keep_of, restore_of};
ghost use Rattle.charge_spec.specs.Charge.{charge_of};
ghost use Rattle.corpus.specs.Line.{asked_at, asked_long, numbers_in, table_in, choices_in, shown, open_line};
ghost use Rattle.corpus.specs.Line.{read_line, write_line, check_line, assign_line, best_line, improve_line, charge_line};

use assign_spec::AssignAnswer;
use best_spec::BestAnswer;
use charge_spec::ChargeAnswer;
use check_spec::CheckAnswer;
use improve_spec::ImproveAnswer;
use refusal::WriteAnswer;
use sheet::ReadAnswer;

// Bytes of the numbers that an entry is asked with: one of eight bytes, three of four.
const ASKED: usize = 20;

// Places of the table that is written.
const MOST_TABLE: usize = 2412;

// What a line says of a call: the refusal, and the further values that the entry returns.
#[derive(Clone, Copy)]
pub enum Line {
    Nothing,
    One(u8, u64),
    Two(u8, u64, u64),
    Three(u8, u64, u64, u64),
    Four(u8, u64, u64, u64, u64),
}

// One of the numbers of four bytes that an entry is asked with, 0 where they are not there.
fn asked(numbers: &[u8], at: usize) -> u32
    requires { at ≤ 16 }
    ensures { result ≡ asked_at numbers.now at }
{
    if numbers.len() < ASKED {
        0
    } else {
        wire::quad_at(numbers, at)
    }
}

// The number of eight bytes.
fn asked_long(numbers: &[u8]) -> u64
    ensures { result ≡ asked_long numbers.now }
{
    (asked(numbers, 0) as u64) * 4294967296 + (asked(numbers, 4) as u64)
}

// Fills the front of the table with the numbers that stand in the bytes; returns how many they are.
fn unpack(bytes: &[u8], table: &mut [u16]) -> usize
    ensures value { (result ≡ min (length bytes.now / 2) (length table.old)) × (result ≤ length table.old) }
    ensures table_after { take result table.new ≡ numbers_in bytes.now result }
{
    let count = (bytes.len() / 2).min(table.len());
    for i in 0..count {
        table[i] = wire::word_at(bytes, 2 * i);
    }
    count
}

// Puts 1 to the place of each turn that the board chooses, and 0 to the others.
fn choices(board: &[u8], turns: &mut [u16])
    ensures { turns.new ≡ choices_in board.now (length turns.old) }
{
    for (i, turn) in turns.iter_mut().enumerate() {
        *turn = u16::from(board_open::chooses(board, i));
    }
}

pub fn read(sheet: &[u8], table: &mut [u16]) -> Line
    ensures { beside result table.new ≡ shown read_line (read_of sheet.now table.old) }
{
    let a: ReadAnswer = sheet_read::read(sheet, table);
    Line::Three(
        a.refusal,
        a.groomers as u64,
        a.slopes as u64,
        a.turns as u64,
    )
}

pub fn short(sheet: &[u8], table: &mut [u16]) -> Line
    ensures { beside result table.new ≡ shown read_line (read_short_of sheet.now table.old) }
{
    let a: ReadAnswer = sheet_read_short::read_short(sheet, table);
    Line::Three(
        a.refusal,
        a.groomers as u64,
        a.slopes as u64,
        a.turns as u64,
    )
}

// Writes the numbers that stand in the input into the lent bytes, by way of a table.
pub fn write(counts: &[u8], turns: &[u8], out: &mut [u8]) -> Line
    ensures { beside result out.new ≡ shown write_line (write_of
        (counts_of (asked_at counts.now 8) (asked_at counts.now 12)) (table_in turns.now) out.old) }
{
    let mut table = [0u16; MOST_TABLE];
    let count = unpack(turns, &mut table);
    let a: WriteAnswer = write::write(asked(counts, 8), asked(counts, 12), &table[..count], out);
    Line::One(a.refusal, a.bytes as u64)
}

pub fn draw(numbers: &[u8], out: &mut [u8]) -> Line
    ensures { beside result out.new ≡ shown write_line (draw_of (asked_long numbers.now)
        (counts_of (asked_at numbers.now 8) (asked_at numbers.now 12)) (asked_at numbers.now 16) out.old) }
{
    let a: WriteAnswer = draw::draw(
        asked_long(numbers),
        asked(numbers, 8),
        asked(numbers, 12),
        asked(numbers, 16),
        out,
    );
    Line::One(a.refusal, a.bytes as u64)
}

// The refusals of opening and of counting, and how many turns are chosen; which ones goes into the lent
// numbers.
pub fn open(board: &[u8], turns: &mut [u16]) -> Line
    ensures value { result ≡ open_line board.now }
    ensures turns_after { turns.new ≡ choices_in board.now (length turns.old) }
{
    choices(board, turns);
    let a = board_open::count(board);
    Line::Two(board_open::open(board), a.refusal as u64, a.turns as u64)
}

pub fn check(sheet: &[u8], board: &[u8]) -> Line
    ensures { result ≡ check_line (check_of sheet.now board.now) }
{
    let a: CheckAnswer = check_board::check(sheet, board);
    Line::Three(a.refusal, a.tally as u64, a.worth as u64, a.ceiling as u64)
}

pub fn plan(sheet: &[u8], board: &mut [u8]) -> Line
    ensures { beside result board.new ≡ shown write_line (plan_of sheet.now board.old) }
{
    let a: WriteAnswer = plan::plan(sheet, board);
    Line::One(a.refusal, a.bytes as u64)
}

pub fn list(sheet: &[u8], text: &mut [u8]) -> Line
    ensures { beside result text.new ≡ shown write_line (list_of sheet.now text.old) }
{
    let a: WriteAnswer = list::list(sheet, text);
    Line::One(a.refusal, a.bytes as u64)
}

pub fn assign(sheet: &[u8], places: &mut [u16]) -> Line
    ensures { beside result places.new ≡ shown assign_line (assign_of sheet.now places.old) }
{
    let a: AssignAnswer = assign::assign(sheet, places);
    Line::One(a.refusal, a.groomers as u64)
}

pub fn best(sheet: &[u8], map: &mut [u8]) -> Line
    ensures { beside result map.new ≡ shown best_line (best_of sheet.now map.old) }
{
    let a: BestAnswer = best::best(sheet, map);
    Line::One(a.refusal, a.worth as u64)
}

// A better set than the planned one, within the visits that the input gives.
pub fn improve(limit: &[u8], sheet: &[u8], map: &mut [u8]) -> Line
    ensures { beside result map.new ≡ shown improve_line
        (improve_of sheet.now (asked_long limit.now) map.old) }
{
    let a: ImproveAnswer = improve::improve(sheet, asked_long(limit), map);
    Line::Four(
        a.refusal,
        u64::from(a.whole),
        a.worth as u64,
        a.above as u64,
        a.visits,
    )
}

pub fn keep(sheet: &[u8], kept: &mut [u8]) -> Line
    ensures { beside result kept.new ≡ shown write_line (keep_of sheet.now kept.old) }
{
    let a: WriteAnswer = archive::keep(sheet, kept);
    Line::One(a.refusal, a.bytes as u64)
}

pub fn restore(kept: &[u8], sheet: &mut [u8]) -> Line
    ensures { beside result sheet.new ≡ shown write_line (restore_of kept.now sheet.old) }
{
    let a: WriteAnswer = archive::restore(kept, sheet);
    Line::One(a.refusal, a.bytes as u64)
}

pub fn charge(sheet: &[u8], map: &mut [u8]) -> Line
    ensures { beside result map.new ≡ shown charge_line (charge_of sheet.now map.old) }
{
    let a: ChargeAnswer = charge::charge(sheet, map);
    Line::One(a.refusal, a.worth as u64)
}
