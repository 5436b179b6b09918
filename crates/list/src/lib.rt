// The drivers' listing: what each groomer drives, as text.

#![tactic(auto)]

mod lines;
mod notes;
mod parts;

ghost use Rattle.std.specs.Prelude.{◌≡◌, ◌≤◌, ◌<◌, length};
ghost use Rattle.wire.specs.Number.{puts};
ghost use Rattle.model.specs.Pick.{steps};
ghost use Rattle.model.specs.Ceiling.{ceiling};
ghost use Rattle.instance.specs.Columns.{turns_by, Held};
ghost use Rattle.choice_map.specs.Choice.{choice_in};
ghost use Rattle.plan_spec.specs.Plan.{board_for};
ghost use Rattle.list_spec.specs.Text.{listing_of, refused_line};
ghost use Rattle.list.specs.Ready.{Ready};
ghost use Rattle.list_spec.specs.Limits.{listing_bytes};
ghost use Rattle.list_spec.specs.List.{listing_for, list_of};
ghost use Rattle.list_spec.specs.Answer.{text_answer};
ghost use Rattle.refusal.specs.Outcome.{beside};

use instance::{PLACES, Size};
use lines::put_refused;
use list_spec::Sums;
use parts::put_listing;
use plan::BoardMade;
use refusal::{Refusal, WriteAnswer, refused};

// Enough for every listing.
pub const LISTING_BYTES: usize = 3823;

// The listing of a choice map. It is put into a place of its own, and copied if there is room for
// all of it.
fn list_map(
    p: Size,
    cols: &[u16; PLACES],
    groomers: u16,
    map: &[u8],
    sums: Sums,
    out: &mut [u8],
) -> WriteAnswer
    requires { Ready p cols.now map.now
        × (length (listing_of groomers (turns_by p cols.now) (choice_in p.count map.now) sums) ≤ listing_bytes) }
    ensures { beside result out.new ≡ text_answer
        (listing_of groomers (turns_by p cols.now) (choice_in p.count map.now) sums) out.old }
{
    let mut text = [0u8; LISTING_BYTES];
    let bytes = put_listing(&mut text, p, cols, map, groomers, sums);
    if out.len() < bytes {
        return refused(Refusal::BufferTooSmall);
    }
    wire::put_bytes(&mut *out, 0, &text[..bytes]);
    WriteAnswer {
        refusal: 0,
        bytes: bytes as u32,
    }
}

// The listing of the planner's board. The ceiling was counted while the steps were made.
fn list_board(
    p: Size,
    cols: &[u16; PLACES],
    groomers: u16,
    b: &[u8],
    made: BoardMade,
    out: &mut [u8],
) -> WriteAnswer
    requires held { Held p cols.now × (length (listing_for groomers (turns_by p cols.now)) ≤ listing_bytes) }
    requires b_value { (b.now ≡ board_for (turns_by p cols.now)) × (made.ceiling ≡ ceiling (turns_by p cols.now) (steps (turns_by p cols.now))) }
    ensures { beside result out.new ≡ text_answer (listing_for groomers (turns_by p cols.now)) out.old }
{
    let sums = Sums {
        worth: board::worth(b),
        tally: board::tally(b),
        ceiling: made.ceiling,
    };
    list_map(p, cols, groomers, board_open::map(b), sums, &mut *out)
}

// The listing of a problem: its board is planned into a place of its own, with room for what planning
// puts down.
fn list_problem(
    p: Size,
    cols: &[u16; PLACES],
    groomers: u16,
    out: &mut [u8],
    room: &mut [u16; PLACES],
) -> WriteAnswer
    requires { Held p cols.now × (length (listing_for groomers (turns_by p cols.now)) ≤ listing_bytes) }
    ensures { beside result out.new ≡ text_answer (listing_for groomers (turns_by p cols.now)) out.old }
{
    let mut space = [0u8; plan::BOARD_BYTES];
    let made = plan::write_board(p, cols, &mut space, &mut *room);
    list_board(
        p,
        cols,
        groomers,
        &space[..made.bytes as usize],
        made,
        &mut *out,
    )
}

// Plans any bytes as a sheet, and writes the drivers' listing into any lent bytes.
pub fn list(s: &[u8], out: &mut [u8]) -> WriteAnswer
    ensures { beside result out.new ≡ list_of s.now out.old }
{
    let mut cols = [0u16; PLACES];
    let mut room = [0u16; PLACES];
    let (counts, n) = match instance::load_with(s, &mut cols, &mut room) {
        Ok(read) => read,
        Err(fault) => return refused(fault),
    };
    list_problem(
        instance::shift_size(n),
        &cols,
        counts.groomers,
        &mut *out,
        &mut room,
    )
}

// The line in place of a listing where a sheet is refused; returns its bytes, of which those that
// find a place are written.
pub fn refused_line(out: &mut [u8], k: u8) -> usize
    ensures { (result ≡ length (refused_line k)) × (result ≤ 12) × (out.new ≡ puts out.old 0 (refused_line k)) }
{
    put_refused(&mut *out, u32::from(k))
}
