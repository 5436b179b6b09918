// The planned board, from which the rounds start, and another choice written into it.
ghost use Rattle.std.specs.Prelude.{◌≡◌, ◌++◌, ◌+◌, ◌≤◌, length};
ghost use Rattle.wire.specs.Number.{bytes_of, puts};
ghost use Rattle.model.specs.Choice.{choice, worth_of_choice};
ghost use Rattle.choice_map.specs.Choice.{map_bytes, choice_in, Clean};
ghost use Rattle.board.specs.Board.{worth_place, board_header, board_length};
ghost use Rattle.instance.specs.Columns.{turns_by, Held};
ghost use Rattle.plan_spec.specs.Plan.{board_for};
ghost use Rattle.refine.specs.PlannedBoard.{PlannedIn};

use instance::{PLACES, Size};

// The bytes of a planned board, and its worth.
#[derive(Clone, Copy)]
pub struct Planned {
    pub bytes: u32,
    pub worth: u32,
}

// Copies the map of a planned board; returns its worth.
fn copy_choice(p: Size, cols: &[u16; PLACES], b: &[u8], map: &mut [u8]) -> u32
    requires { Held p cols.now × (b.now ≡ board_for (turns_by p cols.now)) × (length map.old ≡ map_bytes p.count) }
    ensures value { result ≡ worth_of_choice (turns_by p cols.now) (choice (turns_by p cols.now)) }
    ensures map_after { (choice_in p.count map.new ≡ choice (turns_by p cols.now)) × Clean p.count map.new }
{
    map.copy_from_slice(board_open::map(b));
    board::worth(b)
}

// Plans a board, and copies its map. The room is scratch space.
pub fn plan_board(
    p: Size,
    cols: &[u16; PLACES],
    out: &mut [u8],
    map: &mut [u8],
    room: &mut [u16; PLACES],
) -> Planned
    requires held { Held p cols.now × (board_length p.count p.count ≤ length out.old) }
    requires map_len { length map.old ≡ map_bytes p.count }
    ensures planned_in { PlannedIn p cols.now out.old result out.new map.new }
{
    let made = plan::write_board(p, cols, &mut *out, &mut *room);
    let bytes = made.bytes as usize;
    let worth = copy_choice(p, cols, &out[..bytes], &mut *map);
    Planned {
        bytes: made.bytes,
        worth,
    }
}

// Writes another choice and its worth into a board.
pub fn write_choice(out: &mut [u8], worth: u32, map: &[u8])
    requires { board_header + length map.now ≤ length out.old }
    ensures { out.new ≡ puts out.old worth_place (bytes_of 4 worth ++ map.now) }
{
    wire::put_quad(&mut *out, board::WORTH_PLACE, worth);
    wire::put_bytes(&mut *out, board::HEADER_BYTES, map);
}
