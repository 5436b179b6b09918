// The best worth of a shift where no slope comes twice and no turn names a driver, which the table of crate
// best_table gives, and a set of that worth.

#![tactic(auto)]

ghost use Rattle.std.specs.Prelude.{◌≡◌, length};
ghost use Rattle.choice_map.specs.Choice.{map_bytes, map_of};
ghost use Rattle.instance.specs.Columns.{turns_by, Held};
ghost use Rattle.best_spec.specs.Table.{best_worth, best_choice};
ghost use Rattle.refusal.specs.Failure.{number_of};
ghost use Rattle.refusal.specs.Outcome.{beside};
ghost use Rattle.best_spec.specs.Best.{best_refused, best_in, best_of};
ghost use Rattle.best_table.specs.OrderAndTable.{Ranged};

mod single;

use best_spec::BestAnswer;
use best_table::choose_best;
use instance::{PLACES, Size};
use refusal::Refusal;
use single::is_single;

// Writes the map of the best set of a problem; returns its worth.
fn write_best(p: Size, cols: &[u16; PLACES], map: &mut [u8]) -> u32
    requires { Held p cols.now × Ranged p cols.now × (length map.old ≡ map_bytes p.count) }
    ensures value { result ≡ best_worth (turns_by p cols.now) }
    ensures map_after { map.new ≡ map_of (best_choice (turns_by p cols.now)) }
{
    map.fill(0);
    choose_best(p, cols, map)
}

fn refused(k: Refusal) -> BestAnswer
    ensures { result ≡ best_refused (number_of k) }
{
    BestAnswer {
        refusal: u8::from(k),
        worth: 0,
    }
}

// Answers a problem: refuses too few lent bytes; else writes the map of the best set and gives its worth.
fn answer(p: Size, cols: &[u16; PLACES], map: &mut [u8]) -> BestAnswer
    requires { Held p cols.now × Ranged p cols.now }
    ensures { beside result map.new ≡ best_in (turns_by p cols.now) map.old }
{
    let size = choice_map::map_bytes(p.count as u16);
    if map.len() < size {
        return refused(Refusal::BufferTooSmall);
    }
    let worth = write_best(p, cols, &mut map[..size]);
    BestAnswer { refusal: 0, worth }
}

// Reads any bytes as a sheet, finds the best worth, and writes the map of the set that earns it into any
// lent bytes.
pub fn best(s: &[u8], map: &mut [u8]) -> BestAnswer
    ensures { beside result map.new ≡ best_of s.now map.old }
{
    let mut cols = [0u16; PLACES];
    let (_, n) = match instance::load(s, &mut cols) {
        Ok(read) => read,
        Err(fault) => return refused(fault),
    };
    let p = instance::shift_size(n);
    if !is_single(p, &cols) {
        return refused(Refusal::NotSingleTurns);
    }
    answer(p, &cols, map)
}
