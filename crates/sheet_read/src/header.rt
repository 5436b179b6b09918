// Reading a sheet's header: its mark and its counts.
ghost use Rattle.sheet.specs.Kind.{kind_in_numbers};
ghost use Rattle.std.specs.Prelude.{◌≡◌, ◌≤◌, length, IfOk};
ghost use Rattle.refusal.specs.Cause.{first_of};
ghost use Rattle.refusal.specs.Failure.{failure};
ghost use Rattle.turn.specs.Turn.{counts_of};
ghost use Rattle.sheet.specs.Read.{header_bytes, counts_in, turn_count, count_causes, header_causes};

use refusal::Refusal;
use sheet::{HEADER_BYTES, Kind};
use turn::Counts;

// The first thing wrong with a sheet's counts, if any.
pub fn count_fault(kind: Kind, groomers: u32, slopes: u32, n: usize) -> Result<(), Refusal>
    ensures { failure result ≡ first_of (count_causes (kind_in_numbers kind) (counts_of groomers slopes) n) }
{
    if turn::outside_range(groomers, kind.most.groomers) {
        return turn::refused_by(kind.refusals.counts);
    }
    if turn::outside_range(slopes, kind.most.slopes) {
        return turn::refused_by(kind.refusals.counts);
    }
    if (kind.most.turns as usize) < n {
        return turn::refused_by(kind.refusals.turns);
    }
    Ok(())
}

// The counts in the header of a sheet whose mark is right, and how many turns it names.
fn read_counts(kind: Kind, s: &[u8]) -> Result<(Counts, u16), Refusal>
    requires { header_bytes ≤ length s.now }
    ensures refused { failure result ≡ first_of (count_causes (kind_in_numbers kind) (counts_in s.now) (turn_count s.now)) }
    ensures read { IfOk result (λ h. (h.0 ≡ counts_in s.now) × (h.1 ≡ turn_count s.now)) }
{
    let groomers = wire::byte_at(s, 3);
    let slopes = wire::byte_at(s, 4);
    let n = wire::word_at(s, 5);
    count_fault(kind, groomers as u32, slopes as u32, n as usize)?;
    Ok((Counts { groomers, slopes }, n))
}

pub fn read_header(kind: Kind, s: &[u8]) -> Result<(Counts, u16), Refusal>
    ensures refused { failure result ≡ first_of (header_causes (kind_in_numbers kind) s.now) }
    ensures read { IfOk result (λ h. (h.0 ≡ counts_in s.now) × (h.1 ≡ turn_count s.now)) }
{
    if s.len() < HEADER_BYTES {
        return Err(Refusal::Truncated);
    }
    if wire::opens_with(s, kind.mark) {
        read_counts(kind, s)
    } else {
        Err(Refusal::BadMagic)
    }
}
