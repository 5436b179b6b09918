// Planning, then checking what was planned: the claim, said of the programs.

#![tactic(auto)]

ghost use Rattle.std.specs.Prelude.{◌≡◌};
ghost use Rattle.claim.specs.Confirm.{confirmed, confirm_of};

use check_spec::CheckAnswer;
use refusal::WriteAnswer;

#[derive(Clone, Copy)]
pub struct Confirmed {
    pub plan: WriteAnswer,
    pub check: CheckAnswer,
}

// Plans a sheet into lent bytes and checks the board that was written. Where the planner refuses,
// the check's part has the same number.
pub fn plan_and_check(s: &[u8], out: &mut [u8]) -> Confirmed
    ensures { confirmed result out.new ≡ confirm_of s.now out.old }
{
    let plan = plan::plan(s, &mut *out);
    let fault = plan.refusal;
    if fault != 0 {
        let none = CheckAnswer {
            refusal: fault,
            tally: 0,
            worth: 0,
            ceiling: 0,
        };
        return Confirmed { plan, check: none };
    }
    let end = plan.bytes as usize;
    let check = check_board::check(s, &out[..end]);
    Confirmed { plan, check }
}
