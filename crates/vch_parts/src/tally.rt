ghost use Rattle.std.specs.Prelude.{◌≡◌, ◌<◌, ◌^◌};
ghost use Rattle.vch_frame.specs.Tallies.{more_claims, one_asked, one_referred};

use vch_frame::Tally;
use vch_value::Claim;

/// Counts a claim, if one was taken.
pub fn count_claim(tally: &mut Tally, claim: &Option<Claim>)
    requires { tally.old.claims < 2 ^ 63 }
    ensures { tally.new ≡ more_claims claim.now tally.old }
{
    if claim.is_some() {
        tally.claims += 1;
    }
}

/// Counts a question.
pub fn count_question(tally: &mut Tally)
    requires { tally.old.asks < 2 ^ 63 }
    ensures { tally.new ≡ one_asked tally.old }
{
    tally.asks += 1;
}

/// Counts a reference.
pub fn count_refer(tally: &mut Tally)
    requires { tally.old.refers < 2 ^ 63 }
    ensures { tally.new ≡ one_referred tally.old }
{
    tally.refers += 1;
}
