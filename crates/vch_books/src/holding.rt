ghost use Rattle.std.specs.Prelude.{◌≡◌};
ghost use Rattle.vch_books.specs.Holding as holding;

use crate::live::Live;
use crate::tasks::Tasks;

/// The first number of a live value that is not held, or nothing where each is.
pub fn first_unheld(live: &Live, tasks: &Tasks) -> Option<u32>
    ensures { result ≡ holding.first_unheld tasks.now live.now.numbers }
{
    for number in live.numbers() {
        if !tasks.hold(*number) {
            return Some(*number);
        }
    }
    None
}
