ghost use Rattle.std.specs.Prelude.{◌≡◌, IfOk};
ghost use Rattle.vch_books.specs.Audits.{advanced};
ghost use Rattle.vch_judge.specs.Follows.{IsNextCall};

use crate::effect::Effect;
use vch_base::NoMemory;
use vch_books::Books;

/// The next entry is a call of a task, which does this.
pub fn carry_out<'a>(books: Books<'a>, task: u32, effect: Effect) -> Result<Books<'a>, NoMemory>
    requires next { IsNextCall books task effect }
    ensures { IfOk result (λ made. made ≡ advanced books.entry) }
{
    match effect {
        Effect::Stay => Ok(books.pass(task)),
        Effect::Count {
            name,
            number,
            adding,
            n,
        } => books.counted(task, name, number, adding, n),
        Effect::Charge { name, number, n } => books.charged(task, name, number, n),
        Effect::Give { voucher } => books.give(task, voucher),
        Effect::LetGo { name } => Ok(books.let_go(task, name)),
        Effect::Send { to, message } => books.send(task, to, message),
        Effect::SendMoved { to, message, name } => books.send_moved(task, to, message, name),
        Effect::Receive => Ok(books.receive(task)),
        Effect::ReceiveVoucher { voucher } => books.receive_voucher(task, voucher),
    }
}
