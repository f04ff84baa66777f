// The export of the delivery: the call of `ferrulebee::deliver` under its name in C.
ghost use Rattle.std.specs.Prelude.{◌≡◌, length};
ghost use Rattle.delivery.specs.Answer.{answer, buffer_after};
ghost use Rattle.crossing.specs.Delivered.{delivery_numbers};

use crossing::numbers::Delivered;
use group::Group;

#[unsafe(no_mangle)]
pub extern "C" fn ferrulebee_deliver(
    group: Group,
    model: u32,
    sheets: &[u8],
    out: &mut [u8],
) -> Delivered
    ensures answered { result ≡ delivery_numbers (answer group.grants model sheets.now (length out.old)) }
    ensures left { out.new ≡ buffer_after group.grants model sheets.now out.old }
{
    ferrulebee::deliver::ferrulebee_deliver(group, model, sheets, out)
}
