// The delivery for C: its three numbers, beside the buffer that it is written to.
ghost use Rattle.std.specs.Prelude.{◌≡◌, length};
ghost use Rattle.delivery.specs.Answer.{answer, buffer_after};
ghost use Rattle.crossing.specs.Delivered.{delivery_numbers};

use crate::in_numbers;
use crossing::numbers::Delivered;
use group::Group;

pub fn ferrulebee_deliver(group: Group, model: u32, sheets: &[u8], out: &mut [u8]) -> Delivered
    ensures answered { result ≡ delivery_numbers (answer group.grants model sheets.now (length out.old)) }
    ensures left { out.new ≡ buffer_after group.grants model sheets.now out.old }
{
    crossing::numbers::of_delivery(delivery::deliver(group, model, sheets, out).map_err(in_numbers))
}
