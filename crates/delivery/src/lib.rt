// Deliveries to a model: by grants (`granted`), and from one group, by its grants as of its last close. The group stays as it is.
#![tactic(auto)]

pub mod granted;

ghost use Rattle.std.specs.Prelude.{◌≡◌, length};
ghost use Rattle.delivery.specs.Answer.{Delivers, buffer_after};
ghost use Rattle.delivery.specs.Delivery.{delivery_told};

use group::Group;
use rules::refusal::Refusal;

// Delivers from the store the sheets that the group grants the model, and answers the delivery's total length.
pub fn deliver(group: Group, model: u32, sheets: &[u8], out: &mut [u8]) -> Result<u32, Refusal>
    ensures answered { Delivers group.grants model sheets.now (length out.old) (delivery_told result) }
    ensures left { out.new ≡ buffer_after group.grants model sheets.now out.old }
{
    granted::deliver(&group.grants, model, sheets, out)
}
