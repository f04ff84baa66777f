// The delivery by grants: the granted sheets of a store, written to a lent buffer.
ghost use Rattle.std.specs.Prelude.{◌≡◌, length};
ghost use Rattle.delivery.specs.Answer.{Delivers, buffer_after};
ghost use Rattle.delivery.specs.Delivery.{delivery_told};

use rules::refusal::Refusal;

// Delivers from `store` the sheets that `grants` grants the model: sheet s where bit `model` of grants[s] is set.
pub fn deliver(
    grants: &[u64; 256],
    model: u32,
    store: &[u8],
    out: &mut [u8],
) -> Result<u32, Refusal>
    ensures answered { Delivers grants.now model store.now (length out.old) (delivery_told result) }
    ensures left { out.new ≡ buffer_after grants.now model store.now out.old }
{
    if model >= rules::MODELS {
        return Err(Refusal::BadNumber);
    }
    if !store::good_store(store) {
        return Err(Refusal::BadStore);
    }
    let sums = look::check(grants, model, store)?;
    if out.len() < sums.total as usize {
        return Err(Refusal::DeliveryTooLong);
    }
    parts::write_delivery(grants, model, store, sums, out);
    Ok(sums.total)
}
