// The granted sheets of a store and their parts, written one after the other, once all is known to be good and to fit.
#![tactic(auto)]

ghost use Rattle.std.specs.Prelude.{◌≡◌, ◌++◌, ◌+◌, ◌*◌, ◌≤◌, ◌<◌, length, drop};
ghost use Rattle.rules.specs.Ranges.{models, sheets};
ghost use Rattle.wire.specs.Put.{put};
ghost use Rattle.bits.specs.Granted.{granted};
ghost use Rattle.store.specs.Entry.{offset, sheet_length};
ghost use Rattle.parts.specs.Ready.{Ready};
ghost use Rattle.parts.specs.Delivery.{part, parts, granted_sheets, delivery_length, delivery_of, sums_of};

// How many granted sheets there are, and how long their delivery is.
#[derive(Clone, Copy)]
pub struct Sums {
    pub count: u32,
    pub total: u32,
}

// Bit `model` of the sheet's grant word.
// kept: grants and model side by side: of a struct with both, each clause has to say `reader.entry.grants.now reader.entry.model`, which is no plainer.
#[tactic(auto, unfolding(bits::specs::Bit::bit_in))]
pub fn is_granted(grants: &[u64; 256], model: u32, sheet: u32) -> bool
    requires { (model < models) × (sheet < sheets) }
    ensures { result ≡ granted grants.now model sheet }
{
    bits::has_bit(grants[sheet as usize], model)
}

// Writes a sheet's number, length and bytes to the front, and answers how long they are.
fn write_part(store: &[u8], sheet: u32, out: &mut [u8]) -> usize
    requires { (16 + 8 * sheet ≤ length store.now) × (offset store.now sheet + sheet_length store.now sheet ≤ length store.now) × (8 + sheet_length store.now sheet ≤ length out.old) }
    ensures { (result ≡ length (part store.now sheet)) × (out.new ≡ put out.old 0 (part store.now sheet)) }
{
    let from = store::offset_of(store, sheet) as usize;
    let length = store::length_of(store, sheet) as usize;
    wire::write32(&mut *out, 0, sheet);
    wire::write32(&mut *out, 4, length as u32);
    wire::copy(&store[from..from + length], &mut out[8..8 + length]);
    8 + length
}

// Writes the parts of the granted sheets, by rising number, behind the first two words.
fn write_parts(grants: &[u64; 256], model: u32, store: &[u8], out: &mut [u8])
    requires { Ready grants.now model store.now × (delivery_length store.now (granted_sheets grants.now model) ≤ length out.old) }
    ensures { out.new ≡ put out.old 8 (parts store.now (granted_sheets grants.now model)) }
{
    let mut at: usize = 8;
    for sheet in 0..rules::SHEETS {
        if !is_granted(grants, model, sheet) {
            continue;
        }
        at += write_part(store, sheet, &mut out[at..]);
    }
}

// Writes the whole delivery. The sums are the look's.
pub fn write_delivery(grants: &[u64; 256], model: u32, store: &[u8], sums: Sums, out: &mut [u8])
    requires { Ready grants.now model store.now × (sums ≡ sums_of grants.now model store.now) × (sums.total ≤ length out.old) }
    ensures { out.new ≡ delivery_of store.now (granted_sheets grants.now model) ++ drop sums.total out.old }
{
    wire::write32(&mut *out, 0, sums.count);
    wire::write32(&mut *out, 4, sums.total);
    write_parts(grants, model, store, out);
}
