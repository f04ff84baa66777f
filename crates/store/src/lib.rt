// A sheet store: its header, its entries, and what is wrong with one. The true sum of an entry is formed in 64 bits, where two words cannot wrap.
#![tactic(auto)]

ghost use Rattle.std.specs.Prelude.{◌≡◌, true, ◌+◌, ◌*◌, ◌≤◌, ◌<◌, length};
ghost use Rattle.rules.specs.Refusal.{told, placed};
ghost use Rattle.store.specs.Store.{good_store, sheet_count};
ghost use Rattle.store.specs.Entry.{offset, sheet_length, entry_fault};

use rules::refusal::Refusal;

#[tactic(auto, unfolding(crate::specs::Store::good_store))]
pub fn good_store(store: &[u8]) -> bool
    ensures { result ≡ good_store store.now }
{
    let len = store.len();
    if len < 8 {
        return false;
    }
    let total = wire::read32(store, 0) as usize;
    let n = sheet_count(store);
    (len <= rules::STORE_BYTES)
        & (total == len)
        & (n <= rules::SHEETS)
        & (8 + 8 * (n as usize) <= total)
}

fn sheet_count(store: &[u8]) -> u32
    requires { 8 ≤ length store.now }
    ensures { result ≡ sheet_count store.now }
{
    wire::read32(store, 4)
}

// kept: a store's bytes and a sheet, here and below: docs/PROMISES.md names these functions with what they ask, and a type of good stores would ask more.
pub fn offset_of(store: &[u8], sheet: u32) -> u64
    requires { 16 + 8 * sheet ≤ length store.now }
    ensures { (result ≡ offset store.now sheet) × (result < 4294967296) }
{
    wire::read32(store, 8 + 8 * (sheet as usize)) as u64
}

pub fn length_of(store: &[u8], sheet: u32) -> u64
    requires { 16 + 8 * sheet ≤ length store.now }
    ensures { (result ≡ sheet_length store.now sheet) × (result < 4294967296) }
{
    wire::read32(store, 12 + 8 * (sheet as usize)) as u64
}

// The refusal that the sheet's entry calls for, if any.
#[tactic(auto, using(crate::proofs::Store::good), unfolding(crate::specs::Entry::entry_fault, crate::specs::Entry::good_entry))]
pub fn entry_fault(store: &[u8], sheet: u32) -> Result<(), Refusal>
    requires { good_store store.now ≡ true }
    ensures { told result ≡ placed sheet (entry_fault store.now sheet) }
{
    let n = sheet_count(store);
    if sheet >= n {
        return Err(Refusal::NotInStore(sheet));
    }
    let offset = offset_of(store, sheet);
    let length = length_of(store, sheet);
    let start = 8 + 8 * (n as u64);
    if offset < start {
        return Err(Refusal::BadEntry(sheet));
    }
    if (store.len() as u64) < offset + length {
        return Err(Refusal::BadEntry(sheet));
    }
    Ok(())
}
