// The look at the granted sheets before a byte is written: the first faulty one, and the sums up to it.
#![tactic(auto)]

ghost use Rattle.std.specs.Prelude.{◌≡◌, true, ◌<◌};
ghost use Rattle.rules.specs.Ranges.{models};
ghost use Rattle.store.specs.Store.{good_store};
ghost use Rattle.look.specs.Look.{checked, found, seen, refusal_seen};

use parts::Sums;
use rules::refusal::Refusal;

// Why the look stopped, and the sums of the granted sheets before the faulty one.
#[derive(Clone, Copy)]
pub struct Fault {
    pub refusal: Refusal,
    pub before: Sums,
}

impl From<Fault> for Refusal {
    ghost from_gives = { λ fault refusal. refusal ≡ fault.refusal };

    fn from(fault: Fault) -> Self {
        fault.refusal
    }
}

// Goes through the granted sheets by rising number, up to the first faulty one.
pub fn check(grants: &[u64; 256], model: u32, store: &[u8]) -> Result<Sums, Fault>
    requires { (model < models) × (good_store store.now ≡ true) }
    ensures summed { seen result ≡ checked grants.now model store.now }
    ensures refused { refusal_seen result ≡ found grants.now model store.now }
{
    let mut count: u32 = 0;
    // in 64 bits, where two words cannot wrap
    let mut total: u64 = 8;
    for sheet in 0..rules::SHEETS {
        if !parts::is_granted(grants, model, sheet) {
            continue;
        }
        if let Err(refusal) = store::entry_fault(store, sheet) {
            let before = Sums {
                count,
                total: total as u32,
            };
            return Err(Fault { refusal, before });
        }
        count += 1;
        total += 8 + store::length_of(store, sheet);
    }
    Ok(Sums {
        count,
        total: total as u32,
    })
}
