// A group: its grants, its memberships and its open tick, in one record that goes by value through requests and closes; the fresh group, and what a group
// is asked. What a request and a close make of it stands in specs/, too; the crates `request` and `close` have the calls.
#![tactic(auto)]

ghost use Rattle.std.specs.Prelude.{◌≡◌};
ghost use Rattle.group.specs.Count.{count_told, count_answer};
ghost use Rattle.group.specs.Fresh.{fresh_group, fresh_answer};
ghost use Rattle.group.specs.Read.{read_told, Reads};

use rules::refusal::Refusal;
use rules::{GROUPS, MODELS, SHEETS};

// members, added: the models and the sheets that are in as of the last close; liberal: the sheets that are in by LA.
// sj to lr: for each kind, the carriers with an accepted event of it in the open tick.
// grants: a word a sheet, a bit a model, as of the last close.
#[repr(C)]
#[derive(Clone, Copy)]
pub struct Group {
    pub number: u32,
    pub closed: u32,
    pub members: u64,
    pub sj: u64,
    pub lj: u64,
    pub sl: u64,
    pub ll: u64,
    pub added: [u64; 4],
    pub liberal: [u64; 4],
    pub sa: [u64; 4],
    pub la: [u64; 4],
    pub sr: [u64; 4],
    pub lr: [u64; 4],
    pub grants: [u64; 256],
}

// A refusal's number, or 0; and the group, which a refusal leaves as it was.
#[repr(C)]
#[derive(Clone, Copy)]
pub struct Answer {
    pub code: u32,
    pub group: Group,
}

// A count in numbers: a refusal's number, or 0 with the count.
// kept: numbers, here and above, are the C interface.
#[repr(C)]
#[derive(Clone, Copy)]
pub struct CountAnswer {
    pub code: u32,
    pub count: u32,
}

impl From<Result<u32, Refusal>> for CountAnswer {
    ghost from_gives = { λ answer r. r ≡ count_told answer };

    fn from(answer: Result<u32, Refusal>) -> Self {
        match answer {
            Ok(count) => CountAnswer { code: 0, count },
            Err(refusal) => CountAnswer {
                code: refusal.number(),
                count: 0,
            },
        }
    }
}

#[tactic(auto, unfolding(crate::specs::Fresh::fresh_group))]
fn fresh_group(number: u32) -> Group
    ensures { result ≡ fresh_group number }
{
    Group {
        number,
        closed: 0,
        members: 0,
        sj: 0,
        lj: 0,
        sl: 0,
        ll: 0,
        added: [0; 4],
        liberal: [0; 4],
        sa: [0; 4],
        la: [0; 4],
        sr: [0; 4],
        lr: [0; 4],
        grants: [0; 256],
    }
}

impl Group {
    // kept: a number beside a group by value is the C interface
    #[tactic(auto, unfolding(crate::specs::Fresh::fresh_answer))]
    pub fn fresh(number: u32) -> Answer
        ensures { result ≡ fresh_answer number }
    {
        if number >= GROUPS {
            return Answer {
                code: Refusal::BadGroup.number(),
                group: fresh_group(0),
            };
        }
        Answer {
            code: 0,
            group: fresh_group(number),
        }
    }

    // Whether a model may read a sheet.
    #[tactic(auto, unfolding(crate::specs::Read::read_answer, crate::specs::Read::read_refusal, bits::specs::Bit::bit_in))]
    pub fn read(&self, model: u32, sheet: u32) -> Result<bool, Refusal>
        ensures { Reads self.now model sheet (read_told result) }
    {
        if model >= MODELS || sheet >= SHEETS {
            return Err(Refusal::BadNumber);
        }
        Ok(bits::has_bit(self.grants[sheet as usize], model))
    }

    // How many models may read a sheet.
    #[tactic(auto, unfolding(crate::specs::Count::count_answer, crate::specs::Count::models_granted, bits::specs::Bit::bit_in))]
    pub fn models(&self, sheet: u32) -> Result<u32, Refusal>
        ensures { count_told result ≡ count_answer self.now sheet }
    {
        if sheet >= SHEETS {
            return Err(Refusal::BadNumber);
        }
        Ok(bits::count(self.grants[sheet as usize]))
    }
}
