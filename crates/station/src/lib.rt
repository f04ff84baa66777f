// A station: its groups side by side in one lent list, asked for a model and a sheet.
#![tactic(auto)]

ghost use Rattle.std.specs.Prelude.{◌≡◌};
ghost use Rattle.station.specs.Mask.{mask_told, mask_answer};

use group::Group;
use rules::GROUPS;
use rules::refusal::Refusal;

// A mask in numbers: a refusal's number, or 0 with the mask.
// kept: numbers are the C interface.
#[repr(C)]
#[derive(Clone, Copy)]
pub struct MaskAnswer {
    pub code: u32,
    pub mask: u32,
}

impl From<Result<u32, Refusal>> for MaskAnswer {
    ghost from_gives = { λ answer r. r ≡ mask_told answer };

    fn from(answer: Result<u32, Refusal>) -> Self {
        match answer {
            Ok(mask) => MaskAnswer { code: 0, mask },
            Err(refusal) => MaskAnswer {
                code: refusal.number(),
                mask: 0,
            },
        }
    }
}

// The mask of the positions that grant, bit 0 the first: from the last position to the first, so that each group's bit goes below those of the groups
// after it. A model or a sheet out of range is refused by the first that is read.
#[tactic(auto, unfolding(crate::specs::Mask::mask_answer, crate::specs::Mask::answer_with, crate::specs::Mask::list_refusal, group::specs::Read::read_refusal))]
pub fn mask(gs: &[Group], model: u32, sheet: u32) -> Result<u32, Refusal>
    ensures { mask_told result ≡ mask_answer gs.now model sheet }
{
    if gs.is_empty() || gs.len() > GROUPS as usize {
        return Err(Refusal::BadList);
    }
    let mut found: u32 = 0;
    for g in gs.iter().rev() {
        found = u32::from(g.read(model, sheet)?) + 2 * found;
    }
    Ok(found)
}
