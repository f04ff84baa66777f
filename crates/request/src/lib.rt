// A request to a group: where nothing refuses it, the mark that it leaves in the open tick.
#![tactic(auto)]

ghost use Rattle.std.specs.Prelude.{◌≡◌, ◌<◌};
ghost use Rattle.rules.specs.Refusal.{told, alone};
ghost use Rattle.event.specs.Carrier.{carriers};
ghost use Rattle.group.specs.Request.{request_refusal, marked_group, request_answer};

use group::{Answer, Group};
use rules::kind::Kind;
use rules::refusal::Refusal;

// The mark of an accepted request, set where the group stands.
// kept: the kind as a number, which a record's word gives; `marked_group` leaves the group as it is for one that is none.
// Inlined, here and in `request`: handed on, a group is copied once more, which made a request of C a third slower.
#[tactic(auto, unfolding(group::specs::Request::marked_group))]
#[inline(always)]
pub fn mark(g: &mut Group, kind: u32, number: u32)
    requires { number < carriers kind }
    ensures { g.new ≡ marked_group g.old kind number }
{
    match Kind::try_from(kind) {
        Ok(Kind::SJ) => g.sj = bits::with_bit(g.sj, number),
        Ok(Kind::LJ) => g.lj = bits::with_bit(g.lj, number),
        Ok(Kind::SL) => g.sl = bits::with_bit(g.sl, number),
        Ok(Kind::LL) => g.ll = bits::with_bit(g.ll, number),
        Ok(Kind::SA) => g.sa = sets::with(g.sa, number),
        Ok(Kind::LA) => g.la = sets::with(g.la, number),
        Ok(Kind::SR) => g.sr = sets::with(g.sr, number),
        Ok(Kind::LR) => g.lr = sets::with(g.lr, number),
        Err(_) => (),
    }
}

// A request taken where the group stands; a refusal leaves it as it was.
pub fn take(g: &mut Group, kind: u32, number: u32) -> Result<(), Refusal>
    ensures answer { told result ≡ alone (request_answer g.old kind number).code }
    ensures group { g.new ≡ (request_answer g.old kind number).group }
{
    refusal::request_refusal(g, kind, number)?;
    mark(g, kind, number);
    Ok(())
}

// kept: a group by value, and a number beside it, are the C interface
#[inline(always)]
pub fn request(mut group: Group, kind: u32, number: u32) -> Answer
    ensures { result ≡ request_answer group kind number }
{
    let code = match take(&mut group, kind, number) {
        Ok(()) => 0,
        Err(refusal) => refusal.number(),
    };
    Answer { code, group }
}

// A request on a group lent, as C has it; a refusal leaves it as it was.
// kept: by value and stored back is the form that RULES.md 17 fixes, and the number is what C gets
pub fn request_at(g: &mut Group, kind: u32, number: u32) -> u32
    ensures { (result ≡ (request_answer g.old kind number).code) × (g.new ≡ (request_answer g.old kind number).group) }
{
    let asked = request(*g, kind, number);
    *g = asked.group;
    asked.code
}
