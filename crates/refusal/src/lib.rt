// What refuses a request to a group, in the order of the refusals.
#![tactic(auto)]

ghost use Rattle.std.specs.Prelude.{◌≡◌, ◌<◌};
ghost use Rattle.rules.specs.Kind.{kind_number};
ghost use Rattle.rules.specs.Ranges.{models, sheets};
ghost use Rattle.rules.specs.Refusal.{told, alone};
ghost use Rattle.event.specs.Carrier.{carriers};
ghost use Rattle.group.specs.Marks.{model_marked, sheet_marked, carrier_marked, carrier_in};
ghost use Rattle.group.specs.Request.{request_refusal};

use group::Group;
use rules::TICKS;
use rules::kind::Kind;
use rules::refusal::Refusal;

// kept: two functions, of a word and of four words: a trait over both is longer than the two.
fn model_marked(group: &Group, model: u32) -> bool
    requires { model < models }
    ensures { result ≡ model_marked group.now model }
{
    bits::has_bit(group.sj, model)
        | bits::has_bit(group.lj, model)
        | bits::has_bit(group.sl, model)
        | bits::has_bit(group.ll, model)
}

fn sheet_marked(group: &Group, sheet: u32) -> bool
    requires { sheet < sheets }
    ensures { result ≡ sheet_marked group.now sheet }
{
    sets::has(group.sa, sheet)
        | sets::has(group.la, sheet)
        | sets::has(group.sr, sheet)
        | sets::has(group.lr, sheet)
}

// The carrier of a kind has an event in the open tick.
fn carrier_marked(group: &Group, kind: Kind, number: u32) -> bool
    requires { number < carriers (kind_number kind) }
    ensures { result ≡ carrier_marked group.now (kind_number kind) number }
{
    match kind {
        Kind::SJ | Kind::LJ | Kind::SL | Kind::LL => model_marked(group, number),
        Kind::SA | Kind::LA | Kind::SR | Kind::LR => sheet_marked(group, number),
    }
}

// The carrier of a kind is in as of the last close.
fn carrier_in(group: &Group, kind: Kind, number: u32) -> bool
    requires { number < carriers (kind_number kind) }
    ensures { result ≡ carrier_in group.now (kind_number kind) number }
{
    match kind {
        Kind::SJ | Kind::LJ | Kind::SL | Kind::LL => bits::has_bit(group.members, number),
        Kind::SA | Kind::LA | Kind::SR | Kind::LR => sets::has(group.added, number),
    }
}

// The order of the refusals.
pub fn request_refusal(group: &Group, kind: u32, number: u32) -> Result<(), Refusal>
    ensures { told result ≡ alone (request_refusal group.now kind number) }
{
    let Ok(known) = Kind::try_from(kind) else {
        return Err(Refusal::BadKind);
    };
    if number >= event::carriers_of(kind) {
        return Err(Refusal::BadNumber);
    }
    if group.closed >= TICKS {
        return Err(Refusal::NoTickLeft);
    }
    if carrier_marked(group, known, number) {
        return Err(Refusal::SecondEvent);
    }
    match (event::is_entering(kind), carrier_in(group, known, number)) {
        (true, true) => Err(Refusal::AlreadyIn),
        (true, false) => Ok(()),
        (false, true) => Ok(()),
        (false, false) => Err(Refusal::NotIn),
    }
}
