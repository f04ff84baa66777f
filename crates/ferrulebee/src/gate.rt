// The running gate for C: a group goes in by value and comes back by value.
ghost use Rattle.std.specs.Prelude.{◌≡◌};
ghost use Rattle.group.specs.Fresh.{fresh_answer};
ghost use Rattle.group.specs.Request.{request_answer};
ghost use Rattle.group.specs.Close.{close_answer};
ghost use Rattle.group.specs.Read.{read_answer};
ghost use Rattle.group.specs.Count.{count_answer};
ghost use Rattle.station.specs.Mask.{mask_answer};
ghost use Rattle.crossing.specs.Read.{read_numbers};

use crossing::numbers::Read;
use group::{Answer, CountAnswer, Group};
use rules::refusal::Refusal;
use station::MaskAnswer;

pub fn ferrulebee_fresh(number: u32) -> Answer
    ensures { result ≡ fresh_answer number }
{
    Group::fresh(number)
}

pub fn ferrulebee_request(group: Group, kind: u32, number: u32) -> Answer
    ensures { result ≡ request_answer group kind number }
{
    request::request(group, kind, number)
}

pub fn ferrulebee_close(group: Group) -> Answer
    ensures { result ≡ close_answer group }
{
    close::close(group)
}

pub fn ferrulebee_read(group: Group, model: u32, sheet: u32) -> Read
    ensures { result ≡ read_numbers (read_answer group model sheet) }
{
    crossing::numbers::of_read(group.read(model, sheet).map_err(Refusal::number))
}

pub fn ferrulebee_models(group: Group, sheet: u32) -> CountAnswer
    ensures { result ≡ count_answer group sheet }
{
    group.models(sheet).into()
}

// A request on a group lent and marked where it stands; a refusal leaves it as it was.
pub fn ferrulebee_request_at(g: &mut Group, kind: u32, number: u32) -> u32
    ensures { (result ≡ (request_answer g.old kind number).code) × (g.new ≡ (request_answer g.old kind number).group) }
{
    request::request_at(g, kind, number)
}

// A station's groups side by side: the mask of the positions that grant.
pub fn ferrulebee_mask(gs: &[Group], model: u32, sheet: u32) -> MaskAnswer
    ensures { result ≡ mask_answer gs.now model sheet }
{
    station::mask(gs, model, sheet).into()
}
