// The exports of the running gate: the calls of `ferrulebee::gate` under their names in C.
ghost use Rattle.std.specs.Prelude.{◌≡◌};
ghost use Rattle.group.specs.Fresh.{fresh_answer};
ghost use Rattle.group.specs.Request.{request_answer};
ghost use Rattle.group.specs.Close.{close_answer};
ghost use Rattle.group.specs.Read.{read_answer};
ghost use Rattle.group.specs.Count.{count_answer};
ghost use Rattle.station.specs.Mask.{mask_answer};
ghost use Rattle.crossing.specs.Read.{read_numbers};

use crossing::numbers::Read;
use group::{Answer, CountAnswer, Group};
use station::MaskAnswer;

#[unsafe(no_mangle)]
pub extern "C" fn ferrulebee_fresh(number: u32) -> Answer
    ensures { result ≡ fresh_answer number }
{
    ferrulebee::gate::ferrulebee_fresh(number)
}

#[unsafe(no_mangle)]
pub extern "C" fn ferrulebee_request(group: Group, kind: u32, number: u32) -> Answer
    ensures { result ≡ request_answer group kind number }
{
    ferrulebee::gate::ferrulebee_request(group, kind, number)
}

#[unsafe(no_mangle)]
pub extern "C" fn ferrulebee_close(group: Group) -> Answer
    ensures { result ≡ close_answer group }
{
    ferrulebee::gate::ferrulebee_close(group)
}

#[unsafe(no_mangle)]
pub extern "C" fn ferrulebee_read(group: Group, model: u32, sheet: u32) -> Read
    ensures { result ≡ read_numbers (read_answer group model sheet) }
{
    ferrulebee::gate::ferrulebee_read(group, model, sheet)
}

#[unsafe(no_mangle)]
pub extern "C" fn ferrulebee_models(group: Group, sheet: u32) -> CountAnswer
    ensures { result ≡ count_answer group sheet }
{
    ferrulebee::gate::ferrulebee_models(group, sheet)
}

// A request on a group lent and marked where it stands; a refusal leaves it as it was.
#[unsafe(no_mangle)]
pub extern "C" fn ferrulebee_request_at(g: &mut Group, kind: u32, number: u32) -> u32
    ensures { (result ≡ (request_answer g.old kind number).code) × (g.new ≡ (request_answer g.old kind number).group) }
{
    ferrulebee::gate::ferrulebee_request_at(g, kind, number)
}

// A station's groups side by side: the mask of the positions that grant.
#[unsafe(no_mangle)]
pub extern "C" fn ferrulebee_mask(gs: &[Group], model: u32, sheet: u32) -> MaskAnswer
    ensures { result ≡ mask_answer gs.now model sheet }
{
    ferrulebee::gate::ferrulebee_mask(gs, model, sheet)
}
