// What is told of two strips, for C: the evidence of a grant and the spans.
ghost use Rattle.std.specs.Prelude.{◌≡◌, length};
ghost use Rattle.crossing.specs.Part.{evidence_part};
ghost use Rattle.judge.specs.Judge.{judged_by};
ghost use Rattle.span.specs.Answer.{spans_answer, list_after};

use crossing::part::Part;
use span::SpansAnswer;

pub fn ferrulebee_evidence<'a>(m: &'a [u32], s: &'a [u32], now: u32) -> Part
    ensures { result ≡ evidence_part (judged_by m.now s.now now) m.now s.now }
{
    crossing::part::evidence(m, s, now)
}

pub fn ferrulebee_spans(m: &[u32], s: &[u32], now: u32, list: &mut [u32]) -> SpansAnswer
    ensures { (result ≡ spans_answer m.now s.now now (length list.old)) × (list.new ≡ list_after m.now s.now now list.old) }
{
    span::spans(m, s, now, list).into()
}
