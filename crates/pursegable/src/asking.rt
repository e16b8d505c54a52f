// Why a group went onto several lines, exported: over words that the caller lends.
// In order: an answer in numbers; the report; the export.
ghost use Rattle.std.specs.Prelude.{◌≡◌, length};
ghost use Rattle.rules.specs.Why.{told as told_reason};
ghost use Rattle.summary.specs.Promise.{reason_of};
ghost use Rattle.why.specs.Promise.{why_of};
ghost use Rattle.pursegable.specs.WhyExported.{numbers_of, five_why, ExportedWhy};

use crate::{REPORT_WORDS, limit_for, tell};
use summary::Reason;
use why::WhyRefused;

// An answer in numbers: the answer; 0 flat or 1 broken; the reason; node and column. On a refusal all but the first are 0.
// kept: numbers, since C is told these five words.
#[derive(Clone, Copy)]
pub struct Numbers {
    pub answer: u32,
    pub broken: u32,
    pub reason: u32,
    pub node: u32,
    pub column: u32,
}

// A reason: 1 a Fail, 2 a Hardline inside the group, 3 a Text past the width, 4 nothing left, 5 a Hardline after the group.
impl From<Reason> for Numbers {
    ghost from_gives = { λ reason numbers. numbers_of numbers ≡ told_reason (reason_of reason) };

    fn from(reason: Reason) -> Numbers {
        let (broken, reason, node, column) = match reason {
            Reason::AtFail(node, column) => (1, 1, node.0, column.0),
            Reason::HardlineInside(node, column) => (1, 2, node.0, column.0),
            Reason::TextPast(node, column) => (1, 3, node.0, column.0),
            Reason::NothingLeft => (0, 4, 0, 0),
            Reason::HardlineAfter(node) => (0, 5, node.0, 0),
        };
        Numbers {
            answer: 0,
            broken,
            reason,
            node,
            column,
        }
    }
}

impl From<Result<Reason, WhyRefused>> for Numbers {
    ghost from_gives = { λ answer numbers. numbers_of numbers ≡ why_of answer };

    fn from(answer: Result<Reason, WhyRefused>) -> Numbers {
        match answer {
            Ok(reason) => Numbers::from(reason),
            Err(refused) => Numbers {
                answer: u32::from(refused),
                broken: 0,
                reason: 0,
                node: 0,
                column: 0,
            },
        }
    }
}

// The numbers in the words of a report.
fn five_why(w: Numbers) -> [u32; REPORT_WORDS]
    ensures { result ≡ five_why (numbers_of w) }
{
    [w.answer, w.broken, w.reason, w.node, w.column]
}

// Why the Group that is visited at this step goes flat or broken. The answer is returned, and is the report's first word.
pub fn pursegable_why(
    table: &[u32],
    text: &[u8],
    width: u32,
    limit: u32,
    step: u32,
    out: &mut [u8],
    events: &mut [u32],
    work: &mut [u32],
    report: &mut [u32],
) -> u32
    ensures { ExportedWhy
        table.now text.now width limit step
        out.old events.old work.old report.old
        result out.new events.new work.new report.new }
{
    let limit = limit_for(limit, report.len());
    let answer = why::why(table, text, width, limit, step, out, events, work);
    let w = Numbers::from(answer);
    tell(five_why(w), report);
    w.answer
}
