// The lane report: a lane of the sealing that a link would do next.
#![tactic(auto)]

ghost use Rattle.std.specs.Prelude.{◌≡◌, length};
ghost use Rattle.calls.specs.Entry.{report_answer, report_output};
ghost use Rattle.reporting.specs.Says.{report_number, report_says};

use links::{Nonce, Sender, Text};
use outgoing::lane_of;
use path::{call_count, run};
use sealable::{InputRefusal, test_inputs};
use shares::PAIRS;
use walks::{LaneRefusal, Watch, test_lane};

// Why a report is refused.
#[derive(Clone, Copy, Debug, PartialEq, Eq)]
pub enum ReportRefusal {
    Inputs(InputRefusal),
    Lane(LaneRefusal),
}

impl From<InputRefusal> for ReportRefusal {
    ghost use Rattle.reporting.specs.declared.ReportRefusal.TheVariants.{Inputs};

    ghost from_gives = { λ why refusal. refusal ≡ Inputs why };

    fn from(why: InputRefusal) -> ReportRefusal {
        ReportRefusal::Inputs(why)
    }
}

impl From<LaneRefusal> for ReportRefusal {
    ghost use Rattle.reporting.specs.declared.ReportRefusal.TheVariants.{Lane};

    ghost from_gives = { λ why refusal. refusal ≡ Lane why };

    fn from(why: LaneRefusal) -> ReportRefusal {
        ReportRefusal::Lane(why)
    }
}

// The refusal's number.
impl From<ReportRefusal> for u32 {
    ghost from_gives = { λ why n. n ≡ report_number why };

    fn from(why: ReportRefusal) -> u32 {
        match why {
            ReportRefusal::Inputs(why) => why.into(),
            ReportRefusal::Lane(why) => why.into(),
        }
    }
}

// Writes a lane of the sealing that the link would do next.
pub fn report(
    link: Sender,
    message: &[u8],
    tape: &[u8],
    call: u32,
    round: u32,
    lane: u32,
    out: &mut [u8],
) -> Result<(), ReportRefusal>
    ensures result_value { report_says result
        ≡ report_answer link message.now tape.now call round lane (length out.old) }
    ensures out_after { out.new
        ≡ report_output link message.now tape.now call round lane out.old }
{
    test_inputs(link, message, tape)?;
    let calls = call_count(message.len());
    test_lane(calls, PAIRS, call, round, lane, out.len())?;
    let nonce = Nonce {
        number: link.number,
        sequence: link.last + 1,
    };
    let watch = Watch {
        call: call as usize,
        pair: round as usize,
    };
    let text = Text::of(message);
    let mut outs = [[0; 48]; 16];
    let walk = run(nonce, link.ke, link.km, &text, tape, watch, &mut outs);
    blocks::put_bytes(&lane_of(walk.seen, lane), out, 0);
    Ok(())
}
