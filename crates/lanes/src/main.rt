// Shared sealing and the lane report: records, tag shares, lanes and refusals.
#![tactic(auto)]

ghost use Rattle.std.specs.Prelude.{◌≤◌};

use links::Sender;
use path::tape_need;
use sealing::Sealed;
use shares::PAIRS;
use show::Hex;
use std::{fmt, io};

const NUMBER: u32 = 0x01020304;

// The longest message, and a tape that is a byte longer than it needs.
type Message = [u8; 256];

type Tape = [u8; 39233];

// Where a lane is.
#[derive(Clone, Copy)]
struct Place {
    call: u32,
    round: u32,
    lane: u32,
}

// Lane 0 of round 1 of call 1.
const FIRST: Place = Place {
    call: 1,
    round: 1,
    lane: 0,
};

impl fmt::Display for Place {
    fn fmt<W: fmt::Write>(&self, f: &mut fmt::Formatter<W>) -> fmt::Result {
        write!(f, "{} {} {}", self.call, self.round, self.lane)
    }
}

// What is sealed: a message on a link with a tape.
#[derive(Drop)]
struct Job<'a> {
    link: Sender,
    message: &'a [u8],
    tape: &'a [u8],
}

impl<'a> Job<'a> {
    fn new(link: Sender, message: &'a [u8], tape: &'a [u8]) -> Job<'a> {
        Job {
            link,
            message,
            tape,
        }
    }

    // The first n bytes of a message, with a tape that is `more` bytes longer than they need.
    fn first(link: Sender, message: &'a Message, n: usize, tape: &'a Tape, more: usize) -> Job<'a>
        requires { (n ≤ 256) × (more ≤ 1) }
    {
        Job::new(link, &message[..n], &tape[..tape_need(n) + more])
    }

    // Prints the record, its tag's shares and how much of the tape was read; hands the link back.
    fn seal(&self, rt: &impl Print) -> io::Result<Sender> {
        let mut record = [0u8; 284];
        let sealing = sealing::seal(self.link, self.message, self.tape, &mut record);
        if let Ok(Sealed { len, used }) = sealing.answer {
            print!(rt; "seal {} ", self.message.len())?;
            show::front(rt, &record, len)?;
            println!(rt; "shares {}", Hex(&sealing.shares))?;
            println!(rt; "used {used}")?;
        }
        Ok(sealing.link)
    }

    // The number that the report of a lane gives.
    fn report(&self, place: Place, out: &mut [u8]) -> u32 {
        let Place { call, round, lane } = place;
        answers::code(reporting::report(self.link, self.message, self.tape, call, round, lane, out))
    }

    // Prints a lane.
    fn lane(&self, rt: &impl Print, place: Place) -> io::Result<()> {
        let mut out = [0u8; 48];
        self.report(place, &mut out);
        println!(rt; "lane {} {place} {}", self.message.len(), Hex(&out))
    }

    // The three lanes of the first round of a call, of one in the middle, of the last and of the output.
    fn lanes(&self, rt: &impl Print, call: u32) -> io::Result<()> {
        let last = PAIRS as u32;
        for round in [1, 18, last - 1, last] {
            for lane in 0..3 {
                self.lane(rt, Place { call, round, lane })?;
            }
        }
        Ok(())
    }
}

fn refused_reports(rt: &impl Print, link: Sender) -> io::Result<()> {
    let tape = [0u8; 2368];
    let mut out = [0u8; 48];
    let short_tape = Job::new(link, b"", &tape[1..]).report(FIRST, &mut out);
    println!(rt; "report tape one short {short_tape}")?;
    let long_message = Job::new(link, &[0; 257], &tape).report(FIRST, &mut out);
    println!(rt; "report 257 bytes {long_message}")?;
    let not_keyed = Job::new(Sender::fresh(), b"", &tape).report(FIRST, &mut out);
    println!(rt; "report not keyed {not_keyed}")?;
    let short_output = Job::new(link, b"", &tape).report(FIRST, &mut out[1..]);
    println!(rt; "report output one short {short_output}")
}

// The last call, round and lane, the ones past them, and each with each.
fn refused_lanes(rt: &impl Print, link: Sender) -> io::Result<()> {
    let tape = [0u8; 2368];
    let job = Job::new(link, b"", &tape);
    let last = PAIRS as u32;
    for call in [2, 3] {
        for round in [last, last + 1] {
            for lane in [2, 3] {
                let place = Place { call, round, lane };
                let number = job.report(place, &mut [0; 48]);
                println!(rt; "report {place} {number}")?;
            }
        }
    }
    Ok(())
}

// Lanes of the first call, of the one behind CTR's and of the last.
fn reports(rt: &impl Print, link: Sender, message: &Message, tape: &Tape) -> io::Result<()> {
    let empty = Job::first(link, message, 0, tape, 0);
    for call in [1, 2] {
        empty.lanes(rt, call)?;
    }
    let two_blocks = Job::first(link, message, 17, tape, 0);
    for call in [1, 3, 6] {
        two_blocks.lanes(rt, call)?;
    }
    Ok(())
}

// The link of that width, keyed with other keys, and with this last number.
fn link_with(wide: u32, last: u64) -> Sender {
    let mut keys = [0u8; 96];
    show::fill(&mut keys, 2, 5);
    let mut link = Sender::fresh().key(NUMBER, wide, &keys).link;
    link.last = last;
    link
}

// A wide link that goes past the greatest number of a narrow one.
fn wide_link(rt: &impl Print, message: &Message, tape: &Tape) -> io::Result<()> {
    let job = Job::first(link_with(1, 4294967295), message, 17, tape, 0);
    job.seal(rt)?;
    job.lanes(rt, 1)
}

// Last numbers at the greatest of a width, above it and below it.
fn last_numbers(rt: &impl Print) -> io::Result<()> {
    for (name, wide, last) in [
        ("narrow", 0, 4294967295),
        ("narrow", 0, 4294967296),
        ("wide", 1, 18446744073709551614),
        ("wide", 1, 18446744073709551615),
    ] {
        let number = Job::new(link_with(wide, last), b"", &[0; 2368]).report(FIRST, &mut [0; 48]);
        println!(rt; "report {name} last {last} {number}")?;
    }
    Ok(())
}

fn main(rt: HostRuntime) -> io::Result<()> {
    let mut keys = [0u8; 96];
    let mut message = [0u8; 256];
    let mut tape = [0u8; 39233];
    show::fill(&mut keys, 1, 11);
    show::fill(&mut message, 3, 7);
    show::fill(&mut tape, 5, 13);
    let mut link = Sender::fresh().key(NUMBER, 0, &keys).link;
    for n in [0, 1, 15, 16, 17, 48, 256] {
        link = Job::first(link, &message, n, &tape, 0).seal(&rt)?;
    }
    reports(&rt, link, &message, &tape)?;
    for more in [0, 1] {
        Job::first(link, &message, 0, &tape, more).seal(&rt)?;
    }
    refused_reports(&rt, link)?;
    refused_lanes(&rt, link)?;
    wide_link(&rt, &message, &tape)?;
    last_numbers(&rt)
}
