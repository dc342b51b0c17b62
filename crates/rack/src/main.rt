// A rack's main loop: one sending link through sealings that are done and sealings that are refused. Prints each record in
// hexadecimal digits, or the refusal's number.
#![tactic(auto)]

ghost use Rattle.std.specs.Prelude.{◌≡◌, ◌≤◌, length};
ghost use Rattle.calls.specs.Entry.{seal_link};

use links::Sender;
use sealing::Sealed;
use std::io;

// Seals on the lent link, and prints what came of it.
fn turn(
    rt: &impl Print,
    link: &mut Sender,
    message: &[u8],
    tape: &[u8],
    out: &mut [u8],
) -> io::Result<()>
    ensures { link.new ≡ seal_link link.old message.now tape.now (length out.old) }
{
    let done = lent::seal_through(*link, message, tape, out);
    *link = done.link;
    match done.answer {
        Ok(Sealed { len, .. }) => show::front(rt, out, len),
        Err(why) => println!(rt; "{}", u32::from(why)),
    }
}

// How many bytes of the message, the tape and the output a turn takes.
#[derive(Clone, Copy)]
struct Lengths {
    message: usize,
    tape: usize,
    out: usize,
    ghost message_fits: { message ≤ 257 },
    ghost tape_fits: { tape ≤ 39232 },
    ghost out_fits: { out ≤ 280 },
}

impl Lengths {
    fn of(message: usize, tape: usize, out: usize) -> Lengths
        requires { (message ≤ 257) × (tape ≤ 39232) × (out ≤ 280) }
        ensures { (result.message ≡ message) × (result.tape ≡ tape) × (result.out ≡ out) }
    {
        Lengths { message, tape, out }
    }
}

// Turns on a fresh link and, once it is keyed, one after the other.
fn turns(
    rt: &impl Print,
    keys: &[u8; 96],
    message: &[u8; 257],
    tape: &[u8; 39232],
) -> io::Result<()> {
    let mut out = [0u8; 280];
    let mut fresh = Sender::fresh();
    turn(rt, &mut fresh, message, tape, &mut out)?;
    let mut link = fresh.key(0x01020304, 0, keys).link;
    let turns = [
        Lengths::of(0, 2368, 24),
        Lengths::of(0, 2367, 24),
        Lengths::of(1, 4672, 24),
        Lengths::of(16, 4672, 40),
        Lengths::of(257, 39232, 280),
        Lengths::of(17, 6975, 41),
        Lengths::of(17, 6976, 40),
        Lengths::of(17, 6976, 41),
        Lengths::of(257, 0, 0),
        Lengths::of(20, 39232, 280),
        Lengths::of(256, 39232, 279),
        Lengths::of(256, 39232, 280),
    ];
    for n in turns {
        turn(
            rt,
            &mut link,
            &message[..n.message],
            &tape[..n.tape],
            &mut out[..n.out],
        )?;
    }
    Ok(())
}

fn main(rt: HostRuntime) -> io::Result<()> {
    let mut keys = [0u8; 96];
    let mut message = [0u8; 257];
    let mut tape = [0u8; 39232];
    show::fill(&mut keys, 11, 37);
    show::fill(&mut message, 3, 7);
    show::fill(&mut tape, 5, 13);
    turns(&rt, &keys, &message, &tape)
}
