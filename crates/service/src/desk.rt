// The pump on the service bench: what an item asks for is done to it, and printed.
ghost use Rattle.std.specs.Prelude.{◌≤◌, length};

use crate::places::{Ask, MOST_DATA, Place};
use crate::printing::{Line, byte_line, ticks_line};
use player::{Elapsed, Rig};
use pump::Pump;
use script::{Act, Spot};
use std::io;
use std::io::Write;

// The pump as the bench program has it, and where in a line the input stands.
#[derive(Clone, Copy)]
pub struct Desk {
    pub rig: Rig,
    pub place: Place,
}

impl Desk {
    pub fn new() -> Desk {
        Desk {
            rig: Rig::new(),
            place: Place::Line(Spot::Start),
        }
    }

    // One byte of the input.
    pub fn take(self, b: u8, held: &mut [u8], output: &mut impl Write) -> io::Result<Desk> {
        let turn = self.place.after(b, held);
        let next = turn.place;
        let rig = done(self.rig, turn.ask, held, output)?;
        Ok(Desk { rig, place: next })
    }

    // The end of the input.
    pub fn close(self, held: &[u8], output: &mut impl Write) -> io::Result<()> {
        done(self.rig, self.place.input_end(), held, output)?;
        Ok(())
    }
}

fn done(rig: Rig, ask: Ask, held: &[u8], output: &mut impl Write) -> io::Result<Rig> {
    match ask {
        Ask::Bench(act) => acted(rig, act, output),
        Ask::Elapse(n) => elapsed(rig, n, output),
        Ask::Bytes(n) => sent(rig, first(held, n), output),
        Ask::Packet(n) if n <= held.len() => packed(rig, &held[..n], output),
        Ask::Packet(_) => acted(rig, Act::Complain, output),
    }
}

// The first `n` bytes that are held.
fn first(held: &[u8], n: usize) -> &[u8] {
    &held[..n.min(held.len())]
}

// What the bench program does too.
fn acted(rig: Rig, act: Act, output: &mut impl Write) -> io::Result<Rig> {
    if !act.is_deed() {
        return Ok(rig);
    }
    let acted = rig.act(act);
    output.write_all(acted.lines.as_slice())?;
    Ok(acted.rig)
}

// Ticks: their steps, beeps and the level of the output behind them; then the packets that they sent.
fn elapsed(rig: Rig, n: u32, output: &mut impl Write) -> io::Result<Rig> {
    let elapsed = player::elapse(rig.pump, n);
    output.write_all(ticks_line(n, elapsed).as_slice())?;
    if elapsed.sent {
        packets(rig.pump, n, output)?;
    }
    Ok(Rig {
        pump: elapsed.pump,
        replied: rig.replied,
    })
}

// The packets that so many ticks send, each a line. The counts of all of them stand before the first packet, and nothing here says how many
// packets follow: so these ticks are run once more, from the same pump, for their packets alone, however many there are.
fn packets(pump: Pump, n: u32, output: &mut impl Write) -> io::Result<()> {
    let mut now = pump;
    let mut left = n;
    // no index loop: a step is what a call leaves of the ticks
    while 0 < left {
        let mut packet = [0u8; 24];
        let report = now.ticks(player::portion(left), &mut packet);
        if report.refusal.is_some() {
            break;
        }
        answered(false, &packet[..report.length], output)?;
        left -= report.ticks;
        now = report.pump;
    }
    Ok(())
}

// The data of one good packet, which is sent byte by byte. More than a packet has are no item.
fn packed(rig: Rig, data: &[u8], output: &mut impl Write) -> io::Result<Rig> {
    if MOST_DATA < data.len() {
        return acted(rig, Act::Complain, output);
    }
    let mut packet = [0u8; 45];
    let end = packet::send(data, &mut packet, 0);
    sent(rig, &packet[..end], output)
}

// Bytes, one after the other: each answer is a line, and `-` stands for none at all.
fn sent(rig: Rig, bytes: &[u8], output: &mut impl Write) -> io::Result<Rig> {
    let mut now = unanswered(rig.pump);
    for b in bytes {
        now = byte_sent(now, *b, output)?;
    }
    if !now.replied {
        output.write_all(b"-\n")?;
    }
    Ok(unanswered(now.pump))
}

// One byte. A line that it prints is an answer.
fn byte_sent(rig: Rig, b: u8, output: &mut impl Write) -> io::Result<Rig> {
    let mut answer = [0u8; 24];
    let report = rig.pump.byte(b, &mut answer);
    let told = answered(report.refusal.is_some(), &answer[..report.length], output)?;
    Ok(Rig {
        pump: report.pump,
        replied: rig.replied | told,
    })
}

// The line of a call that wrote `answer`, and whether there is one.
fn answered(refused: bool, answer: &[u8], output: &mut impl Write) -> io::Result<bool>
    requires { length answer.now ≤ 24 }
{
    let line: Line = byte_line(refused, answer);
    output.write_all(line.as_slice())?;
    Ok(!line.is_empty())
}

fn unanswered(pump: Pump) -> Rig {
    Rig {
        pump,
        replied: false,
    }
}
