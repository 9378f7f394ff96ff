// The pump under test: what each act does to it, and what is printed.
ghost use Rattle.std.specs.Prelude.{◌≡◌, ◌≤◌, length};
ghost use Rattle.player.specs.Printing.{lines_text};
ghost use Rattle.player.specs.Rigs.{fresh_rig, rig_after, printed, sent_rig, sent_line, send_rig, send_lines};
ghost use Rattle.player.specs.Rigs.{finish_rig, finish_lines, set_rig, set_lines, run_rig, run_lines};

use crate::elapsing::elapse;
use crate::joining::Lines;
use crate::printing::{answer_line, complaint, refusal_line, silence_line, ticks_line};
use pump::Pump;
use script::Act;

// The pump, and whether the present text has had an answer yet; the pump is there either way.
#[derive(Clone, Copy)]
pub struct Rig {
    pub pump: Pump,
    pub replied: bool,
}

// The rig after an act, and what it printed.
#[derive(Clone, Copy)]
pub struct Acted {
    pub rig: Rig,
    pub lines: Lines,
}

impl Rig {
    pub fn new() -> Rig
        ensures { result ≡ fresh_rig }
    {
        Rig {
            pump: Pump::new(),
            replied: false,
        }
    }

    // What it does, and what it prints.
    pub fn act(self, act: Act) -> Acted
        ensures rig { result.rig ≡ rig_after self act }
        ensures lines { lines_text result.lines ≡ printed self act }
    {
        let lines = match act {
            Act::Send(held, b) => return self.send(held, b),
            Act::Finish(held) => return self.finish(held),
            Act::Set(pin, level) => return self.set(pin, level),
            Act::Run(n) => return self.run(n),
            Act::Wait => Lines::new(),
            Act::Complain => complaint(),
        };
        Acted { rig: self, lines }
    }

    // A byte of a text, behind the return that was held back.
    fn send(self, held: bool, b: u8) -> Acted
        ensures rig { result.rig ≡ send_rig self held b }
        ensures lines { lines_text result.lines ≡ send_lines self held b }
        ensures few { length (lines_text result.lines) ≤ 46 }
    {
        if held {
            let first = self.sent(b'\r');
            let second = first.rig.sent(b);
            return Acted {
                rig: second.rig,
                lines: Lines::joined(first.lines.as_slice(), second.lines.as_slice()),
            };
        }
        self.sent(b)
    }

    // The return that ends a text.
    fn finish(self, held: bool) -> Acted
        ensures rig { result.rig ≡ finish_rig self held }
        ensures lines { lines_text result.lines ≡ finish_lines self held }
    {
        let last = self.send(held, b'\r');
        let silence = silence_line(last.rig.replied);
        Acted {
            rig: Rig {
                pump: last.rig.pump,
                replied: false,
            },
            lines: Lines::joined(last.lines.as_slice(), silence.as_slice()),
        }
    }

    // One byte. A line that it prints is an answer to the text.
    fn sent(self, b: u8) -> Acted
        ensures rig { result.rig ≡ sent_rig self b }
        ensures lines { lines_text result.lines ≡ sent_line self b }
        ensures few { length (lines_text result.lines) ≤ 23 }
    {
        let mut answer = [0u8; 24];
        let report = self.pump.byte(b, &mut answer);
        let lines = answer_line(report.refusal.is_some(), &answer[..report.length]);
        let rig = Rig {
            pump: report.pump,
            replied: self.replied | !lines.is_empty(),
        };
        Acted { rig, lines }
    }

    // A pin's level; printed only where the call refuses it.
    fn set(self, pin: u8, level: u8) -> Acted
        ensures rig { result.rig ≡ set_rig self pin level }
        ensures lines { lines_text result.lines ≡ set_lines self pin level }
    {
        let report = self.pump.pin(pin, level);
        Acted {
            rig: Rig {
                pump: report.pump,
                ..self
            },
            lines: refusal_line(report.refusal.is_some()),
        }
    }

    // Ticks, and the counts of their steps. They are refused where the state is not sound.
    fn run(self, n: u32) -> Acted
        ensures rig { result.rig ≡ run_rig self n }
        ensures lines { lines_text result.lines ≡ run_lines self n }
    {
        let elapsed = elapse(self.pump, n);
        Acted {
            rig: Rig {
                pump: elapsed.pump,
                ..self
            },
            lines: ticks_line(
                elapsed.refused,
                n as u64,
                elapsed.infused,
                elapsed.withdrawn,
            ),
        }
    }
}
