// Whether the pump listens to lines or to packets (document 02, 2/12): the mode, the time limit, its timer, and the packet under way.
// The crate knows neither commands nor the pump: that SAF and *RESET choose the mode, that a good packet's data are a command, that
// the end of the timer is alarm T and that `?COM` is sent is said above; what a packet is, below.
//
// In Basic mode there is neither a timer nor a part packet, by type. The array stands beside them, so that a good packet's data are read
// from it with no question of the mode.
#![tactic(auto)]

ghost use Rattle.std.specs.Prelude.{◌≡◌, true};
ghost use Rattle.link.specs.Link.{receiver_of, basic_link, whole_limit, limited_to, safe_link, cleared_link, is_safe, limit_of, ticks_left};
ghost use Rattle.link.specs.Link.{timer_after, heard_by, link_after, timer_ticks, link_ticks, is_sound_timer, is_sound_link};

use packet::{Arrived, Outcome, Part, Receiver};

// Safe mode: the time limit in seconds, its timer, and the part packet.
#[derive(Clone, Copy)]
pub struct Safety {
    pub limit: u8,
    // so many ticks are left until alarm T, the alarm's tick among them; with none the timer waits for the next good packet
    pub timer: Option<u32>,
    // none: outside a packet
    pub part: Option<Part>,
}

// The bytes are the data of the packet under way, and zeros behind them.
#[derive(Clone, Copy)]
pub struct Link {
    pub bytes: [u8; 40],
    // none: Basic mode
    pub safety: Option<Safety>,
}

// A link after one byte, and what that byte told.
#[derive(Clone, Copy)]
pub struct Taken {
    pub link: Link,
    pub outcome: Outcome,
}

// A second has 1,000 ticks.
const TICKS_A_SECOND: u32 = 1000;

impl Link {
    pub fn basic() -> Link
        ensures { result ≡ basic_link }
    {
        Link {
            bytes: [0; 40],
            safety: None,
        }
    }

    // What an accepted SAF n leaves: 0 is Basic mode.
    pub fn limited(n: u8) -> Link
        ensures { result ≡ limited_to n }
    {
        if n == 0 {
            return Link::basic();
        }
        joined(n, whole_limit(n), Receiver::outside())
    }

    // Whether calls from Basic mode can have brought the link here, as far as its parts go.
    pub fn is_sound(self) -> bool
        ensures { result ≡ is_sound_link self }
    {
        match self.safety {
            None => true,
            Some(safety) => {
                (1 <= safety.limit) & safety.is_timer_sound() & safety.receiver(self.bytes).sound()
            }
        }
    }

    pub fn is_safe(self) -> bool
        ensures { result ≡ is_safe self }
    {
        self.safety.is_some()
    }

    // What the query SAF prints: 0 in Basic mode.
    pub fn limit(self) -> u8
        ensures { result ≡ limit_of self }
    {
        self.safety.map_or(0, |safety| safety.limit)
    }

    // How many ticks there are until alarm T, that one among them; 0 where no timer runs.
    pub fn left(self) -> u32
        ensures { result ≡ ticks_left self }
    {
        self.safety.map_or(0, |safety| safety.timer.unwrap_or(0))
    }

    // One byte more. Of a good packet the data stay, for the caller to read.
    pub fn after(self, b: u8) -> Taken
        requires { is_sound_link self ≡ true }
        ensures { result ≡ link_after self b }
    {
        match self.safety {
            None => Taken {
                link: self,
                outcome: Outcome::Nothing,
            },
            Some(safety) => safety.heard(safety.receiver(self.bytes).after(b)),
        }
    }

    // The data were read: zeros in their place, so that equal histories give equal links.
    pub fn cleared(self) -> Link
        ensures { result ≡ cleared_link self }
    {
        Link {
            bytes: [0; 40],
            safety: self.safety,
        }
    }

    // So many ticks, one after the other, done at once.
    pub fn ticked(self, n: u32) -> Link
        requires { is_sound_link self ≡ true }
        ensures { result ≡ link_ticks n self }
    {
        match self.safety {
            None => self,
            Some(safety) => {
                let receiver = safety.receiver(self.bytes).quiet(n);
                joined(safety.limit, safety.timer_ticked(n), receiver)
            }
        }
    }
}

impl Safety {
    // The receiver that the bytes beside it and the part packet are.
    fn receiver(self, bytes: [u8; 40]) -> Receiver
        ensures { result ≡ receiver_of bytes self.part }
    {
        Receiver {
            bytes,
            part: self.part,
        }
    }

    fn is_timer_sound(self) -> bool
        ensures { result ≡ is_sound_timer self.limit self.timer }
    {
        match self.timer {
            None => true,
            Some(t) => (1 <= t) & (t <= TICKS_A_SECOND * self.limit as u32),
        }
    }

    // The link with what a byte made of the receiver.
    fn heard(self, arrived: Arrived) -> Taken
        ensures { result ≡ heard_by self arrived }
    {
        let timer = self.timer_after(arrived.outcome);
        Taken {
            link: joined(self.limit, timer, arrived.receiver),
            outcome: arrived.outcome,
        }
    }

    // A good packet restarts the timer, to whichever address; `?COM` does not.
    fn timer_after(self, outcome: Outcome) -> Option<u32>
        ensures { result ≡ timer_after self outcome }
    {
        match outcome {
            Outcome::Nothing => self.timer,
            Outcome::Wrong => self.timer,
            Outcome::Good(_) => whole_limit(self.limit),
        }
    }

    // The timer after so many ticks: from its end on it waits.
    fn timer_ticked(self, n: u32) -> Option<u32>
        requires { is_sound_timer self.limit self.timer ≡ true }
        ensures { result ≡ timer_ticks n self.timer }
    {
        let t = self.timer?;
        if n < t { Some(t - n) } else { None }
    }
}

// The timer with all the ticks of so many seconds.
fn whole_limit(n: u8) -> Option<u32>
    ensures { result ≡ whole_limit n }
{
    Some(TICKS_A_SECOND * n as u32)
}

// A link in Safe mode.
fn joined(limit: u8, timer: Option<u32>, receiver: Receiver) -> Link
    ensures { result ≡ safe_link limit timer receiver }
{
    let bytes = receiver.bytes;
    let safety = Safety {
        limit,
        timer,
        part: receiver.part,
    };
    Link {
        bytes,
        safety: Some(safety),
    }
}
