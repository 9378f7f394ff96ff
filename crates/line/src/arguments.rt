// What stands behind a name: nothing, a number, a rate with or without its units, a direction, a phase.
ghost use Rattle.std.specs.Prelude.{◌≡◌, [], ◌∷◌, length, MatchOption};
ghost use Rattle.line.specs.Arguments.{units_of, units_at_end, amount_of, heading_of, unless_more};
ghost use Rattle.line.specs.Arguments.{diameter_asked, volume_asked, rate_asked, direction_asked, clear_asked, phase_asked, run_asked};

use drive::{Direction, RateUnit};
use words::Command;

// A direction as DIR and CLD name it. REV is the other direction, and not the lack of one.
#[derive(Clone, Copy)]
pub enum Heading {
    To(Direction),
    Reverse,
}

// What a name asks for: its query where nothing stands behind it, else the setting of what was read there, if it reads.
fn asked<T: Copy, F: FnOnce(T) -> Command + Drop>(
    s: &[u8],
    query: Command,
    read: Option<T>,
    setting: F,
) -> Command
    requires { F.IsAlwaysCallable setting }
    ensures query { length s.now ≡ 0 → result ≡ query }
    ensures setting { (length s.now ≡ 0 → ⊥) → MatchOption read (result ≡ Command.Malformed) (λ x. F.post setting x result) }
{
    if s.is_empty() {
        query
    } else {
        read.map_or(Command::Malformed, setting)
    }
}

// DIA
pub fn diameter_asked(s: &[u8]) -> Command
    ensures { result ≡ diameter_asked s.now }
{
    asked(
        s,
        Command::AskDiameter,
        decimal::read(s),
        Command::SetDiameter,
    )
}

// VOL
pub fn volume_asked(s: &[u8]) -> Command
    ensures { result ≡ volume_asked s.now }
{
    asked(s, Command::AskVolume, decimal::read(s), Command::SetVolume)
}

// RAT: the last two letters may be units, and the number is what stands before them.
pub fn rate_asked(s: &[u8]) -> Command
    ensures { result ≡ rate_asked s.now }
{
    let n = s.len();
    if n == 0 {
        return Command::AskRate;
    }
    let units = units_at_end(s);
    match decimal::read(amount_of(s)) {
        Some(x) => Command::SetRate(x, units),
        None => Command::Malformed,
    }
}

// The units at the end of a rate.
fn units_at_end(s: &[u8]) -> Option<RateUnit>
    ensures { result ≡ units_at_end s.now }
{
    let [.., volume, time] = s else {
        return None;
    };
    units_of(*volume, *time)
}

// The units of two letters.
fn units_of(volume: u8, time: u8) -> Option<RateUnit>
    ensures { result ≡ units_of (volume ∷ time ∷ []) }
{
    match (volume, time) {
        (b'U', b'M') => Some(RateUnit::Um),
        (b'M', b'M') => Some(RateUnit::Mm),
        (b'U', b'H') => Some(RateUnit::Uh),
        (b'M', b'H') => Some(RateUnit::Mh),
        _ => None,
    }
}

// A rate without the units at its end.
fn amount_of(s: &[u8]) -> &[u8]
    ensures { result.now ≡ amount_of s.now }
{
    if units_at_end(s).is_none() {
        return s;
    }
    &s[..s.len() - 2]
}

// DIR
pub fn direction_asked(s: &[u8]) -> Command
    ensures { result ≡ direction_asked s.now }
{
    if s.is_empty() {
        return Command::AskDirection;
    }
    match heading_of(s) {
        Some(Heading::To(d)) => Command::SetDirection(d),
        Some(Heading::Reverse) => Command::Reverse,
        None => Command::Malformed,
    }
}

// CLD
pub fn clear_asked(s: &[u8]) -> Command
    ensures { result ≡ clear_asked s.now }
{
    match heading_of(s) {
        Some(Heading::To(d)) => Command::Clear(d),
        _ => Command::Malformed,
    }
}

// INF, WDR or REV, and no more.
fn heading_of(s: &[u8]) -> Option<Heading>
    ensures { result ≡ heading_of s.now }
{
    match s {
        b"INF" => Some(Heading::To(Direction::Infuse)),
        b"WDR" => Some(Heading::To(Direction::Withdraw)),
        b"REV" => Some(Heading::Reverse),
        _ => None,
    }
}

// PHN
pub fn phase_asked(s: &[u8]) -> Command
    ensures { result ≡ phase_asked s.now }
{
    asked(
        s,
        Command::AskPhase,
        decimal::read_two(s),
        Command::SetPhase,
    )
}

// RUN
pub fn run_asked(s: &[u8]) -> Command
    ensures { result ≡ run_asked s.now }
{
    asked(s, Command::Run, decimal::read_two(s), Command::RunFrom)
}

// A command that takes no argument, or a function that takes no datum.
pub fn unless_more(s: &[u8], command: Command) -> Command
    ensures { result ≡ unless_more s.now command }
{
    if s.is_empty() {
        command
    } else {
        Command::Malformed
    }
}
