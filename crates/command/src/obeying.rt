// One command, with the phase in hand, the function of the phase one number higher, and the number of phases.
ghost use Rattle.std.specs.Prelude.{◌≡◌, ◌≤◌};
ghost use Rattle.command.specs.Obeying.{answer, steer, decide, settle, set_phase_to, set_volume, set_direction, set_function};
ghost use Rattle.command.specs.Obeying.{set_diameter, set_rate, tune, choose, clear_total, reset, obey};

use crate::judging::{
    judge_diameter, judge_direction, judge_function, judge_idle, judge_phase, judge_stored,
    judge_tuning, judge_volume,
};
use crate::phases::{with_direction, with_function, with_stored, with_volume};
use crate::queries::{ask_phase, ask_rate, ask_totals, ask_volume};
use dispense::Rate;
use drive::{Direction, RateUnit};
use program::{Core, Mode, Run};
use words::{Command, Declined, Function, Phase, Reply};

// What a command asks to be done to the table of phases: nothing; another phase in hand; all phases as at power-up. Three answers to one
// question: an Option would add a `Some` wherever one is made, and take no test away.
#[derive(Clone, Copy)]
pub enum Edit {
    Keep,
    Write(Phase),
    Renew,
}

// What a command does: the next core, the edit of the phases, and the reply.
#[derive(Clone, Copy)]
pub struct Obeyed {
    pub core: Core,
    pub edit: Edit,
    pub reply: Reply,
}

// What a command meets of the phases: the phase in hand, the function of the phase one number higher, and how many there are.
#[derive(Clone, Copy)]
pub struct InHand {
    pub phase: Phase,
    pub next: Function,
    pub phases: u8,
}

// What asks changes nothing, and neither does what cannot be read; every other command is carried out by a function of its own.
pub fn obey(core: Core, in_hand: InHand, command: Command) -> Obeyed
    requires { core.run.place.current ≤ 100 }
    ensures { result ≡ obey core in_hand.phase in_hand.next in_hand.phases command }
{
    let hand = in_hand.phase;
    let phases = in_hand.phases;
    let reply = match command {
        Command::Malformed => Reply::Malformed,
        Command::Status => Reply::Status,
        Command::AskDiameter => Reply::Number(core.syringe.diameter as u32),
        Command::SetDiameter(x) => return set_diameter(core, x),
        Command::AskRate => ask_rate(core.run, hand),
        Command::SetRate(x, units) => return set_rate(core, hand, in_hand.next, x, units),
        Command::AskVolume => ask_volume(core.syringe, hand),
        Command::SetVolume(x) => return set_volume(core, hand, x),
        Command::AskDirection => Reply::Direction(hand.direction),
        Command::SetDirection(d) => return set_direction(core, hand, d),
        Command::Reverse => return set_direction(core, hand, hand.direction.reverse()),
        Command::AskPhase => ask_phase(core.run, core.chosen, phases),
        Command::SetPhase(n) => return choose(core, n, phases),
        Command::AskFunction => Reply::Function(hand.function),
        Command::SetFunction(f) => return set_function(core, hand, f, phases),
        Command::Run => return steer(core, core.run.run_on()),
        Command::RunFrom(n) => return steer(core, core.run.run_from(n, phases)),
        Command::Stop => return steer(core, core.run.stop_now()),
        Command::AskDispensed => ask_totals(core.ledger, core.syringe),
        Command::Clear(d) => return clear_total(core, d),
        Command::Reset => return reset(core),
    };
    answer(core, reply)
}

// A reply, and nothing changed.
fn answer(core: Core, reply: Reply) -> Obeyed
    ensures { result ≡ answer core reply }
{
    Obeyed {
        core,
        edit: Edit::Keep,
        reply,
    }
}

// RUN and STP: what they make of the program under way; what is declined is told, and changes nothing.
fn steer(core: Core, steered: Result<Run, Declined>) -> Obeyed
    ensures { result ≡ steer core steered }
{
    match steered {
        Ok(run) => answer(core.with_run(run), Reply::Status),
        Err(declined) => answer(core, declined.into()),
    }
}

// What is accepted changes the core and may edit the phases; what is not is told, and changes nothing.
fn decide(core: Core, after: Core, edit: Edit, verdict: Result<(), Declined>) -> Obeyed
    ensures { result ≡ decide core after edit verdict }
{
    match verdict {
        Ok(()) => Obeyed {
            core: after,
            edit,
            reply: Reply::Status,
        },
        Err(why) => answer(core, why.into()),
    }
}

// An accepted setting makes a paused pump a stopped one.
fn settle(run: Run) -> Run
    ensures { result ≡ settle run }
{
    if let Mode::Paused = run.mode {
        return run.stop();
    }
    run
}

// VOL, DIR and FUN: the phase in hand as the setting makes it.
fn set_phase_to(core: Core, phase: Phase, verdict: Result<(), Declined>) -> Obeyed
    ensures { result ≡ set_phase_to core phase verdict }
{
    decide(
        core,
        core.with_run(settle(core.run)),
        Edit::Write(phase),
        verdict,
    )
}

// VOL
fn set_volume(core: Core, hand: Phase, x: u32) -> Obeyed
    ensures { result ≡ set_volume core hand x }
{
    let verdict = judge_volume(core.run.is_operating(), hand);
    set_phase_to(core, with_volume(hand, x), verdict)
}

// DIR; the like of VOL in form alone: judged by another rule, and another field is set
fn set_direction(core: Core, hand: Phase, direction: Direction) -> Obeyed
    ensures { result ≡ set_direction core hand direction }
{
    let verdict = judge_direction(core.run.is_operating(), hand);
    set_phase_to(core, with_direction(hand, direction), verdict)
}

// FUN
fn set_function(core: Core, hand: Phase, function: Function, phases: u8) -> Obeyed
    ensures { result ≡ set_function core hand function phases }
{
    let verdict = judge_function(core.run.is_operating(), function, phases);
    set_phase_to(core, with_function(hand, function), verdict)
}

// DIA
fn set_diameter(core: Core, x: u32) -> Obeyed
    ensures { result ≡ set_diameter core x }
{
    let verdict = judge_diameter(core.run.is_operating(), x);
    let mut after = core.with_run(settle(core.run));
    if x <= drive::MOST_DIAMETER as u32 {
        after.syringe.diameter = x as u16;
    }
    decide(core, after, Edit::Keep, verdict)
}

// RAT: while operating it alters the current rate, else the stored one.
fn set_rate(core: Core, hand: Phase, next: Function, x: u32, units: Option<RateUnit>) -> Obeyed
    ensures { result ≡ set_rate core hand next x units }
{
    if core.run.is_operating() {
        let verdict = judge_tuning(core.run, core.syringe, hand, next, x, units);
        return decide(core, core.with_run(tune(core.run, x)), Edit::Keep, verdict);
    }
    let verdict = judge_stored(core.syringe, hand, x, units);
    set_phase_to(
        core,
        with_stored(hand, x, units.unwrap_or(hand.unit)),
        verdict,
    )
}

// The current rate alone, in its units; the time store and the stored rate stay.
fn tune(run: Run, x: u32) -> Run
    ensures { result ≡ tune run x }
{
    run.with_rate(
        run.rate.map(|rate| Rate {
            thousandths: x,
            ..rate
        }),
    )
}

// PHN keeps a pause.
fn choose(core: Core, n: u8, phases: u8) -> Obeyed
    ensures { result ≡ choose core n phases }
{
    let verdict = judge_phase(core.run.is_operating(), n, phases);
    let after = Core { chosen: n, ..core };
    decide(core, after, Edit::Keep, verdict)
}

// CLD keeps a pause.
fn clear_total(core: Core, direction: Direction) -> Obeyed
    ensures { result ≡ clear_total core direction }
{
    let verdict = judge_idle(core.run.is_operating());
    let after = Core {
        ledger: core.ledger.clear(direction),
        ..core
    };
    decide(core, after, Edit::Keep, verdict)
}

// *RESET
fn reset(core: Core) -> Obeyed
    ensures { result ≡ reset core }
{
    Obeyed {
        core: core.reset(),
        edit: Edit::Renew,
        reply: Reply::Status,
    }
}
