// What a query answers. The phase in hand is the running one while operating, else the chosen one.
ghost use Rattle.std.specs.Prelude.{◌≡◌};
ghost use Rattle.command.specs.Queries.{ask_rate, stored_rate, current_rate, ask_volume, ask_phase, ask_totals};

use dispense::{Ledger, Rate};
use drive::Syringe;
use program::Run;
use words::{Phase, Reply};

// RAT: while operating the current rate, in any phase; else the stored one, of a rate phase.
pub fn ask_rate(run: Run, hand: Phase) -> Reply
    ensures { result ≡ ask_rate run hand }
{
    if run.is_operating() {
        return current_rate(run.rate);
    }
    stored_rate(hand)
}

fn current_rate(rate: Option<Rate>) -> Reply
    ensures { result ≡ current_rate rate }
{
    match rate {
        None => Reply::NotApplicable,
        Some(rate) => Reply::Rate(rate.thousandths, rate.unit),
    }
}

fn stored_rate(hand: Phase) -> Reply
    ensures { result ≡ stored_rate hand }
{
    if hand.function.is_flow() {
        return Reply::Rate(hand.rate, hand.unit);
    }
    if hand.function.is_ramp() {
        return Reply::Number(hand.rate);
    }
    Reply::NotApplicable
}

// VOL: of a rate phase, in the unit of the present diameter.
pub fn ask_volume(syringe: Syringe, hand: Phase) -> Reply
    ensures { result ≡ ask_volume syringe hand }
{
    if hand.function.is_rate_phase() {
        return Reply::Volume(hand.volume, syringe.volume_unit());
    }
    Reply::NotApplicable
}

// PHN: the chosen phase, while operating the running one, which has no number past the last phase.
pub fn ask_phase(run: Run, chosen: u8, phases: u8) -> Reply
    ensures { result ≡ ask_phase run chosen phases }
{
    if run.is_operating() {
        let n = run.place.current;
        if n <= phases {
            return Reply::Phase(n);
        }
        return Reply::NotApplicable;
    }
    Reply::Phase(chosen)
}

// DIS: both totals, cut off to thousandths of the unit of the present diameter, if both can be printed.
pub fn ask_totals(ledger: Ledger, syringe: Syringe) -> Reply
    ensures { result ≡ ask_totals ledger syringe }
{
    let unit = syringe.volume_unit();
    let infused = ledger.totals.infused / unit.thousandth();
    let withdrawn = ledger.totals.withdrawn / unit.thousandth();
    if (infused < 10_000_000) & (withdrawn < 10_000_000) {
        return Reply::Totals(infused as u32, withdrawn as u32, unit);
    }
    Reply::OutOfRange
}
