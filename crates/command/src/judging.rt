// Whether a setting is accepted: first whether it applies now, then whether its data are in range.
ghost use Rattle.std.specs.Prelude.{◌≡◌};
ghost use Rattle.command.specs.Judging.{judge_idle, judge_diameter, judge_stored, judge_tuning, judge_rate, judge_volume};
ghost use Rattle.command.specs.Judging.{judge_direction, judge_phase, judge_function, if_in_range};

use dispense::Rate;
use drive::{RateUnit, Syringe};
use program::Run;
use words::{Declined, Function, Phase};

// CLD: not while operating.
pub fn judge_idle(operating: bool) -> Result<(), Declined>
    ensures { result ≡ judge_idle operating }
{
    if operating {
        return Err(Declined::NotApplicable);
    }
    Ok(())
}

// DIA
pub fn judge_diameter(operating: bool, x: u32) -> Result<(), Declined>
    ensures { result ≡ judge_diameter operating x }
{
    judge_idle(operating)?;
    if_in_range(drive::is_diameter(x))
}

// RAT when not operating. A RAT phase's rate must be usable at the present diameter; INC and DEC take any number above 0, in whatever
// units the current rate will have.
pub fn judge_stored(
    syringe: Syringe,
    hand: Phase,
    x: u32,
    units: Option<RateUnit>,
) -> Result<(), Declined>
    ensures { result ≡ judge_stored syringe hand x units }
{
    if hand.function.is_flow() {
        return if_in_range(syringe.is_usable(x, units.unwrap_or(hand.unit)));
    }
    if hand.function.is_ramp() & units.is_none() {
        return if_in_range(0 < x);
    }
    Err(Declined::NotApplicable)
}

// RAT while operating: only an entered RAT phase under way, with no ramp behind it, takes another rate while it runs, in the same units.
pub fn judge_tuning(
    run: Run,
    syringe: Syringe,
    hand: Phase,
    next: Function,
    x: u32,
    units: Option<RateUnit>,
) -> Result<(), Declined>
    ensures { result ≡ judge_tuning run syringe hand next x units }
{
    if hand.function.is_flow() & run.place.work.is_visiting() & !next.is_ramp() & units.is_none() {
        return judge_rate(syringe, x, run.rate);
    }
    Err(Declined::NotApplicable)
}

// A current rate has its units already, and the new one must be usable in them.
fn judge_rate(syringe: Syringe, x: u32, rate: Option<Rate>) -> Result<(), Declined>
    ensures { result ≡ judge_rate syringe x rate }
{
    match rate {
        None => Err(Declined::NotApplicable),
        Some(rate) => if_in_range(syringe.is_usable(x, rate.unit)),
    }
}

// VOL
pub fn judge_volume(operating: bool, hand: Phase) -> Result<(), Declined>
    ensures { result ≡ judge_volume operating hand }
{
    if hand.function.is_rate_phase() & !operating {
        return Ok(());
    }
    Err(Declined::NotApplicable)
}

// DIR: while operating only of a continuous rate phase.
pub fn judge_direction(operating: bool, hand: Phase) -> Result<(), Declined>
    ensures { result ≡ judge_direction operating hand }
{
    if operating & !(hand.function.is_rate_phase() & (hand.volume == 0)) {
        return Err(Declined::NotApplicable);
    }
    Ok(())
}

// PHN
pub fn judge_phase(operating: bool, n: u8, phases: u8) -> Result<(), Declined>
    ensures { result ≡ judge_phase operating n phases }
{
    judge_idle(operating)?;
    if_in_range((1 <= n) & (n <= phases))
}

// FUN
pub fn judge_function(operating: bool, function: Function, phases: u8) -> Result<(), Declined>
    ensures { result ≡ judge_function operating function phases }
{
    judge_idle(operating)?;
    if_in_range(function.fits(phases))
}

fn if_in_range(fits: bool) -> Result<(), Declined>
    ensures { result ≡ if_in_range fits }
{
    if fits {
        return Ok(());
    }
    Err(Declined::OutOfRange)
}
