// The current rate, and what INC and DEC make of it.
ghost use Rattle.std.specs.Prelude.{◌≡◌};
ghost use Rattle.dispense.specs.Rates.{increase, decrease, is_usable_rate};

use drive::{RateUnit, Syringe};

// The current rate: its unit, and how many thousandths of it. Where there may be none it is an `Option<Rate>`.
#[derive(Clone, Copy)]
pub struct Rate {
    pub unit: RateUnit,
    pub thousandths: u32,
}

// The rate is an argument and not the receiver, since it may be none: `Option` takes no methods of ours.
impl Rate {
    // INC: a sum over 9,999.000 is no rate. What is left up to there is compared, so that no sum overflows.
    pub fn increase(rate: Option<Rate>, x: u32) -> Option<Rate>
        ensures { result ≡ increase rate x }
    {
        let Rate { unit, thousandths } = rate?;
        if thousandths <= decimal::MOST && x <= decimal::MOST - thousandths {
            return Some(Rate {
                unit,
                thousandths: thousandths + x,
            });
        }
        None
    }

    // DEC: what would fall below 0 is 0, which is not usable.
    pub fn decrease(rate: Option<Rate>, x: u32) -> Option<Rate>
        ensures { result ≡ decrease rate x }
    {
        let rate = rate?;
        Some(Rate {
            thousandths: rate.thousandths.saturating_sub(x),
            ..rate
        })
    }

    // Where there is no rate, none is usable.
    pub fn is_usable(rate: Option<Rate>, syringe: Syringe) -> bool
        ensures { result ≡ is_usable_rate syringe rate }
    {
        rate.is_some_and(|rate| syringe.is_usable(rate.thousandths, rate.unit))
    }
}
