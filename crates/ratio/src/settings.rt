// The settings' checks: refusal 21.
ghost use Rattle.std.specs.Prelude.{◌≡◌};
ghost use Rattle.definitions.specs.Settings as D;
ghost use Rattle.refusals.specs.Numbers.{verdict};
ghost use Rattle.ratio.specs.View.{settings_of};

use definitions::{LARGEST_FACTOR, LARGEST_PLACES};
use refusals::Refusal;

// Whether a setting is not from 1 to its limit.
fn outside(limit: u64, setting: u64) -> bool
    ensures { result ≡ D.outside limit setting }
{
    setting < 1 || limit < setting
}

// 21 of the ratio's factors: p out of range or below q (0), then q out of range (1).
#[tactic(auto, using(definitions::proofs::Settings::factors_are))]
pub fn factors_check(p: u64, q: u64) -> Result<(), Refusal>
    ensures { verdict result ≡ D.factors_check p q }
{
    if outside(LARGEST_FACTOR, p) || p < q {
        return Err(Refusal::SettingRange(0));
    }
    if outside(LARGEST_FACTOR, q) {
        return Err(Refusal::SettingRange(1));
    }
    Ok(())
}

// 21 of a job's settings: the factors, then the list's places (2).
#[tactic(auto, using(definitions::proofs::Settings::settings_are))]
pub fn settings_check(p: u64, q: u64, places: u64) -> Result<(), Refusal>
    ensures { verdict result ≡ D.settings_check (settings_of p q places) }
{
    factors_check(p, q)?;
    if outside(LARGEST_PLACES as u64, places) {
        return Err(Refusal::SettingRange(2));
    }
    Ok(())
}
