// The settings of a line, worked out or refused (document 01, "Settings" and "What comes back").
ghost use Rattle.std.specs.Prelude.{◌≡◌, ◌<◌, IfOk};
ghost use Rattle.refusals.specs.Numbers.{code};
ghost use Rattle.line.specs.Requires.{InRange};
ghost use Rattle.line.specs.Rates.{symbol_rate};
ghost use Rattle.line.specs.Settings.{unstated, denied, settings_refusal, shaping_of, rings_of_shaping, settings_of, worked_of, values_of};
ghost use Rattle.line.specs.Worked.{Accepted, told};

use crate::asked::Asked;
use crate::numbers::{bits_of, high_of, points_of, shell_of, step_of, uncoded_of};
use crate::rate::SymbolRate;
use crate::shells::{expanded_rings, minimum_rings};
use refusals::Refusal;

// The kind of shaping, holding its ring count M.
#[derive(Clone, Copy)]
pub enum Shaping {
    Minimum(u64),
    Expanded(u64),
}

impl Shaping {
    // The ring count M.
    pub fn rings(self) -> u64
        ensures { result ≡ rings_of_shaping self }
    {
        match self {
            Shaping::Minimum(m) => m,
            Shaping::Expanded(m) => m,
        }
    }
}

// A checked set of settings, with the numbers that follow from them. That `frames` is at most 16 and `step` at most `frames` is asked by
// workers above and not kept here: `settings_of` in specs/Settings.antt and theorems make Settings of any numbers, and a ghost field that
// says it would change that definition.
#[derive(Clone, Copy)]
pub struct Settings {
    // the sending end: 0 call modem, 1 answer modem; a number, as `scrambled_bit` and the calls for C have it
    pub role: u64,
    // J: data frames in a superframe
    pub superframe: u64,
    // N: bits in a data frame, which are switched, coded and answered
    pub bits: u64,
    // how many of the N bits are the user's: all of them, as no auxiliary channel is built
    pub user: u64,
    // P: mapping frames in a data frame
    pub frames: u64,
    // b: bits in a high mapping frame
    pub high: u64,
    // r: high mapping frames in a data frame, and the step of the switching counter
    pub step: u64,
    // K: bits of S, the number of the eight rings
    pub shell: u64,
    // q: uncoded bits of a 2D symbol
    pub uncoded: u64,
    // M: rings, with the kind of shaping that gives as many
    pub shaping: Shaping,
    // L: points in the constellation
    pub points: u64,
}

impl Settings {
    // N P b r K q M L.
    pub fn values(self) -> [u64; 8]
        ensures { result ≡ values_of (Accepted self) }
    {
        [
            self.bits,
            self.frames,
            self.high,
            self.step,
            self.shell,
            self.uncoded,
            self.shaping.rings(),
            self.points,
        ]
    }
}

// The shaping that the number names, of K bits.
fn shaping_of(shaping: u64, k: u64) -> Shaping
    requires { k < 32 }
    ensures { result ≡ shaping_of shaping k }
{
    match shaping {
        0 => Shaping::Minimum(minimum_rings(k)),
        _ => Shaping::Expanded(expanded_rings(k)),
    }
}

// The numbers that follow from what is asked, at the symbol rate that it names.
#[tactic(auto, using(crate::proofs::Rings::bounds), unfolding(crate::specs::Settings::settings_of))]
fn settings_of(asked: Asked, rate: SymbolRate) -> Settings
    requires { InRange rate asked.n }
    ensures { result ≡ settings_of asked rate }
{
    let bits = bits_of(rate.j, asked.n);
    let frames = rate.p;
    let high = high_of(bits, frames);
    let step = step_of(bits, frames, high);
    let uncoded = uncoded_of(high);
    let shell = shell_of(high, uncoded);
    let shaping = shaping_of(asked.shaping, shell);
    let points = points_of(shaping.rings(), uncoded);
    Settings {
        role: asked.role,
        superframe: rate.j,
        bits,
        user: bits,
        frames,
        high,
        step,
        shell,
        uncoded,
        shaping,
        points,
    }
}

// A mark that is neither 0 nor 1 is not stated.
fn is_unstated(mark: u64) -> bool
    ensures { result ≡ unstated mark }
{
    mark > 1
}

// With mark 0 the far end has no large constellation.
fn is_denied(mark: u64) -> bool
    ensures { result ≡ denied mark }
{
    mark == 0
}

// The symbol rate of what is asked, or the first refusal that holds.
#[tactic(auto, using(crate::proofs::Rows::rows), unfolding(crate::specs::Settings::settings_refusal, laws::specs::Choice::refusal))]
fn permitted_rate(asked: Asked) -> Result<SymbolRate, Refusal>
    ensures refused { code result ≡ settings_refusal asked }
    ensures named { IfOk result (λ rate. symbol_rate asked.s ≡ Some rate) }
{
    if asked.role > 1 {
        return Err(Refusal::UnknownRole);
    }
    let Some(rate) = SymbolRate::of(asked.s) else {
        return Err(Refusal::UnknownRate);
    };
    if asked.n < rate.least || asked.n > rate.most {
        return Err(Refusal::DataRateOutOfRange);
    }
    if asked.shaping > 1 {
        return Err(Refusal::UnknownShaping);
    }
    if is_unstated(asked.mark) {
        return Err(Refusal::UnstatedMark);
    }
    if asked.n >= 13 && is_denied(asked.mark) {
        return Err(Refusal::DeniedDataRate);
    }
    Ok(rate)
}

// The settings that are asked for, worked out, or the first refusal that holds.
#[tactic(auto, using(crate::proofs::Outcomes::outcomes))]
pub fn work_out(asked: Asked) -> Result<Settings, Refusal>
    ensures { told result ≡ worked_of asked }
{
    let rate = permitted_rate(asked)?;
    Ok(settings_of(asked, rate))
}
