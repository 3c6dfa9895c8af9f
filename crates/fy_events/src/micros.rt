//! Numbers of events, exactly from their decimal text: no float stands between.
ghost use Rattle.std.specs.Prelude.{◌≡◌, ◌+◌, ◌-◌, ◌*◌, ◌^◌, ◌<◌, ◌≤◌, ◌++◌, ℕ, IfSome, length, take, min};
ghost use Rattle.std.specs.Str.Parse.{digits_value, AllDigits};
ghost use Rattle.fast_float.specs.Text.{scan};
ghost use Rattle.fy_events.specs.declared.TheConstants.{MOST_MICROS};
ghost use Rattle.fy_events.specs.Micros.{micros_from, whole_from, millionths, millionth_point};

use crate::MOST_MICROS;
use core::dec2flt::{Numeral, digit_at, ten_to};

/// The value of the first digits, or the limit where that is less.
fn front_value(whole: &[u8], fraction: &[u8], count: usize) -> u64
    requires digits { AllDigits 10 (whole.now ++ fraction.now) }
    requires within { count ≤ length whole.now + length fraction.now }
    ensures { result ≡ min (digits_value 10 (take count (whole.now ++ fraction.now))) MOST_MICROS }
{
    let mut value = 0u64;
    for at in 0..count {
        value = (value * 10 + digit_at(whole, fraction, at) as u64).min(MOST_MICROS);
    }
    value
}

/// The value with so many zeros behind it, or the limit where that is less.
fn with_zeros(value: u64, zeros: u64) -> u64
    requires value { value ≤ MOST_MICROS }
    requires few { zeros ≤ 12 }
    ensures { (more : ℕ) → zeros ≡ min more 12
        → result ≡ min (value * 10 ^ more) MOST_MICROS }
{
    (value as u128 * ten_to(zeros) as u128).min(MOST_MICROS as u128) as u64
}

/// Where the point stands among the digits once the number counts millionths. An exponent of over
/// 64 bits is as good as one of 64.
fn millionth_point(parts: &Numeral<'_>, digits: u128) -> u128
    requires digits { digits ≡ length parts.now.whole + length parts.now.fraction }
    requires few { length parts.now.fraction < 2 ^ 63 }
    ensures kept { min result digits ≡ min (millionth_point parts.now) digits }
    ensures zeros { min (result - digits) 12 ≡ min (millionth_point parts.now - digits) 12 }
{
    let whole = parts.whole().len() as u128 + 6;
    let power = parts.saturated_exponent() as u128;
    if parts.is_exponent_negative() {
        whole.saturating_sub(power)
    } else {
        whole + power
    }
}

/// A number in millionths, or the limit where that is less.
fn millionths(parts: &Numeral<'_>) -> u64
    ensures { result ≡ min (millionths parts.now) MOST_MICROS }
{
    let (whole, fraction) = (parts.whole(), parts.fraction());
    let digits = whole.len() as u128 + fraction.len() as u128;
    let point = millionth_point(parts, digits);
    let front = front_value(whole, fraction, point.min(digits) as usize);
    with_zeros(front, point.saturating_sub(digits).min(12) as u64)
}

/// A time in microseconds, of a number in seconds. What is below a microsecond is cut off.
pub(crate) fn micros_from(text: &str) -> Option<u64>
    ensures value { result ≡ micros_from text.now }
    ensures early { IfSome result (λ micros. micros < MOST_MICROS) }
{
    if text.as_bytes().first() == Some(&b'-') {
        return None;
    }
    let micros = millionths(&Numeral::scan(text.as_bytes()));
    if micros < MOST_MICROS {
        Some(micros)
    } else {
        None
    }
}

/// A whole number below another.
pub(crate) fn whole_from(text: &str, below: u32) -> Option<u32>
    ensures value { result ≡ whole_from below text.now }
    ensures low { IfSome result (λ number. number < below) }
{
    let number = fast_float::Numeral::scan(text.as_bytes()).to_u64()?;
    if number < u64::from(below) {
        Some(number as u32)
    } else {
        None
    }
}
