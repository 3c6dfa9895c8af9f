//! Whole numbers in lines.
ghost use Rattle.std.specs.Prelude.{◌≡◌, ◌<◌, IfSome};
ghost use Rattle.json.specs.Value.{value_view};
ghost use Rattle.fy_events.specs.Micros.{whole_from};
ghost use Rattle.fy_history.specs.Lines.{number_in};
ghost use Rattle.fy_history.specs.declared.line.TheConstants.{MOST_NODES};
ghost use Rattle.fy_history.specs.declared.TheConstants.{MOST_WHOLE};

use crate::MOST_WHOLE;
use crate::line::MOST_NODES;
use fast_float::Numeral;
use json::Value;

/// A whole number below another: digits alone.
fn whole_below(text: &str, below: u64) -> Option<u64>
    ensures value { result ≡ whole_from below text.now }
    ensures low { IfSome result (λ number. number < below) }
{
    let number = Numeral::scan(text.as_bytes()).to_u64()?;
    if number < below { Some(number) } else { None }
}

/// An index or a time.
pub(crate) fn whole_in(value: &Value<'_>, name: &str) -> Option<u64>
    ensures value { result ≡ number_in MOST_WHOLE name.now (value_view value.now) }
    ensures low { IfSome result (λ number. number < MOST_WHOLE) }
{
    whole_below(value.get(name)?.as_number()?, MOST_WHOLE)
}

/// A whole number below another, of 32 bits.
pub(crate) fn small_in(value: &Value<'_>, name: &str, below: u32) -> Option<u32>
    ensures value { result ≡ number_in below name.now (value_view value.now) }
    ensures low { IfSome result (λ number. number < below) }
{
    let number = whole_below(value.get(name)?.as_number()?, u64::from(below))?;
    Some(number as u32)
}

/// The number of a process.
pub(crate) fn short_in(value: &Value<'_>, name: &str) -> Option<u16>
    ensures value { result ≡ number_in MOST_NODES name.now (value_view value.now) }
    ensures low { IfSome result (λ number. number < MOST_NODES) }
{
    let number = small_in(value, name, MOST_NODES)?;
    Some(number as u16)
}
