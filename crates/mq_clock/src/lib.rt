//! The put date and the put time of a moment (IBM MQ reference, MQMD, PutDate and PutTime).
#![tactic(auto)]

ghost use Rattle.std.specs.Prelude.{◌≡◌, ◌+◌, ◌<◌, ◌≤◌, ◌≤ℤ◌, ◌-◌, pos, unsigned_abs};
ghost use Rattle.jiff.specs.Words.{epoch_day};
ghost use Rattle.mq_heads.specs.Stamps.{put_date, put_time, digits, date_digits};

use jiff::ToSpan;
use jiff::civil::{Date, date};

pub mod below;

/// The last moment that has a put date: the last millisecond of the year 9999.
pub const LAST_MOMENT: u64 = 253_402_300_799_999;

const DAY: u64 = 86_400_000;

/// PutDate (YYYYMMDD) and PutTime (HHMMSSTH) of a moment in GMT. The moment is counted in
/// milliseconds from 1970-01-01 00:00, without leap seconds; it is at most 253,402,300,799,999.
pub fn put_stamp(moment: u64) -> ([u8; 8], [u8; 8])
    requires { moment ≤ 253402300799999 }
    ensures date { result.0 ≡ put_date moment }
    ensures time { result.1 ≡ put_time moment }
{
    (date_stamp(moment), time_stamp(moment))
}

/// The civil date so many whole days after 1970-01-01.
fn date_after(days: i64) -> Date
    requires first { pos 0 ≤ℤ days }
    requires last { days ≤ℤ pos 2932896 }
    ensures { epoch_day result ≡ days }
{
    date(1970, 1, 1).checked_add(days.days()).unwrap()
}

fn date_stamp(moment: u64) -> [u8; 8]
    requires { moment ≤ 253402300799999 }
    ensures { result ≡ put_date moment }
{
    date_text(date_after((moment / DAY) as i64))
}

fn date_text(date: Date) -> [u8; 8]
    requires { pos 0 ≤ℤ date.year }
    ensures { result ≡ date_digits (unsigned_abs date.year) (record { place = date.month; passed = date.day - 1 }) }
{
    let year = date.year().unsigned_abs();
    let [a, b] = two_digits((year / 100) as u8);
    let [c, d] = two_digits((year % 100) as u8);
    let [e, f] = two_digits(date.month().unsigned_abs());
    let [g, h] = two_digits(date.day().unsigned_abs());
    [a, b, c, d, e, f, g, h]
}

#[tactic(auto, unfolding(mq_heads::specs::Stamps::put_time))]
fn time_stamp(moment: u64) -> [u8; 8]
    requires { moment ≤ 253402300799999 }
    ensures { result ≡ put_time moment }
{
    let [a, b] = two_digits((moment / 3_600_000 % 24) as u8);
    let [c, d] = two_digits((moment / 60_000 % 60) as u8);
    let [e, f] = two_digits((moment / 1000 % 60) as u8);
    let [g, h] = two_digits((moment / 10 % 100) as u8);
    [a, b, c, d, e, f, g, h]
}

fn two_digits(number: u8) -> [u8; 2]
    requires { number < 100 }
    ensures { result ≡ digits 2 number }
{
    [b'0' + number / 10, b'0' + number % 10]
}
