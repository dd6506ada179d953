// What a property row's kind, length and value bits say: one of five kinds of value, or that they say none.
#![tactic(auto)]

ghost use Rattle.std.specs.Prelude.{◌≡◌, ◌+◌, ◌≤◌, ◌<◌};
ghost use Rattle.std.specs.Float.Ieee.{of_bits};
ghost use Rattle.std.specs.Float.{binary64};
ghost use Rattle.little.specs.Promise.{Says};
ghost use Rattle.layout.specs.Date.{Leap, MonthLength, IsDate};
ghost use Rattle.layout.specs.Value.{signed, Finite};
ghost use Rattle.layout.specs.Promise.{Judges};

use layout::{Part, Value};

// "Month lengths stand as two rows of twelve, common and leap"
const MONTHS: [[u8; 12]; 2] = [
    [31, 28, 31, 30, 31, 30, 31, 31, 30, 31, 30, 31],
    [31, 29, 31, 30, 31, 30, 31, 31, 30, 31, 30, 31],
];

// "A year is leap if four divides it", but "a year that 100 divides is leap only if 400 divides it".
fn is_leap(year: u64) -> bool
    ensures { Says result (Leap year) }
{
    year % 4 == 0 && (year % 100 != 0 || year % 400 == 0)
}

// The length of a month in a year.
fn month_length(year: u64, month: u64) -> u8
    requires { (1 ≤ month) × (month ≤ 12) }
    ensures { MonthLength year month result }
{
    MONTHS[is_leap(year) as usize][month as usize - 1]
}

// Whether a number is that of a date: "year x 10,000 + month x 100 + day".
pub fn is_date(n: u64) -> bool
    ensures { Says result (IsDate n) }
{
    let year = n / 10000;
    let month = n / 100 % 100;
    let day = n % 100;
    matches!((year, month, day), (1..=9999, 1..=12, 1..) if day <= month_length(year, month) as u64)
}

// The bits as an integer: "64-bit two's complement".
fn integer_of(bits: u64) -> i64
    ensures { result ≡ signed bits }
{
    bits.cast_signed()
}

// The bits as a float, which is neither infinite nor NaN.
fn real_of(bits: u64) -> f64
    requires { Finite (of_bits binary64 bits) }
    ensures { result ≡ of_bits binary64 bits }
{
    f64::from_bits(bits)
}

// Whether `len` bytes from `offset` on are among the `text` bytes: "length 0 is allowed with an offset up to T".
fn is_part(text: usize, len: u32, offset: u64) -> bool
    ensures { Says result (offset + len ≤ text) }
{
    offset <= text as u64 && len as u64 <= text as u64 - offset
}

// The value that a property row's kind, length and bits say. `text` is the number of text bytes: the trailer's 32 bits hold it,
// so that an offset fits a `Part`.
pub fn judge(text: usize, kind: u8, len: u32, bits: u64) -> Option<Value>
    requires { text ≤ 4294967295 }
    ensures { Judges result text kind len bits }
{
    match (kind, len) {
        (1, 0) if bits <= 1 => Some(Value::Boolean(bits == 1)),
        (2, 0) => Some(Value::Integer(integer_of(bits))),
        // Tested in the bits, the exponent's 11 of them: no float is made of a NaN.
        (3, 0) if bits / 4503599627370496 % 2048 != 2047 => Some(Value::Real(real_of(bits))),
        (4, 0) if is_date(bits) => Some(Value::Date(bits as u32)),
        (5, _) if is_part(text, len, bits) => Some(Value::Text(Part {
            at: bits as u32,
            len,
        })),
        _ => None,
    }
}
