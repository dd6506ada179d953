// What the lines of an angle sheet say. Each line is read once, from its first byte on, up to its end or to the first byte that
// cannot stand there.
#![tactic(auto)]

ghost use Rattle.std.specs.Prelude.{◌≡◌, cond, ◌+◌, ◌-◌, ◌≤◌, ◌<◌, length, get_or, take, SomeIff, pos, neg_ℤ};
ghost use Rattle.std.specs.List.{prefix_len};
ghost use Rattle.layout.specs.Value.{Finite};
ghost use Rattle.lines.specs.Digits.{Digit};
ghost use Rattle.lines.specs.Line.{quotient};
ghost use Rattle.lines.specs.Promise.{TellsFirst, TellsFurther};
ghost use Rattle.lines.specs.Inner.{in_serial, ReadsDigits, TellsUnsigned, TellsNumber, TellsFraction, TellsReal, TellsPart, TellsDate, TellsEnd};

// What an angle line says.
#[derive(Clone, Copy)]
pub struct Angle {
    pub degrees: i64,
    pub coefficient: f64,
}

// What the first line says: the length of the serial, which stands at the start, the date, and where the next line starts.
#[derive(Clone, Copy)]
pub struct Heading {
    pub serial: usize,
    pub date: u32,
    pub next: usize,
}

// Digits: their number, and where they end.
#[derive(Clone, Copy)]
pub struct Run {
    pub number: u64,
    pub end: usize,
}

// Digits behind an optional minus: whether there is one, the number of the digits, and where they end.
#[derive(Clone, Copy)]
pub struct Numeral {
    pub negative: bool,
    pub number: u64,
    pub end: usize,
}

// ---- bytes and digits

// Each function below asks that its place is within the sheet: a struct of both would owe the same wherever one is made.

// The byte at `at`, or 0 behind the last one: no byte that is looked for.
fn byte_at(s: &[u8], at: usize) -> u8
    ensures { result ≡ get_or s.now at 0 }
{
    s.get(at).copied().unwrap_or(0)
}

// The digit at `at`, if one stands there.
fn digit_at(s: &[u8], at: usize) -> Option<u64>
    ensures { SomeIff result (Digit (get_or s.now at 0)) (get_or s.now at 0 - 0x30) }
{
    let b = byte_at(s, at);
    if b.is_ascii_digit() {
        Some(u64::from(b - b'0'))
    } else {
        None
    }
}

// The digits from `at` on, but not more than `most` of them, as one number with the digits of `from` before them.
fn digits(s: &[u8], at: usize, most: usize, from: u64) -> Run
    requires { (at ≤ length s.now) × (most ≤ 6) × (from < 1000000) }
    ensures { ReadsDigits s.now at most from result }
{
    let mut number = from;
    for end in at..at + most {
        let Some(digit) = digit_at(s, end) else {
            return Run { number, end };
        };
        number = 10 * number + digit;
    }
    Run {
        number,
        end: at + most,
    }
}

// "1 to .. digits" from `at` on, behind a sign that was read already.
fn unsigned(s: &[u8], at: usize, most: usize, negative: bool) -> Option<Numeral>
    requires { (at ≤ length s.now) × (most ≤ 6) }
    ensures { TellsUnsigned result s.now at most negative }
{
    let Run { number, end } = digits(s, at, most, 0);
    if end == at {
        return None;
    }
    Some(Numeral {
        negative,
        number,
        end,
    })
}

// "optional minus, 1 to .. digits" from `at` on.
fn signed(s: &[u8], at: usize, most: usize) -> Option<Numeral>
    requires { (at ≤ length s.now) × (most ≤ 6) }
    ensures { TellsNumber result s.now at most }
{
    if byte_at(s, at) == b'-' {
        unsigned(s, at + 1, most, true)
    } else {
        unsigned(s, at, most, false)
    }
}

// ---- the end of a line

// Where the next line starts, if this one ends at `at`: "every line, the last too, ends with LF or CR LF".
fn line_end(s: &[u8], at: usize) -> Option<usize>
    requires { at ≤ length s.now }
    ensures { TellsEnd result s.now at }
{
    match byte_at(s, at) {
        b'\n' => Some(at + 1),
        b'\r' if byte_at(s, at + 1) == b'\n' => Some(at + 2),
        _ => None,
    }
}

// ---- the first line

// Whether a byte may stand in a serial: "no semicolon, CR or LF".
fn in_serial(b: u8) -> bool
    ensures { result ≡ in_serial b }
{
    !matches!(b, b';' | b'\r' | b'\n')
}

// Where the serial's bytes end; where there are more than a serial may have, behind one that is too many.
fn serial_end(s: &[u8]) -> usize
    ensures { result ≡ prefix_len in_serial (take 33 s.now) }
{
    s.iter().take(33).take_while(|b| in_serial(**b)).count()
}

// The number of the digits that fill `size` bytes from `at` on.
fn part(s: &[u8], at: usize, size: usize) -> Option<u64>
    requires { (at ≤ length s.now) × (size ≤ 4) }
    ensures { TellsPart result s.now at size }
{
    let Run { number, end } = digits(s, at, size, 0);
    (end == at + size).then_some(number)
}

// The number of the date at `at`: "the date as YYYY-MM-DD, good for the Date kind".
fn date_at(s: &[u8], at: usize) -> Option<u32>
    requires { at ≤ length s.now }
    ensures { TellsDate result s.now at }
{
    let year = part(s, at, 4)?;
    if byte_at(s, at + 4) != b'-' {
        return None;
    }
    let month = part(s, at + 5, 2)?;
    if byte_at(s, at + 7) != b'-' {
        return None;
    }
    let day = part(s, at + 8, 2)?;
    let n = year * 10000 + month * 100 + day;
    if values::is_date(n) {
        Some(n as u32)
    } else {
        None
    }
}

// What the first line says: serial, semicolon, date and the line's end.
pub fn first_line(s: &[u8]) -> Option<Heading>
    ensures { TellsFirst result s.now }
{
    let serial = serial_end(s);
    if serial < 1 || 32 < serial || byte_at(s, serial) != b';' {
        return None;
    }
    let date = date_at(s, serial + 1)?;
    let next = line_end(s, serial + 11)?;
    Some(Heading { serial, date, next })
}

// ---- the further lines

// The powers of ten that a fraction's length gives.
const POWERS: [u64; 7] = [1, 10, 100, 1000, 10000, 100000, 1000000];

// "The whole digits as a float divided once by the power of ten that the fraction's length gives"; "a minus negates the quotient".
fn quotient_of(negative: bool, whole: u64, decimals: usize) -> f64
    requires { (whole < 1000000000000) × (decimals ≤ 6) }
    ensures { (result ≡ quotient negative whole decimals) × Finite result }
{
    let q = whole as f64 / POWERS[decimals] as f64;
    if negative { -q } else { q }
}

// The coefficient whose whole digits and comma were read already, and where it ends: "1 to 6 digits" behind the comma.
fn fraction(s: &[u8], whole: Numeral) -> Option<(f64, usize)>
    requires { (whole.end + 1 ≤ length s.now) × (whole.number < 1000000) }
    ensures { TellsFraction result s.now (whole.end + 1) whole.negative whole.number }
{
    let at = whole.end + 1;
    let Run { number, end } = digits(s, at, 6, whole.number);
    if end == at {
        return None;
    }
    Some((quotient_of(whole.negative, number, end - at), end))
}

// "coefficient (optional minus, 1 to 6 digits, or those, a comma and 1 to 6 digits)" from `at` on, and where it ends.
fn coefficient(s: &[u8], at: usize) -> Option<(f64, usize)>
    requires { at ≤ length s.now }
    ensures { TellsReal result s.now at }
{
    let whole = signed(s, at, 6)?;
    if byte_at(s, whole.end) == b',' {
        fraction(s, whole)
    } else {
        Some((quotient_of(whole.negative, whole.number, 0), whole.end))
    }
}

// The Integer that a minus and digits are.
fn degrees_of(turned: Numeral) -> i64
    requires { turned.number < 1000000 }
    ensures { result ≡ cond turned.negative (neg_ℤ (pos turned.number)) (pos turned.number) }
{
    let degrees = turned.number as i64;
    if turned.negative { -degrees } else { degrees }
}

// What the line that starts at `at` says, and where the next one starts: degrees, semicolon, coefficient and the line's end.
pub fn angle_line(s: &[u8], at: usize) -> Option<(Angle, usize)>
    requires { at ≤ length s.now }
    ensures { TellsFurther result s.now at }
{
    let turned = signed(s, at, 3)?;
    if byte_at(s, turned.end) != b';' {
        return None;
    }
    let (measured, stop) = coefficient(s, turned.end + 1)?;
    let next = line_end(s, stop)?;
    Some((
        Angle {
            degrees: degrees_of(turned),
            coefficient: measured,
        },
        next,
    ))
}
