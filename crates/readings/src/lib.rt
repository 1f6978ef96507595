#![tactic(auto)]
// The readings of the text gauge and its FS (document 01, "Settings and readings, V2"): how they start, what the bench sets, and the
// texts that they are sent as.
ghost use Rattle.std.specs.Prelude.{◌≡◌};
ghost use Rattle.buffer.specs.Text.{text_of};
ghost use Rattle.error_texts.specs.Texts.{error_bytes};
ghost use Rattle.error_texts.specs.declared.ErrorText.{ErrorText};
ghost use Rattle.readings.specs.Reading.{start, put_reading, pressure_text, temperature_text, value_text, faulty_pressure, faulty_temperature};
ghost use Rattle.readings.specs.Bench.{takes, pressure_at, temperature_at, pressure_of, outside_degrees, temperature_of, bench_of};
ghost use Rattle.readings.specs.Measure.{six_of, rounded_text, measure_text};

// A pressure: a number of mbar, under or over range, or faulty.
#[derive(Clone, Copy)]
pub enum Pressure {
    Measured(decimal::Number),
    UnderRange,
    OverRange,
    Faulty,
}

impl Pressure {
    // The texts of a pressure that is under or over range.
    pub const UNDER_RANGE: [u8; 2] = *b"UR";

    pub const OVER_RANGE: [u8; 2] = *b"OR";

    const ONE_MBAR: Pressure = Pressure::Measured(decimal::Number {
        negative: false,
        mantissa: 100000,
        place: 9,
    });
}

// A temperature: whether it is below zero, and its size in hundredths of a degree; or faulty. (No Option: a fault is a value that is sent, and `None`
// would not say it.)
#[derive(Clone, Copy)]
pub enum Temperature {
    Degrees(bool, u16),
    Faulty,
}

impl Temperature {
    const TWENTY_DEGREES: Temperature = Temperature::Degrees(false, 2000);
}

// A reading by its source, or FS: one case for each.
#[derive(Clone, Copy)]
pub enum Reading {
    P0(Pressure),
    P1(Pressure),
    P2(Pressure),
    P6(Pressure),
    P7(Pressure),
    T2(Temperature),
    T6(Temperature),
    FS(u8),
}

// The readings of all sources, and FS.
#[derive(Clone, Copy)]
pub struct Readings {
    pub p0: Pressure,
    pub p1: Pressure,
    pub p2: Pressure,
    pub p6: Pressure,
    pub p7: Pressure,
    pub t2: Temperature,
    pub t6: Temperature,
    pub status: u8,
}

// A bench setting: the bench is document 01's term for what sets the readings from outside. Any values may come. A source is named by its code: its digit, 8 for `T2`, 9 for `T6`.
#[derive(Clone, Copy)]
pub enum Bench {
    // the source reads this value
    Reads(u8, decimal::Exact),
    // the source is under range
    UnderRange(u8),
    // the source is over range
    OverRange(u8),
    // the source is faulty
    Faulty(u8),
    // FS
    Status(u8),
}

impl Readings {
    // FS
    pub const STATUS_MAX: u8 = 3;

    // FN
    pub const FILAMENT_MIN: u8 = 1;

    pub const FILAMENT_MAX: u8 = 2;

    // hundredths: a temperature lies from -40.00 to 125.00
    pub const COLDEST: u32 = 4000;

    pub const HOTTEST: u32 = 12500;

    // "At the start each pressure is 1 mbar, each temperature 20.00, FS 0."
    pub const START: Readings = Readings {
        p0: Pressure::ONE_MBAR,
        p1: Pressure::ONE_MBAR,
        p2: Pressure::ONE_MBAR,
        p6: Pressure::ONE_MBAR,
        p7: Pressure::ONE_MBAR,
        t2: Temperature::TWENTY_DEGREES,
        t6: Temperature::TWENTY_DEGREES,
        status: 0,
    };

    // Whether a temperature lies outside its limits, by its sign and its size in hundredths.
    pub fn is_outside(negative: bool, size: u32) -> bool
        ensures { result ≡ outside_degrees negative size }
    {
        let most = if negative {
            Readings::COLDEST
        } else {
            Readings::HOTTEST
        };
        most < size
    }

    // The readings at the start.
    pub fn at_start() -> Readings
        ensures { result ≡ start }
    {
        Readings::START
    }

    // The readings with one of them set, and no other changed.
    #[tactic(auto, unfolding(crate::specs::Reading::put_reading))]
    pub fn with(self, reading: Reading) -> Readings
        ensures { result ≡ put_reading self reading }
    {
        match reading {
            Reading::P0(p0) => Readings { p0, ..self },
            Reading::P1(p1) => Readings { p1, ..self },
            Reading::P2(p2) => Readings { p2, ..self },
            Reading::P6(p6) => Readings { p6, ..self },
            Reading::P7(p7) => Readings { p7, ..self },
            Reading::T2(t2) => Readings { t2, ..self },
            Reading::T6(t6) => Readings { t6, ..self },
            Reading::FS(status) => Readings { status, ..self },
        }
    }

    // The value that the stream line shows for a source, by its code.
    #[tactic(auto, unfolding(crate::specs::Reading::value_text, buffer::specs::First::pick))]
    pub fn text(self, code: u8) -> buffer::Text
        ensures { text_of result ≡ value_text code self }
    {
        match code {
            0 => pressure_text(self.p0),
            1 => pressure_text(self.p1),
            2 => pressure_text(self.p2),
            6 => pressure_text(self.p6),
            7 => pressure_text(self.p7),
            8 => temperature_text(self.t2),
            9 => temperature_text(self.t6),
            _ => error_text(),
        }
    }
}

// `ERROR1`.
#[tactic(auto, unfolding(buffer::specs::Text::text_of, buffer::specs::Text::cut, error_texts::specs::Texts::error_bytes))]
fn error_text() -> buffer::Text
    ensures { text_of result ≡ error_bytes ErrorText.Error1 }
{
    buffer::Text::EMPTY.add(&error_texts::error_bytes(error_texts::ErrorText::Error1))
}

// A number in the written form, `UR`, `OR` or `ERROR1`.
#[tactic(auto, unfolding(crate::specs::Reading::pressure_text, buffer::specs::Text::text_of, buffer::specs::Text::cut))]
pub fn pressure_text(p: Pressure) -> buffer::Text
    ensures { text_of result ≡ pressure_text p }
{
    match p {
        Pressure::Measured(n) => decimal_text::written(n),
        Pressure::UnderRange => buffer::Text::EMPTY.add(&Pressure::UNDER_RANGE),
        Pressure::OverRange => buffer::Text::EMPTY.add(&Pressure::OVER_RANGE),
        Pressure::Faulty => error_text(),
    }
}

// Degrees with two decimals, or `ERROR1`.
#[tactic(auto, unfolding(crate::specs::Reading::temperature_text))]
pub fn temperature_text(t: Temperature) -> buffer::Text
    ensures { text_of result ≡ temperature_text t }
{
    match t {
        Temperature::Degrees(negative, hundredths) => {
            decimal_text::two_decimals(negative, hundredths)
        }
        Temperature::Faulty => error_text(),
    }
}

// Whether a reading is faulty. (A trait over pressures and temperatures would be longer than these two, and than the two that place them below.)
#[tactic(auto, unfolding(crate::specs::Reading::faulty_pressure))]
pub fn is_faulty_pressure(p: Pressure) -> bool
    ensures { result ≡ faulty_pressure p }
{
    matches!(p, Pressure::Faulty)
}

#[tactic(auto, unfolding(crate::specs::Reading::faulty_temperature))]
pub fn is_faulty_temperature(t: Temperature) -> bool
    ensures { result ≡ faulty_temperature t }
{
    matches!(t, Temperature::Faulty)
}

// ---- V1

// Six digits: four of a mantissa, and two of an exponent.
#[tactic(auto, unfolding(crate::specs::Measure::six_of, buffer::specs::Text::text_of, buffer::specs::Text::cut))]
fn six_of(mantissa: u64, exponent: u16) -> buffer::Text
    ensures { text_of result ≡ six_of mantissa exponent }
{
    let digits = [
        (mantissa / 1000 % 10) as u8 + b'0',
        (mantissa / 100 % 10) as u8 + b'0',
        (mantissa / 10 % 10) as u8 + b'0',
        (mantissa % 10) as u8 + b'0',
        (exponent / 10 % 10) as u8 + b'0',
        (exponent % 10) as u8 + b'0',
    ];
    buffer::Text::EMPTY.add(&digits)
}

// A number's four digits, rounded half up, and its exponent plus 20.
#[tactic(auto, unfolding(crate::specs::Measure::rounded_text, buffer::specs::First::pick))]
fn rounded_text(n: decimal::Number) -> buffer::Text
    ensures { text_of result ≡ rounded_text n }
{
    let rounded = (n.mantissa as u64 + 50) / 100;
    let exponent = n.place as u16 + 11;
    if 10000 <= rounded {
        return six_of(rounded / 10, exponent + 1);
    }
    six_of(rounded, exponent)
}

// The data that V1's `M` sends for a pressure.
#[tactic(auto, unfolding(crate::specs::Measure::measure_text, buffer::specs::Text::text_of, buffer::specs::Text::cut))]
pub fn measure_text(p: Pressure) -> buffer::Text
    ensures { text_of result ≡ measure_text p }
{
    match p {
        Pressure::Measured(n) => rounded_text(n),
        Pressure::UnderRange => six_of(0, 0),
        Pressure::OverRange => six_of(9999, 99),
        Pressure::Faulty => buffer::Text::EMPTY.push(b'1'),
    }
}

// ---- the bench

// A pressure for a source, by its code.
#[tactic(auto, unfolding(crate::specs::Bench::pressure_at, buffer::specs::First::pick))]
fn pressure_at(code: u8, p: Pressure) -> Option<Reading>
    ensures { result ≡ pressure_at code p }
{
    match code {
        0 => Some(Reading::P0(p)),
        1 => Some(Reading::P1(p)),
        2 => Some(Reading::P2(p)),
        6 => Some(Reading::P6(p)),
        7 => Some(Reading::P7(p)),
        _ => None,
    }
}

// A temperature for a source, by its code.
#[tactic(auto, unfolding(crate::specs::Bench::temperature_at, buffer::specs::First::pick))]
fn temperature_at(code: u8, t: Temperature) -> Option<Reading>
    ensures { result ≡ temperature_at code t }
{
    match code {
        8 => Some(Reading::T2(t)),
        9 => Some(Reading::T6(t)),
        _ => None,
    }
}

// Whether a pressure source takes a number.
#[tactic(auto, unfolding(crate::specs::Bench::takes))]
fn takes_number(code: u8, n: decimal::Number) -> bool
    ensures { result ≡ takes code n }
{
    code == 7 || decimal::Number::ZERO.is_below(n)
}

#[tactic(auto, unfolding(crate::specs::Bench::pressure_of, buffer::specs::First::pick))]
fn pressure_of(code: u8, p: Result<decimal::Number, decimal::NumberError>) -> Option<Reading>
    ensures { result ≡ pressure_of code p }
{
    let n = p.ok()?;
    if !takes_number(code, n) {
        return None;
    }
    pressure_at(code, Pressure::Measured(n))
}

#[tactic(auto, unfolding(crate::specs::Bench::temperature_of, crate::specs::Bench::degrees_of, buffer::specs::First::pick))]
fn temperature_of(code: u8, p: Result<decimal::Number, decimal::NumberError>) -> Option<Reading>
    ensures { result ≡ temperature_of code p }
{
    let n = p.ok()?;
    let size = decimal::in_hundredths(n)?;
    if Readings::is_outside(n.negative, size) {
        return None;
    }
    temperature_at(code, Temperature::Degrees(n.negative, size as u16))
}

// A bench setting as a reading, or refused.
#[tactic(auto, unfolding(crate::specs::Bench::bench_of, buffer::specs::First::pick))]
pub fn judge_bench(b: Bench) -> Option<Reading>
    ensures { result ≡ bench_of b }
{
    match b {
        Bench::Reads(code, x) => {
            if 8 <= code {
                return temperature_of(code, decimal::normal(x));
            }
            pressure_of(code, decimal::normal(x))
        }
        Bench::UnderRange(code) => pressure_at(code, Pressure::UnderRange),
        Bench::OverRange(code) => pressure_at(code, Pressure::OverRange),
        Bench::Faulty(code) => {
            if 8 <= code {
                return temperature_at(code, Temperature::Faulty);
            }
            pressure_at(code, Pressure::Faulty)
        }
        Bench::Status(v) => {
            if Readings::STATUS_MAX < v {
                return None;
            }
            Some(Reading::FS(v))
        }
    }
}
