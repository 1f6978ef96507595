#![tactic(auto)]
// The simulated OPG (document 01, "OPG frames"): its state, the bench, what any bytes ask of it, and what they
// change.
ghost use Rattle.std.specs.Prelude.{◌≡◌};
ghost use Rattle.opg_gauge.specs.State.{start, takes, benched};
ghost use Rattle.opg_gauge.specs.Judged.{judgement, after};

use buffer::BenchAnswer;
use opg_commands::{Request, Settings};
use opg_frames::{ErrorByte, Refusal};
use opg_request_reader::Denied;

// The pressure: the 32 bits of an f32 in mbar, or unavailable. (An Option<u32> is no plainer: its cases would not say bits and unavailable.)
#[derive(Clone, Copy)]
pub enum Pressure {
    Bits(u32),
    Unavailable,
}

// The gauge.
#[derive(Clone, Copy)]
pub struct Gauge {
    pub settings: Settings,
    pub pressure: Pressure,
}

impl Pressure {
    // Whether the bench takes it.
    #[tactic(auto, unfolding(crate::specs::State::takes))]
    fn is_taken(self) -> bool
        ensures { result ≡ takes self }
    {
        match self {
            Pressure::Bits(w) => opg_units::is_measurable(w),
            Pressure::Unavailable => true,
        }
    }
}

impl Gauge {
    // A gauge at factory settings, its pressure 0.
    pub fn at_start() -> Gauge
        ensures { result ≡ start }
    {
        Gauge {
            settings: Settings::FACTORY,
            pressure: Pressure::Bits(0),
        }
    }

    // The bench, document 01's term for what sets the readings from outside, sets the pressure. (15 and 20 are numbers of answers.)
    #[tactic(auto, unfolding(crate::specs::State::benched, buffer::specs::First::pick))]
    pub fn bench(self, p: Pressure) -> BenchAnswer<Gauge>
        ensures { result ≡ benched self p }
    {
        if !p.is_taken() {
            return BenchAnswer {
                gauge: self,
                number: 15,
            };
        }
        BenchAnswer {
            gauge: Gauge {
                pressure: p,
                ..self
            },
            number: 20,
        }
    }

    // What any bytes ask of the gauge, where `room` bytes are lent for the reply.
    #[tactic(auto, using(crate::proofs::Laws::judged_is), unfolding(crate::specs::Judged::judgement, crate::specs::Judged::unavailable, crate::specs::Judged::is_pressure_read, crate::specs::State::is_unavailable, crate::specs::Inner::judged, buffer::specs::First::pick))]
    pub fn judge(self, room: usize, s: &[u8]) -> Result<Request, Denied>
        ensures { result ≡ judgement room self s.now }
    {
        if room < 32 {
            return Err(Denied::Silent(Refusal::Room));
        }
        let r = opg_request_reader::read_request(s)?;
        match (r, self.pressure) {
            (Request::ReadPressure(_), Pressure::Unavailable) => {
                Err(Denied::Error(ErrorByte::Unavailable))
            }
            _ => Ok(r),
        }
    }

    // The gauge after a request, whatever a refusal tells.
    #[tactic(auto, unfolding(crate::specs::Judged::after))]
    pub fn entered<E: Copy>(self, asked: Result<Request, E>) -> Gauge
        ensures { result ≡ after self asked }
    {
        let Ok(r) = asked else {
            return self;
        };
        Gauge {
            settings: self.settings.with(r),
            ..self
        }
    }
}
