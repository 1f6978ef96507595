#![tactic(auto)]
// The OPG's commands (document 01, "OPG frames"): typed requests, the settings with their factory values and limits, and what a request
// changes.
ghost use Rattle.std.specs.Prelude.{◌≡◌};
ghost use Rattle.opg_commands.specs.Request.{request_pid, request_cmd, reply_cmd, reply_count, outside_of};
ghost use Rattle.opg_commands.specs.Settings.{entered};

// A request: one case for each PID and access, with its data. Residual gas detection switched off has neither spectra nor gas.
#[derive(Clone, Copy)]
pub enum Request {
    // PID 14000 read: the unit, 0 to 4
    ReadPressure(u8),
    // PID 14001 read
    ReadUnit,
    // PID 14001 write: the unit, 1 to 4
    WriteUnit(u8),
    // PID 22000 write, mode 0
    DetectionOff,
    // PID 22000 write, mode 1: the spectra, and the gas, 0 to 10
    DetectionOn(u32, u8),
}

// The settings: the master unit, and residual gas detection. Unit and mode stay numbers: a request's unit may lie outside, which the writer
// refuses, and the book that is held against the gauge has each setting as a number.
#[derive(Clone, Copy)]
pub struct Settings {
    pub unit: u8,
    pub mode: u8,
    pub spectra: u32,
    pub gas: u8,
}

impl Settings {
    pub const UNIT_MIN: u8 = 1;

    pub const UNIT_MAX: u8 = 4;

    pub const MODE_MAX: u8 = 1;

    pub const GAS_MAX: u8 = 10;

    pub const FACTORY: Settings = Settings {
        unit: 1,
        mode: 0,
        spectra: 0,
        gas: 0,
    };

    // The settings after an accepted request.
    #[tactic(auto, unfolding(crate::specs::Settings::entered))]
    pub fn with(self, r: Request) -> Settings
        ensures { result ≡ entered self r }
    {
        match r {
            Request::ReadPressure(_) | Request::ReadUnit => self,
            Request::WriteUnit(unit) => Settings { unit, ..self },
            Request::DetectionOff => Settings { mode: 0, ..self },
            Request::DetectionOn(spectra, gas) => Settings {
                mode: 1,
                spectra,
                gas,
                ..self
            },
        }
    }
}

impl Request {
    // Whether a value of the request lies outside its limits.
    #[tactic(auto, unfolding(crate::specs::Request::outside_of))]
    pub fn is_outside(self) -> bool
        ensures { result ≡ outside_of self }
    {
        match self {
            Request::ReadPressure(u) => !buffer::is_within(u, 0, Settings::UNIT_MAX),
            Request::WriteUnit(u) => !buffer::is_within(u, Settings::UNIT_MIN, Settings::UNIT_MAX),
            Request::DetectionOn(_, gas) => !buffer::is_within(gas, 0, Settings::GAS_MAX),
            Request::ReadUnit | Request::DetectionOff => false,
        }
    }

    // The PID of the request and of its reply.
    #[tactic(auto, unfolding(crate::specs::Request::request_pid))]
    pub fn pid(self) -> u16
        ensures { result ≡ request_pid self }
    {
        match self {
            Request::ReadPressure(_) => 14000,
            Request::ReadUnit | Request::WriteUnit(_) => 14001,
            Request::DetectionOff | Request::DetectionOn(..) => 22000,
        }
    }

    // Its CMD: 1 reads, 3 writes.
    #[tactic(auto, unfolding(crate::specs::Request::request_cmd))]
    pub fn cmd(self) -> u8
        ensures { result ≡ request_cmd self }
    {
        match self {
            Request::ReadPressure(_) | Request::ReadUnit => 1,
            Request::WriteUnit(_) | Request::DetectionOff | Request::DetectionOn(..) => 3,
        }
    }

    // The CMD of the reply.
    #[tactic(auto, unfolding(crate::specs::Request::request_cmd))]
    pub fn reply_cmd(self) -> u8
        ensures { result ≡ reply_cmd self }
    {
        self.cmd() + 1
    }

    // How many data bytes an accepted reply has.
    #[tactic(auto, unfolding(crate::specs::Request::reply_count))]
    pub fn reply_count(self) -> usize
        ensures { result ≡ reply_count self }
    {
        match self {
            Request::ReadPressure(_) => 4,
            Request::ReadUnit => 1,
            Request::WriteUnit(_) | Request::DetectionOff | Request::DetectionOn(..) => 0,
        }
    }
}
