#![tactic(auto)]
// The settings of the text gauge (document 01, "Settings and readings, V2"): factory values, limits, what a write or a restore
// changes, and the texts that reads send.
ghost use Rattle.std.specs.Prelude.{◌≡◌, [], ◌∷◌, None, Some};
ghost use Rattle.buffer.specs.Text.{text_of};
ghost use Rattle.buffer.specs.Byte.{digit, digits3};
ghost use Rattle.sources.specs.Source.{list_of, Counted};
ghost use Rattle.settings.specs.Limits.{is_factor, limits_of};
ghost use Rattle.settings.specs.Settings.{held, factory, key_of, factory_of, put_of, restore_of, changed_by};
ghost use Rattle.settings.specs.Units.{unit_code, unit_named};
ghost use Rattle.settings.specs.Sent.{unit_text, transition_text, stream_text, read_text};

use decimal::Number;
use sources::{Profile, Sources, WithSources};

// The unit of pressure, DU.
#[derive(Clone, Copy)]
pub enum PressureUnit {
    Mbar,
    Torr,
    HPa,
}

// The transition of ST: a direct switch, or one between two ends.
#[derive(Clone, Copy)]
pub enum Transition {
    Direct(Number),
    Between(Number, Number),
}

// The settings by their commands: the table's rows with a write.
#[derive(Clone, Copy)]
pub enum Key {
    DA,
    DU,
    C1,
    CM,
    CC,
    FC,
    ST,
    SM,
}

// A setting and its value: one case for each command, the factor in hundredths. Stream says whether lines are sent (mode 4); the
// list of sources stands beside it.
#[derive(Clone, Copy)]
pub enum Setting {
    // DA
    Address(u8),
    // DU
    PressureIn(PressureUnit),
    // C1
    Factor(u16),
    // CM
    Control(u8),
    // CC
    Cathode(u8),
    // FC
    Filament(u8),
    // ST
    Switch(Transition),
    // SM
    Stream(bool),
}

// The settings. The list counts while lines are sent. (No `Option` of a list: the list that a write hands over stands, whatever its mode is.)
#[derive(Clone, Copy)]
pub struct Settings {
    pub address: u8,
    pub unit: PressureUnit,
    pub factor: u16,
    pub control: u8,
    pub cathode: u8,
    pub filament: u8,
    pub transition: Transition,
    pub streaming: bool,
    pub sources: Sources,
}

impl Settings {
    pub const ADDRESS_MIN: u8 = 1;

    pub const ADDRESS_MAX: u8 = 16;

    pub const FACTOR_MIN: u16 = 20;

    pub const FACTOR_MAX: u16 = 800;

    pub const CONTROL_MAX: u8 = 1;

    pub const CATHODE_MAX: u8 = 1;

    pub const FILAMENT_MAX: u8 = 3;

    // The numbers of ST lie from 1 to 20, on VSH from 4e-4 to 1e-2, on VSM from 4e-4 to 2e-3.
    pub const TRANSITION_MIN: Number = Number {
        negative: false,
        mantissa: 100000,
        place: 9,
    };

    pub const TRANSITION_MAX: Number = Number {
        negative: false,
        mantissa: 200000,
        place: 10,
    };

    pub const HOT_TRANSITION_MIN: Number = Number {
        negative: false,
        mantissa: 400000,
        place: 5,
    };

    pub const VSH_TRANSITION_MAX: Number = Number {
        negative: false,
        mantissa: 100000,
        place: 7,
    };

    pub const VSM_TRANSITION_MAX: Number = Number {
        negative: false,
        mantissa: 200000,
        place: 6,
    };

    // The factory transition of a hot cathode gauge.
    pub const HOT_TRANSITION: Transition = Transition::Direct(Number {
        negative: false,
        mantissa: 100000,
        place: 6,
    });

    // The factory values of the gauge of document 01.
    pub const FACTORY: Settings = Settings {
        address: 1,
        unit: PressureUnit::Mbar,
        factor: 100,
        control: 1,
        cathode: 1,
        filament: 0,
        transition: Transition::Direct(Number {
            negative: false,
            mantissa: 100000,
            place: 9,
        }),
        streaming: false,
        sources: Sources::NONE,
    };

    // Whether a factor, in hundredths, lies within its limits.
    #[tactic(auto, unfolding(buffer::specs::Byte::within))]
    pub fn is_factor(n: u32) -> bool
        ensures { result ≡ is_factor n }
    {
        (u32::from(Settings::FACTOR_MIN)..=u32::from(Settings::FACTOR_MAX)).contains(&n)
    }

    // The next four go by the profile. (No record for each profile: its fields would be read by these functions, with these contracts.)
    // The lower limit of ST's numbers.
    #[tactic(auto, unfolding(crate::specs::Limits::limits_of))]
    pub fn transition_min(profile: Profile) -> Number
        ensures { result ≡ (limits_of profile).transition_low }
    {
        match profile {
            Profile::Standard => Settings::TRANSITION_MIN,
            Profile::Vsh | Profile::Vsm => Settings::HOT_TRANSITION_MIN,
        }
    }

    // The upper limit of ST's numbers.
    #[tactic(auto, unfolding(crate::specs::Limits::limits_of))]
    pub fn transition_max(profile: Profile) -> Number
        ensures { result ≡ (limits_of profile).transition_high }
    {
        match profile {
            Profile::Standard => Settings::TRANSITION_MAX,
            Profile::Vsh => Settings::VSH_TRANSITION_MAX,
            Profile::Vsm => Settings::VSM_TRANSITION_MAX,
        }
    }

    // Whether ST has the form of two numbers.
    #[tactic(auto, unfolding(crate::specs::Limits::limits_of))]
    pub fn has_between(profile: Profile) -> bool
        ensures { result ≡ (limits_of profile).between_form }
    {
        matches!(profile, Profile::Standard)
    }

    // The factory transition.
    #[tactic(auto, unfolding(crate::specs::Limits::limits_of))]
    pub fn factory_transition(profile: Profile) -> Transition
        ensures { result ≡ (limits_of profile).factory_transition }
    {
        match profile {
            Profile::Standard => Settings::FACTORY.transition,
            Profile::Vsh | Profile::Vsm => Settings::HOT_TRANSITION,
        }
    }

    // The settings as they leave the works.
    #[tactic(auto, unfolding(sources::specs::Source::list_of, sources::specs::Source::Counted))]
    pub fn at_factory(profile: Profile) -> Settings
        ensures result_value { held result ≡ factory (limits_of profile) }
        ensures counted { Counted result.sources }
    {
        Settings {
            transition: Settings::factory_transition(profile),
            ..Settings::FACTORY
        }
    }

    // The factory value of one setting.
    #[tactic(auto, unfolding(crate::specs::Settings::factory_of))]
    pub fn factory_value(profile: Profile, key: Key) -> Setting
        ensures { result ≡ factory_of (limits_of profile) key }
    {
        let f = Settings::FACTORY;
        match key {
            Key::DA => Setting::Address(f.address),
            Key::DU => Setting::PressureIn(f.unit),
            Key::C1 => Setting::Factor(f.factor),
            Key::CM => Setting::Control(f.control),
            Key::CC => Setting::Cathode(f.cathode),
            Key::FC => Setting::Filament(f.filament),
            Key::ST => Setting::Switch(Settings::factory_transition(profile)),
            Key::SM => Setting::Stream(f.streaming),
        }
    }

    // The settings with one of them set, and no other changed. The list counts for Stream only.
    #[tactic(auto, unfolding(crate::specs::Settings::put_of))]
    pub fn with(self, setting: Setting, list: Sources) -> Settings
        ensures result_value { held result ≡ put_of (held self) setting (list_of list) }
        ensures counted { Counted self.sources → Counted list → Counted result.sources }
    {
        match setting {
            Setting::Address(address) => Settings { address, ..self },
            Setting::PressureIn(unit) => Settings { unit, ..self },
            Setting::Factor(factor) => Settings { factor, ..self },
            Setting::Control(control) => Settings { control, ..self },
            Setting::Cathode(cathode) => Settings { cathode, ..self },
            Setting::Filament(filament) => Settings { filament, ..self },
            Setting::Switch(transition) => Settings { transition, ..self },
            Setting::Stream(streaming) => Settings {
                streaming,
                sources: list,
                ..self
            },
        }
    }

    // The settings with one of them at its factory value.
    #[tactic(auto, unfolding(crate::specs::Settings::restore_of, sources::specs::Source::list_of, sources::specs::Source::Counted))]
    pub fn restored(self, profile: Profile, key: Key) -> Settings
        ensures result_value { held result ≡ restore_of (limits_of profile) (held self) key }
        ensures counted { Counted self.sources → Counted result.sources }
    {
        self.with(Settings::factory_value(profile, key), Sources::NONE)
    }

    // The settings after a change: what a request puts, and the sources that count where it puts Stream.
    #[tactic(auto, unfolding(crate::specs::Settings::changed_by))]
    pub fn changed(self, change: WithSources<Option<Setting>>) -> Settings
        ensures result_value { held result ≡ changed_by (held self) change.value (list_of change.sources) }
        ensures counted { Counted self.sources → Counted change.sources → Counted result.sources }
    {
        match change.value {
            None => self,
            Some(setting) => self.with(setting, change.sources),
        }
    }

    // The text that a read of one setting sends.
    #[tactic(auto, unfolding(crate::specs::Sent::read_text))]
    pub fn text(self, key: Key) -> buffer::Text
        ensures { text_of result ≡ read_text key (held self) }
    {
        match key {
            Key::DA => address_text(self.address),
            Key::DU => unit_text(self.unit),
            Key::C1 => decimal_text::two_decimals(false, self.factor),
            Key::CM => digit_text(self.control),
            Key::CC => digit_text(self.cathode),
            Key::FC => digit_text(self.filament),
            Key::ST => transition_text(self.transition),
            Key::SM => stream_text(self.streaming, self.sources),
        }
    }
}

// The command of a setting. (No `From`: the contracts call it by this name too.)
pub fn key_of(setting: Setting) -> Key
    ensures { result ≡ key_of setting }
{
    match setting {
        Setting::Address(_) => Key::DA,
        Setting::PressureIn(_) => Key::DU,
        Setting::Factor(_) => Key::C1,
        Setting::Control(_) => Key::CM,
        Setting::Cathode(_) => Key::CC,
        Setting::Filament(_) => Key::FC,
        Setting::Switch(_) => Key::ST,
        Setting::Stream(_) => Key::SM,
    }
}

// Three digits.
#[tactic(auto, unfolding(buffer::specs::Text::text_of, buffer::specs::Text::cut))]
pub fn address_text(address: u8) -> buffer::Text
    ensures { text_of result ≡ digits3 address }
{
    let digits = [
        address / 100 % 10 + b'0',
        address / 10 % 10 + b'0',
        address % 10 + b'0',
    ];
    buffer::Text::EMPTY.add(&digits)
}

// `mbar`, `Torr` or `hPa`.
#[tactic(auto, unfolding(crate::specs::Sent::unit_text, buffer::specs::Text::text_of, buffer::specs::Text::cut))]
pub fn unit_text(unit: PressureUnit) -> buffer::Text
    ensures { text_of result ≡ unit_text unit }
{
    match unit {
        PressureUnit::Mbar => buffer::Text::EMPTY.add(b"mbar"),
        PressureUnit::Torr => buffer::Text::EMPTY.add(b"Torr"),
        PressureUnit::HPa => buffer::Text::EMPTY.add(b"hPa"),
    }
}

// V1's number of a unit. (No `From`: `u32::from(unit)` would not say that the number is V1's.)
#[tactic(auto, unfolding(crate::specs::Units::unit_code))]
pub fn unit_number(unit: PressureUnit) -> u32
    ensures { result ≡ unit_code unit }
{
    match unit {
        PressureUnit::Mbar => 0,
        PressureUnit::Torr => 1,
        PressureUnit::HPa => 2,
    }
}

// The unit that one of V1's numbers names, or none. (No `TryFrom`, for the same reason.)
#[tactic(auto, unfolding(buffer::specs::First::pick))]
pub fn unit_named(n: u32) -> Option<PressureUnit>
    ensures { result ≡ unit_named Some None n }
{
    match n {
        0 => Some(PressureUnit::Mbar),
        1 => Some(PressureUnit::Torr),
        2 => Some(PressureUnit::HPa),
        _ => None,
    }
}

// One digit.
#[tactic(auto, unfolding(buffer::specs::Text::text_of, buffer::specs::Text::cut))]
pub fn digit_text(d: u8) -> buffer::Text
    ensures { text_of result ≡ digit d ∷ [] }
{
    buffer::Text::EMPTY.push(d % 10 + b'0')
}

// `D` and a number, or `F`, a number, `T` and a number.
pub fn transition_text(transition: Transition) -> buffer::Text
    ensures { text_of result ≡ transition_text transition }
{
    match transition {
        Transition::Direct(n) => buffer::Text::EMPTY
            .push(b'D')
            .join(decimal_text::written(n)),
        Transition::Between(low, high) => buffer::Text::EMPTY
            .push(b'F')
            .join(decimal_text::written(low))
            .push(b'T')
            .join(decimal_text::written(high)),
    }
}

// `0`, or `4` and a list.
pub fn stream_text(on: bool, list: Sources) -> buffer::Text
    ensures { text_of result ≡ stream_text on (list_of list) }
{
    if on {
        return sources::with_list(buffer::Text::EMPTY.push(b'4'), list);
    }
    buffer::Text::EMPTY.push(b'0')
}
