#![tactic(auto)]
// The refusals of the text gauge, of its master and of its bench, by document 01's names ("Answer numbers of the text gauge", "The master's side").
ghost use Rattle.std.specs.Prelude.{◌≡◌};
ghost use Rattle.refusals.specs.Number.{refusal_number};

// Why bytes, a request or a setting are refused. Mismatch is a reply to another request, Bench a bench setting that is not taken.
#[derive(Clone, Copy)]
pub enum Refusal {
    Room = 1,
    Shape = 2,
    Checksum = 3,
    Address = 4,
    Other = 5,
    Length = 6,
    Code = 7,
    NoDef = 8,
    Access = 9,
    Syntax = 10,
    Range = 11,
    Logic = 12,
    Fault = 13,
    Mismatch = 14,
    Bench = 15,
}

impl Refusal {
    // Document 01's number.
    pub fn number(self) -> u8
        ensures { result ≡ refusal_number self }
    {
        self as u8
    }
}
