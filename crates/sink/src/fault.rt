// What a sink refuses, and with which number.
ghost use Rattle.std.specs.Prelude.{◌≡◌};
ghost use Rattle.sink.specs.Refusals.{number_of};
ghost use Rattle.sink.specs.declared.fault.Refusal.TheVariants.{Room};

// More bytes were wanted than are left.
#[derive(Clone, Copy, Debug, PartialEq, Eq)]
pub struct SinkFault {
    pub wanted: u64,
    pub left: u64,
}

// Why a call is refused.
#[derive(Clone, Copy, Debug, PartialEq, Eq)]
pub enum Refusal {
    // The memory has a size outside the rule.
    Size,
    // More bytes were wanted than are left.
    Room(SinkFault),
    // The bytes are no block file.
    Damaged,
}

impl Refusal {
    // The number under which the refusal is told: callers and documents tell it by these numbers, which the rules fix.
    pub fn number(self) -> u8
        ensures { result ≡ number_of self }
    {
        match self {
            Refusal::Size => 1,
            Refusal::Room(_) => 7,
            Refusal::Damaged => 8,
        }
    }
}

impl From<SinkFault> for Refusal {
    ghost from_gives = { λ f r. r ≡ Room f };

    fn from(fault: SinkFault) -> Refusal {
        Refusal::Room(fault)
    }
}

// What comes back where a sink is not opened: why, and the memory as it was.
#[derive(Debug, Drop)]
pub struct Unopened {
    pub refusal: Refusal,
    pub bytes: Vec<u8>,
}
