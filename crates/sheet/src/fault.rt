// Why a sheet did not print.
ghost use Rattle.std.specs.Prelude.{◌≡◌};

use sink::fault::SinkFault;

// The sink had no room: its fault names the bytes that the sheet wanted in all, and the bytes left.
#[derive(Clone, Copy, Debug, PartialEq, Eq)]
pub struct SheetFault {
    pub sink: SinkFault,
}

impl From<SinkFault> for SheetFault {
    ghost from_gives = { λ f e. e.sink ≡ f };

    fn from(fault: SinkFault) -> SheetFault {
        SheetFault { sink: fault }
    }
}
