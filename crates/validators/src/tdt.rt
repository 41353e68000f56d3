// The records of a TDT. 01, "Records": TDT.
ghost use Rattle.std.specs.Prelude.{◌≡◌};
ghost use Rattle.records.specs.Records.{padded};
ghost use Rattle.validators.specs.Tdt.{tdt_rows};

use packet::Settings;
use records::{MOST_RECORDS, Row, none, when};
use words::Word;
use words::status_word::sanity_check;
use words::tdt::Tdt;

// Kind TDT: with packet done it ends a frame, of which a start must have been seen.
pub fn check(settings: Settings, opened: bool, word: Word) -> [Row; MOST_RECORDS]
    ensures { result ≡ padded (tdt_rows settings opened word) }
{
    let tdt = Tdt { word };
    let fault = sanity_check(tdt, false);
    let done = tdt.packet_done();
    let mut rows = [none(); MOST_RECORDS];
    rows[0] = when(fault != 0, 50, fault, 0);
    rows[1] = when(settings.frames & (done & !opened), 59, 0, 0);
    rows
}
