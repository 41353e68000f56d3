// The records of a DDW0. 01, "Records": DDW0.
ghost use Rattle.std.specs.Prelude.{◌≡◌};
ghost use Rattle.records.specs.Records.{padded};
ghost use Rattle.validators.specs.Ddw.{detail, ddw0_rows};

use packet::{Packet, Settings};
use records::{MOST_RECORDS, Row, none, when};
use words::ddw::Ddw0;
use words::{Word, status_word};

// 60's detail: 1 for the id alone; else 2 for reserved bits, plus 4 for an index that is not 0.
fn sanity_check(word: Word) -> u64
    ensures { result ≡ detail word }
{
    let ddw0 = Ddw0 { word };
    status_word::sanity_check(ddw0, ddw0.index() != 0)
}

// Kind DDW0, guessed or not.
pub fn check_at_ddw0(
    settings: Settings,
    packet: Packet,
    guessed: bool,
    word: Word,
) -> [Row; MOST_RECORDS]
    ensures { result ≡ padded (ddw0_rows settings packet guessed word) }
{
    let fault = sanity_check(word);
    let id = word.id();
    let mut rows = [none(); MOST_RECORDS];
    rows[0] = when(guessed, 992, id as u64, 0);
    rows[1] = when(fault != 0, 60, fault, 0);
    rows[2] = when(
        settings.running & (packet.stop != 1),
        1110,
        packet.stop as u64,
        0,
    );
    rows[3] = when(
        settings.running & (packet.page == 0),
        1111,
        packet.page as u64,
        0,
    );
    rows
}
