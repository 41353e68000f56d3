// The records of an IHW. 01, "Records": IHW.
ghost use Rattle.std.specs.Prelude.{◌≡◌};
ghost use Rattle.records.specs.Records.{padded};
ghost use Rattle.validators.specs.Ihw.{detail, ihw_rows, continuation_rows};

use packet::{Packet, Settings};
use records::{MOST_RECORDS, Row, none, when};
use words::ihw::Ihw;
use words::{Word, status_word};

// 30's detail: 1 for the id; else 2 for reserved bits.
fn sanity_check(word: Word) -> u64
    ensures { result ≡ detail word }
{
    status_word::sanity_check(Ihw { word }, false)
}

// Kind IHW: with the packet's stop and page. In the start state the first page is to come, in the three-way state a later one.
pub fn check_at_initial_ihw(
    settings: Settings,
    packet: Packet,
    three: bool,
    word: Word,
) -> [Row; MOST_RECORDS]
    ensures { result ≡ padded (ihw_rows settings packet three word) }
{
    let fault = sanity_check(word);
    let stop = packet.stop as u64;
    let page = packet.page as u64;
    let mut rows = [none(); MOST_RECORDS];
    rows[0] = when(fault != 0, 30, fault, 0);
    rows[1] = when(settings.running & (stop != 0), 1120, stop, 0);
    rows[2] = when(settings.running & (!three & (page != 0)), 1121, page, 0);
    rows[3] = when(settings.running & (three & (page == 0)), 1122, page, 0);
    rows
}

// Kind IHW continuation.
pub fn check_continuation(word: Word) -> [Row; MOST_RECORDS]
    ensures { result ≡ padded (continuation_rows word) }
{
    let fault = sanity_check(word);
    let mut rows = [none(); MOST_RECORDS];
    rows[0] = when(fault != 0, 30, fault, 0);
    rows
}
