// The records of a data word or CDW. 01, "Records": data word or CDW kind; 02, ticket 4.
ghost use Rattle.std.specs.Prelude.{◌≡◌};
ghost use Rattle.records.specs.Records.{padded};
ghost use Rattle.validators.specs.DataWords.{lane_row, data_rows};

use data_ids::{
    ib_data_word_id_to_lane, is_data_word_id, ob_data_word_id_to_input_number_connector,
    ob_data_word_id_to_lane,
};
use packet::Settings;
use records::{MOST_RECORDS, Row, pick, when};
use stored::StoredCdw;
use stored::next::is_first_cdw;
use words::Word;
use words::cdw::Cdw;
use words::lanes::lane_answer;

// The row on the lane of an inner or an outer word: the lane is not active, or there is no such lane.
fn lane_row(asked: bool, code: u64, inner: bool, lane: u8, lanes: u32) -> Row
    ensures { result ≡ lane_row asked code inner lane lanes }
{
    let answer = lane_answer(inner, lane, lanes);
    let active = answer.is_active();
    let missing = answer.is_missing();
    when(
        asked & !active,
        pick(missing, 1074, code),
        lane as u64,
        lanes as u64,
    )
}

// Kinds data word and CDW, guessed or not, with the active lanes and the CDW stored before.
pub fn check(
    settings: Settings,
    seen: bool,
    lanes: u32,
    last: StoredCdw,
    guessed: bool,
    word: Word,
) -> [Row; MOST_RECORDS]
    ensures { result ≡ padded (data_rows settings seen lanes last guessed word) }
{
    let cdw = Cdw { word };
    let id = word.id();
    let first = is_first_cdw(seen, word);
    let user = cdw.calibration_user_fields();
    let index = cdw.calibration_word_index();
    let known = is_data_word_id(id);
    let inner = ib_data_word_id_to_lane(id);
    let outer = ob_data_word_id_to_lane(id);
    let input = ob_data_word_id_to_input_number_connector(id);
    let laned = settings.running & !first;
    [
        when(guessed, 991, id as u64, 0),
        when(
            settings.running & (first & (last.present & ((last.user != user) & (index != 0)))),
            81,
            index as u64,
            0,
        ),
        when(!first & !known, 70, id as u64, 0),
        lane_row(laned & (id / 32 == 1), 1072, true, inner, lanes),
        lane_row(laned & (id / 32 == 2), 1071, false, outer, lanes),
        when(
            laned & ((id / 32 == 2) & (input > 6)),
            1073,
            input as u64,
            0,
        ),
    ]
}
