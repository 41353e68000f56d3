// Data ids and the lanes behind them. 01, "Words", "Data ids"; the Rust's words/its/data_words.rs.
#![tactic(auto)]

ghost use Rattle.std.specs.Prelude.{◌≡◌};
ghost use Rattle.data_ids.specs.DataIds.{is_data_id, inner_lane, outer_lane, input_number, connector, lane_number};

mod ob_lanes;

use ob_lanes::OB_LANES;

// Whether an id is that of a data word: the Rust's VALID_IL_ID and VALID_OL_CONNECT0_ID to VALID_OL_CONNECT3_ID.
pub fn is_data_word_id(id: u8) -> bool
    ensures { result ≡ is_data_id id }
{
    (0x20..=0x28).contains(&id)
        | (0x40..=0x46).contains(&id)
        | (0x48..=0x4E).contains(&id)
        | (0x50..=0x56).contains(&id)
        | (0x58..=0x5E).contains(&id)
}

pub fn ib_data_word_id_to_lane(id: u8) -> u8
    ensures { result ≡ inner_lane id }
{
    id % 32
}

pub fn ob_data_word_id_to_lane(id: u8) -> u8
    ensures { result ≡ outer_lane id }
{
    OB_LANES[id as usize]
}

pub fn ob_data_word_id_to_input_number_connector(id: u8) -> u8
    ensures { result ≡ input_number id }
{
    id % 8
}

pub fn ob_data_word_id_to_connector(id: u8) -> u8
    ensures { result ≡ connector id }
{
    id / 8 % 4
}

// The lane of an id that came from an inner or an outer barrel.
pub fn lane_id_to_lane_number(id: u8, inner: bool) -> u8
    ensures { result ≡ lane_number id inner }
{
    if inner {
        ib_data_word_id_to_lane(id)
    } else {
        ob_data_word_id_to_lane(id)
    }
}
