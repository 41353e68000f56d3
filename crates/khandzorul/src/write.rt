// The writers of words that cross to C: from fields to the ten bytes of a word. Every field comes in with 64 bits and is asked for its width there.
ghost use Rattle.writer.specs.Write.{Writes, WritesData};
ghost use Rattle.writer.specs.declared.Fields.TheVariants as F;

use crate::answer::code;
use writer::Fields;

pub fn khz_write_ihw(active_lanes: u64, word: &mut [u8]) -> u64
    ensures { Writes (F.Ihw active_lanes) word.old result word.new }
{
    code(writer::write(
        Fields::Ihw {
            active_lanes: active_lanes,
        },
        word,
    ))
}

pub fn khz_write_tdh(
    trigger_type: u64,
    internal: u64,
    no_data: u64,
    continuation: u64,
    bc: u64,
    orbit: u64,
    word: &mut [u8],
) -> u64
    ensures { Writes (F.Tdh trigger_type internal no_data continuation bc orbit) word.old result word.new }
{
    code(writer::write(
        Fields::Tdh {
            trigger_type: trigger_type,
            internal_trigger: internal,
            no_data: no_data,
            continuation: continuation,
            trigger_bc: bc,
            trigger_orbit: orbit,
        },
        word,
    ))
}

pub fn khz_write_tdt(
    lane_status: u64,
    timeout_to_start: u64,
    timeout_start_stop: u64,
    timeout_in_idle: u64,
    lane_starts_violation: u64,
    transmission_timeout: u64,
    packet_done: u64,
    word: &mut [u8],
) -> u64
    ensures { Writes
        (F.Tdt lane_status timeout_to_start timeout_start_stop timeout_in_idle lane_starts_violation transmission_timeout packet_done)
        word.old result word.new }
{
    code(writer::write(
        Fields::Tdt {
            lane_status: lane_status,
            timeout_to_start: timeout_to_start,
            timeout_start_stop: timeout_start_stop,
            timeout_in_idle: timeout_in_idle,
            lane_starts_violation: lane_starts_violation,
            transmission_timeout: transmission_timeout,
            packet_done: packet_done,
        },
        word,
    ))
}

pub fn khz_write_ddw0(
    lane_status: u64,
    lane_starts_violation: u64,
    transmission_timeout: u64,
    index: u64,
    word: &mut [u8],
) -> u64
    ensures { Writes (F.Ddw0 lane_status lane_starts_violation transmission_timeout index) word.old result word.new }
{
    code(writer::write(
        Fields::Ddw0 {
            lane_status: lane_status,
            lane_starts_violation: lane_starts_violation,
            transmission_timeout: transmission_timeout,
            index: index,
        },
        word,
    ))
}

pub fn khz_write_cdw(user_fields: u64, index: u64, word: &mut [u8]) -> u64
    ensures { Writes (F.Cdw user_fields index) word.old result word.new }
{
    code(writer::write(
        Fields::Cdw {
            user_fields: user_fields,
            index: index,
        },
        word,
    ))
}

pub fn khz_write_data(id: u64, bytes: &[u8], word: &mut [u8]) -> u64
    ensures { WritesData id bytes.now word.old result word.new }
{
    code(writer::write_data(id, bytes, word))
}
