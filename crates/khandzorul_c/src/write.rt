// The writers of words.
ghost use Rattle.writer.specs.Write.{Writes, WritesData};
ghost use Rattle.writer.specs.declared.Fields.TheVariants as F;

#[unsafe(no_mangle)]
pub extern "C" fn khz_write_ihw(active_lanes: u64, word: &mut [u8]) -> u64
    ensures { Writes (F.Ihw active_lanes) word.old result word.new }
{
    khandzorul::write::khz_write_ihw(active_lanes, word)
}

#[unsafe(no_mangle)]
pub extern "C" fn khz_write_tdh(
    trigger_type: u64,
    internal: u64,
    no_data: u64,
    continuation: u64,
    bc: u64,
    orbit: u64,
    word: &mut [u8],
) -> u64
    ensures { Writes (F.Tdh trigger_type internal no_data continuation bc orbit) word.old result word.new }
{
    khandzorul::write::khz_write_tdh(
        trigger_type,
        internal,
        no_data,
        continuation,
        bc,
        orbit,
        word,
    )
}

#[unsafe(no_mangle)]
pub extern "C" fn khz_write_tdt(
    lane_status: u64,
    timeout_to_start: u64,
    timeout_start_stop: u64,
    timeout_in_idle: u64,
    lane_starts_violation: u64,
    transmission_timeout: u64,
    packet_done: u64,
    word: &mut [u8],
) -> u64
    ensures { Writes
        (F.Tdt lane_status timeout_to_start timeout_start_stop timeout_in_idle lane_starts_violation transmission_timeout packet_done)
        word.old result word.new }
{
    khandzorul::write::khz_write_tdt(
        lane_status,
        timeout_to_start,
        timeout_start_stop,
        timeout_in_idle,
        lane_starts_violation,
        transmission_timeout,
        packet_done,
        word,
    )
}

#[unsafe(no_mangle)]
pub extern "C" fn khz_write_ddw0(
    lane_status: u64,
    lane_starts_violation: u64,
    transmission_timeout: u64,
    index: u64,
    word: &mut [u8],
) -> u64
    ensures { Writes (F.Ddw0 lane_status lane_starts_violation transmission_timeout index) word.old result word.new }
{
    khandzorul::write::khz_write_ddw0(
        lane_status,
        lane_starts_violation,
        transmission_timeout,
        index,
        word,
    )
}

#[unsafe(no_mangle)]
pub extern "C" fn khz_write_cdw(user_fields: u64, index: u64, word: &mut [u8]) -> u64
    ensures { Writes (F.Cdw user_fields index) word.old result word.new }
{
    khandzorul::write::khz_write_cdw(user_fields, index, word)
}

#[unsafe(no_mangle)]
pub extern "C" fn khz_write_data(id: u64, bytes: &[u8], word: &mut [u8]) -> u64
    ensures { WritesData id bytes.now word.old result word.new }
{
    khandzorul::write::khz_write_data(id, bytes, word)
}
