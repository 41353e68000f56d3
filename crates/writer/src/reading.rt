// The fields of a word of each kind, by the readers of words. No trait stands over the six, here and in packing: each kind has fields of its own, so that its
// impls would have these same bodies.
ghost use Rattle.std.specs.Prelude.{◌≡◌};
ghost use Rattle.writer.specs.Write.{fields_in};
ghost use Rattle.writer.specs.declared.WordKind.TheVariants as K;

use crate::Fields;
use words::Word;
use words::cdw::Cdw;
use words::ddw::Ddw0;
use words::ihw::Ihw;
use words::tdh::Tdh;
use words::tdt::Tdt;

pub(crate) fn ihw(word: Word) -> Fields
    ensures { result ≡ fields_in K.Ihw word }
{
    let ihw = Ihw { word: word };
    Fields::Ihw {
        active_lanes: ihw.active_lanes() as u64,
    }
}

pub(crate) fn tdh(word: Word) -> Fields
    ensures { result ≡ fields_in K.Tdh word }
{
    let tdh = Tdh { word: word };
    Fields::Tdh {
        trigger_type: tdh.trigger_type() as u64,
        internal_trigger: tdh.internal_trigger() as u64,
        no_data: tdh.no_data() as u64,
        continuation: tdh.continuation() as u64,
        trigger_bc: tdh.trigger_bc() as u64,
        trigger_orbit: tdh.trigger_orbit() as u64,
    }
}

pub(crate) fn tdt(word: Word) -> Fields
    ensures { result ≡ fields_in K.Tdt word }
{
    let tdt = Tdt { word: word };
    Fields::Tdt {
        lane_status: words::lane_status::ddw0_tdt_lane_status_27_0(word),
        timeout_to_start: tdt.timeout_to_start() as u64,
        timeout_start_stop: tdt.timeout_start_stop() as u64,
        timeout_in_idle: tdt.timeout_in_idle() as u64,
        lane_starts_violation: tdt.lane_starts_violation() as u64,
        transmission_timeout: tdt.transmission_timeout() as u64,
        packet_done: tdt.packet_done() as u64,
    }
}

pub(crate) fn ddw0(word: Word) -> Fields
    ensures { result ≡ fields_in K.Ddw0 word }
{
    let ddw0 = Ddw0 { word: word };
    Fields::Ddw0 {
        lane_status: words::lane_status::ddw0_tdt_lane_status_27_0(word),
        lane_starts_violation: ddw0.lane_starts_violation() as u64,
        transmission_timeout: ddw0.transmission_timeout() as u64,
        index: ddw0.index() as u64,
    }
}

pub(crate) fn cdw(word: Word) -> Fields
    ensures { result ≡ fields_in K.Cdw word }
{
    let cdw = Cdw { word: word };
    Fields::Cdw {
        user_fields: cdw.calibration_user_fields(),
        index: cdw.calibration_word_index() as u64,
    }
}

pub(crate) fn data(word: Word) -> Fields
    ensures { result ≡ fields_in K.Data word }
{
    Fields::Data {
        id: word.id() as u64,
        low: word.lo,
        high: (word.hi % 0x100) as u64,
    }
}
