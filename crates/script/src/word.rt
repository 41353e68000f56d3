// A word from the numbers of a line, by the writer of words.
ghost use Rattle.std.specs.Prelude.{◌≡◌};
ghost use Rattle.refusals.specs.Refusals.{code};
ghost use Rattle.writer.specs.Write.{WritePost};
ghost use Rattle.writer.specs.declared.WordKind.TheVariants.{Data};
ghost use Rattle.script.specs.Asked.{are_bytes, asked_of};

use refusals::Refusal;
use writer::{Fields, WordKind};

// Whether the nine numbers behind the first are bytes.
fn are_bytes(n: [u64; 10]) -> bool
    ensures { result ≡ are_bytes n }
{
    n[1..].iter().all(|&byte| byte <= 255)
}

// "data ID B0 .. B8"
fn write_data(n: [u64; 10], out: &mut [u8]) -> Result<(), Refusal>
    ensures { WritePost (asked_of Data n).fits (asked_of Data n).bytes out.old (code result) out.new }
{
    if !are_bytes(n) {
        return Err(Refusal::Field);
    }
    let bytes = [
        n[1] as u8, n[2] as u8, n[3] as u8, n[4] as u8, n[5] as u8, n[6] as u8, n[7] as u8,
        n[8] as u8, n[9] as u8,
    ];
    writer::write_data(n[0], &bytes, out)
}

// The ten bytes of the word that a line of a kind asks for. Refused with 8 or 1, as by the writer.
pub fn write(kind: WordKind, n: [u64; 10], out: &mut [u8]) -> Result<(), Refusal>
    ensures { WritePost (asked_of kind n).fits (asked_of kind n).bytes out.old (code result) out.new }
{
    match kind {
        WordKind::Ihw => writer::write(Fields::Ihw { active_lanes: n[0] }, out),
        WordKind::Tdh => writer::write(
            Fields::Tdh {
                trigger_type: n[0],
                internal_trigger: n[1],
                no_data: n[2],
                continuation: n[3],
                trigger_bc: n[4],
                trigger_orbit: n[5],
            },
            out,
        ),
        WordKind::Tdt => writer::write(
            Fields::Tdt {
                lane_status: n[0],
                timeout_to_start: n[1],
                timeout_start_stop: n[2],
                timeout_in_idle: n[3],
                lane_starts_violation: n[4],
                transmission_timeout: n[5],
                packet_done: n[6],
            },
            out,
        ),
        WordKind::Ddw0 => writer::write(
            Fields::Ddw0 {
                lane_status: n[0],
                lane_starts_violation: n[1],
                transmission_timeout: n[2],
                index: n[3],
            },
            out,
        ),
        WordKind::Cdw => writer::write(
            Fields::Cdw {
                user_fields: n[0],
                index: n[1],
            },
            out,
        ),
        WordKind::Data => write_data(n, out),
    }
}
