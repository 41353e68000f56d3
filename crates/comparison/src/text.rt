// The line of a place, at the front of a lent buffer. Document 02, ticket 5.
ghost use Rattle.std.specs.Prelude.{◌≤◌, length};
ghost use Rattle.ascii.specs.Text.{Puts};
ghost use Rattle.comparison.specs.Text.{line_of, most_printed};

use crate::{Place, Where};
use ascii::put_line;

// The line of a place whose numbers differ.
pub(crate) fn put_place(out: &mut [u8], place: Place) -> usize
    requires { most_printed ≤ length out.old }
    ensures { Puts (line_of place) out.old result out.new }
{
    let first = place.first;
    let second = place.second;
    let at = place.at;
    match at {
        Where::Packets => put_line(out, b"packets", &[first, second]),
        Where::Words => put_line(out, b"words", &[first, second]),
        Where::Count { packet } => put_line(out, b"count", &[packet, first, second]),
        Where::Field { packet, field } => put_line(out, b"field", &[packet, field, first, second]),
        Where::Byte { packet, word, byte } => {
            put_line(out, b"byte", &[packet, word, byte, first, second])
        }
    }
}
