// Lines of records, at the front of a lent buffer. Document 01, "Bench file".
ghost use Rattle.std.specs.Prelude.{◌+◌, ◌*◌, ◌/◌, ◌≤◌, ◌++◌, length};
ghost use Rattle.records.specs.Records.{record_width};
ghost use Rattle.ascii.specs.Text.{space, numeral, most_number, Puts};
ghost use Rattle.report.specs.Text.{line, most_line, all_records, lines};

// Three numbers at the front of a line.
fn put_three(out: &mut [u8], x: u64, y: u64, z: u64) -> usize
    requires { 3 * most_number ≤ length out.old }
    ensures puts { Puts (numeral x space ++ numeral y space ++ numeral z space) out.old result out.new }
    ensures upper_bound { result ≤ 3 * most_number }
{
    let a = ascii::put_number(out, x, ascii::SPACE);
    let b = a + ascii::put_number(&mut out[a..], y, ascii::SPACE);
    b + ascii::put_number(&mut out[b..], z, ascii::SPACE)
}

// A record, as a line: the count of packets is its first column.
fn put_line(out: &mut [u8], position: u64, code: u64, first: u64, second: u64, packet: u64) -> usize
    requires { most_line ≤ length out.old }
    ensures puts { Puts (line (record { position = position; code = code; first = first; second = second; packet = packet }))
        out.old result out.new }
    ensures upper_bound { result ≤ most_line }
{
    let a = put_three(out, packet, position, code);
    let b = a + ascii::put_number(&mut out[a..], first, ascii::SPACE);
    b + ascii::put_number(&mut out[b..], second, ascii::NEWLINE)
}

// The records that stand in a buffer, as lines.
pub(crate) fn put_lines(out: &mut [u8], records: &[u64]) -> usize
    requires { length records.now / record_width * most_line ≤ length out.old }
    ensures { Puts (lines (all_records records.now)) out.old result out.new }
{
    let mut used: usize = 0;
    for record in records.chunks_exact(records::RECORD_WIDTH) {
        used += put_line(
            &mut out[used..],
            record[0],
            record[1],
            record[2],
            record[3],
            record[4],
        );
    }
    used
}
