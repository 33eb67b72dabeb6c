// The listing's lines of words and numbers, each laid into a lent output: the first line, a refusal, a file that is not there. The caller has
// seen that there is room.
#![tactic(auto)]

ghost use Rattle.std.specs.Prelude.{◌≡◌, ◌≤◌, length};
ghost use Rattle.wire.specs.Lent.{front};
ghost use Rattle.listing_lines.specs.Lines.{found_line, refused_line, no_file_line, Printed, line_room};

use decimal_text::put_told;

// The first line: N, the greatest score and the rounds.
pub fn put_found(out: &mut [u8], anchors: u32, score: u32, rounds: u32) -> usize
    requires { line_room ≤ length out.old }
    ensures { (result ≡ length (found_line anchors score rounds)) × (out.new ≡ front (found_line anchors score rounds) out.old) }
{
    put_told(
        out,
        &[
            (b"anchors ", anchors),
            (b" score ", score),
            (b" rounds ", rounds),
        ],
    )
}

// The line of a refusal.
pub fn put_refused(out: &mut [u8], number: u32, file: u32, place: u32) -> usize
    requires { line_room ≤ length out.old }
    ensures { (result ≡ length (refused_line number file place)) × (out.new ≡ front (refused_line number file place) out.old) }
{
    put_told(
        out,
        &[
            (b"refused ", number),
            (b" file ", file),
            (b" place ", place),
        ],
    )
}

// The line of a file that is not there.
pub fn put_no_file(out: &mut [u8], file: u32) -> usize
    requires { line_room ≤ length out.old }
    ensures { Printed (no_file_line file) out.old out.new result }
{
    put_told(out, &[(b"no file ", file)])
}
