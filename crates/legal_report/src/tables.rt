//! The lines behind the logs.

ghost use Rattle.std.specs.Prelude.{◌≡◌, ◌+◌, ◌<◌, ◌^◌, length};
ghost use Rattle.report_lines.specs.Lines.{ended_lines};
ghost use Rattle.legal_report.specs.Differs.{differs_at, TablesAre};

use report_lines::next_line;

fn difference(wanted: &[u8], there: &[u8], first: u32) -> Option<u32>
    requires { first + length there.now < 2 ^ 32 }
    ensures { result ≡ differs_at first (ended_lines wanted.now) (ended_lines there.now) }
{
    let mut line = first;
    let mut left = wanted;
    let mut rest = there;
    while !left.is_empty() {
        if rest.is_empty() {
            return Some(line);
        }
        let (want, more) = next_line(left);
        let (have, behind) = next_line(rest);
        let same = want == have;
        if same {
            line += 1;
            left = more;
            rest = behind;
        } else {
            return Some(line);
        }
    }
    if rest.is_empty() { None } else { Some(line) }
}

/// The number of the first line behind the logs, counted from `first`, that is another than the wanted one, is
/// missing, or is one too many; None where there is none.
pub fn first_difference(wanted: &[u8], there: &[u8], first: u32) -> Option<u32>
    requires { first + length there.now < 2 ^ 32 }
    ensures line { result ≡ differs_at first (ended_lines wanted.now) (ended_lines there.now) }
    // The checks of these lines pass, or that of this line is the first that does not.
    ensures checks { TablesAre first (ended_lines wanted.now) (ended_lines there.now) result }
{
    difference(wanted, there, first)
}
