// What the mending program prints: the lines into a lent buffer, the volume where it was read.
#![tactic(auto)]

ghost use Rattle.std.specs.Prelude.{◌≡◌, ◌*◌, ◌≤◌, length};
ghost use Rattle.writing.specs.Written.{Wrote, after_text, texts};
ghost use Rattle.mending.specs.Mended.{after_mend};
ghost use Rattle.mending_text.specs.Report.{number_line, printed_lines, report_of};

use mending::MOST_BLOCKS;
use year_text::writer::{put_field, put_refusal};

// How many bytes a number and the end of its line take at the most.
const LINE: usize = 21;

// Room for a line of each block, and one more for their number.
pub const LINES: usize = LINE * (MOST_BLOCKS + 1);

// How many bytes of the lines are to be printed, and then how many of the volume.
#[derive(Clone, Copy)]
pub struct Report {
    pub text: usize,
    pub volume: usize,
}

// Numbers, one a line, at the front of the buffer; the answer is the place after them.
fn put_numbers(out: &mut [u8], numbers: &[u64]) -> usize
    requires { 21 * length numbers.now ≤ length out.old }
    ensures { Wrote out.old out.new 0 result (texts number_line numbers.now) }
{
    let mut end = 0;
    for &number in numbers {
        end = put_field(out, end, number, 10);
    }
    end
}

// The volume is mended where it is, and the lines that tell of it stand at the front of the buffer.
pub fn render(volume: &mut [u8], lines: &mut [u8; LINES]) -> Report
    ensures { (result ≡ report_of volume.old) × (volume.new ≡ after_mend volume.old) × (lines.new ≡ after_text (printed_lines volume.old) lines.old) }
{
    let mut list = [0u64; MOST_BLOCKS];
    match mending::mend(volume, &mut list) {
        Ok(n) => {
            let end = put_numbers(lines, &list[..n as usize]);
            Report {
                text: put_field(lines, end, n, 10),
                volume: volume.len(),
            }
        }
        Err(e) => Report {
            text: put_refusal(lines, 0, e),
            volume: 0,
        },
    }
}
