// Writing the reader's answer as a line into a lent buffer.
ghost use Rattle.std.specs.Prelude.{◌≡◌, length};
ghost use Rattle.writing.specs.Written.{after_text};
ghost use Rattle.volume_text.specs.Lines.{years_line};

use refusal::Refusal;
use year_text::writer::{put_field, put_refusal};

// The two years, or the refusal, at the front of the buffer; the answer is the line's length.
pub fn render(answer: Result<(u64, u64), Refusal>, out: &mut [u8; 64]) -> usize
    ensures { (result ≡ length (years_line answer)) × (out.new ≡ after_text (years_line answer) out.old) }
{
    match answer {
        Ok((first, last)) => {
            let end = put_field(out, 0, first, 32);
            put_field(out, end, last, 10)
        }
        Err(e) => put_refusal(out, 0, e),
    }
}
