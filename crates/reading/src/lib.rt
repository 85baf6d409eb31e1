// Filling a buffer from an input, and telling the end of the input from a read that failed.
#![tactic(auto)]

ghost use Rattle.std.specs.Prelude.{◌≤◌, length};

use std::io::Read;

// Reads until the buffer is full, the input ends or a read fails, and answers how many bytes it put at the front.
pub fn read_full<R: Read>(input: &mut R, buffer: &mut [u8]) -> usize
    ensures { result ≤ length buffer.new }
{
    let mut done = 0;
    // By index: a read may put fewer bytes than there is room for, and no call of the library that fills a lent buffer says how many bytes came where the input ends.
    while done < buffer.len() {
        let Ok(got) = input.read(&mut buffer[done..]) else {
            break;
        };
        if got == 0 {
            break;
        }
        done += got;
    }
    done
}

// One more read: whether it found the end. If it failed or found a byte, the input has not ended.
pub fn has_ended<R: Read>(input: &mut R) -> bool {
    let mut byte = [0u8; 1];
    matches!(input.read(&mut byte), Ok(0))
}
