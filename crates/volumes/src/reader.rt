// The reader: the two years of a volume that the writer wrote. It goes from block to block, so that a volume that comes in pieces is read by the
// same steps.
ghost use Rattle.std.specs.Prelude.{◌≡◌, length};
ghost use Rattle.volumes.specs.Reader.{read_answer};
ghost use Rattle.volumes.specs.Stream.{held, read_on, finished};
ghost use Rattle.volumes.specs.declared.reader.Reader.{Reader};

use blocks::BLOCK;
use refusal::Refusal;
use units::Xinghe;

// What the blocks so far are: none; the writer's, from a first year to a last; or not the writer's. Three states, of which none is refused before the
// bytes end.
#[derive(Clone, Copy)]
pub enum Reader {
    Empty,
    Right(u64, u64),
    Wrong,
}

// The state after a block that has to be that of a year in the volume from a first year on. A block that is the writer's has a right check.
fn held(first: u64, year: u64, part: &[u8]) -> Reader
    requires { length part.now ≡ 512 }
    ensures { result ≡ held first year part.now }
{
    if crate::is_run(first, year) {
        let own = crate::block(first, year);
        if blocks::bytes::same_bytes(part, &own) {
            return Reader::Right(first, year);
        }
    }
    Reader::Wrong
}

impl Reader {
    pub fn new() -> Reader
        ensures { result ≡ Reader.Empty }
    {
        Reader::Empty
    }

    // One block more.
    pub fn block(self, part: &[u8]) -> Reader
        requires { length part.now ≡ 512 }
        ensures { result ≡ read_on self part.now }
    {
        match self {
            Reader::Empty => {
                let first = blocks::bytes::u32_at(part, 0);
                held(first, first, part)
            }
            Reader::Right(first, last) => {
                // past the round's last year there is none, and the sum can't wrap
                if Xinghe::YEARS <= last {
                    return Reader::Wrong;
                }
                held(first, last + 1, part)
            }
            Reader::Wrong => Reader::Wrong,
        }
    }

    // The answer, where so many bytes came after the last whole block.
    pub fn finish(self, rest: usize) -> Result<(u64, u64), Refusal>
        ensures { result ≡ finished self rest }
    {
        if rest != 0 {
            return Err(Refusal::Volume);
        }
        match self {
            Reader::Empty => Err(Refusal::Volume),
            Reader::Right(first, last) => Ok((first, last)),
            Reader::Wrong => Err(Refusal::Block),
        }
    }
}

// The two years of a volume.
pub fn read(volume: &[u8]) -> Result<(u64, u64), Refusal>
    ensures { result ≡ read_answer volume.now }
{
    let mut reader = Reader::new();
    for part in volume.chunks_exact(BLOCK) {
        reader = reader.block(part);
    }
    reader.finish(volume.len() % BLOCK)
}
