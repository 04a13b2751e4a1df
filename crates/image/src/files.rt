// Reading an image: 512 bytes, page A0 and then page A2.
ghost use Rattle.std.specs.Prelude.{◌≡◌, ◌≤◌, length, IfOk, IfErr};
ghost use Rattle.image.specs.declared.files.Unfit.TheVariants.{Unread};
ghost use Rattle.image.specs.Size.{SizeOf, Told};

use std::fs::File;
use std::io;
use std::io::Read;
use std::rt::Files;

#[derive(Clone, Copy)]
pub struct Image {
    pub a0: [u8; 256],
    pub a2: [u8; 256],
}

// Why a file is no image: it has so few bytes, it has more than 512, or it could not be read.
#[derive(Clone, Copy, Debug)]
pub enum Unfit {
    Short(usize),
    Long,
    Unread(io::Error),
}

impl From<io::Error> for Unfit {
    ghost from_gives = { λ e r. r ≡ Unread e };

    fn from(e: io::Error) -> Unfit {
        Unfit::Unread(e)
    }
}

// count: the bytes read of at most 512. past: what a read after them answered.
fn sized(count: usize, past: io::Result<usize>) -> Result<(), Unfit>
    ensures { SizeOf count past result }
{
    match past? {
        0 if count < 512 => Err(Unfit::Short(count)),
        0 => Ok(()),
        _ => Err(Unfit::Long),
    }
}

// Reads until the buffer is full or the file ends; std's `read_exact` does not say how many bytes a shorter file has.
fn filled<F: Read>(file: &mut F, buffer: &mut [u8]) -> io::Result<usize>
    ensures { IfOk result (λ n. n ≤ length buffer.new) }
{
    let mut count = 0;
    while count < buffer.len() {
        let n = file.read(&mut buffer[count..])?;
        if n == 0 {
            return Ok(count);
        }
        count += n;
    }
    Ok(count)
}

#[tactic(auto, using(crate::proofs::Laws::told))]
fn pages<F: Read>(file: &mut F) -> Result<Image, Unfit>
    ensures { IfErr result Told }
{
    let mut a0 = [0; 256];
    let mut a2 = [0; 256];
    let first = filled(file, &mut a0)?;
    let second = filled(file, &mut a2)?;
    sized(first + second, file.read(&mut [0]))?;
    Ok(Image { a0, a2 })
}

fn opened<R: Files>(rt: &R, path: &[u8]) -> io::Result<R::File> {
    let name = str::from_utf8(path).map_err(|_| io::Error::new(
        io::ErrorKind::InvalidFilename,
        "its name is not UTF-8",
    ))?;
    File::open(rt, name)
}

pub fn read<R: Files>(rt: &R, path: &[u8]) -> Result<Image, Unfit>
    ensures { IfErr result Told }
{
    pages(&mut opened(rt, path)?)
}
