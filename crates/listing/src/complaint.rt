// The line that tells a refusal.
ghost use Rattle.std.specs.Prelude.{◌≡◌, ◌++◌, length, codes};
ghost use Rattle.listing.specs.Complaints.{complaint};
ghost use Rattle.listing.specs.Writes.{Writes};

use image_format::{ImageCause, ImageFault};
use itoa::Buffer;

// The bytes of `refused `, ` at ` and a line feed.
const WORDS: usize = 8 + 4 + 1;

// Writes the line that tells a refusal to the front of a buffer, and answers its length.
pub fn complain(fault: &ImageFault, out: &mut [u8]) -> Result<usize, ImageFault>
    ensures { Writes (complaint fault.now) out.old result out.new }
{
    let (mut number, mut place) = (Buffer::new(), Buffer::new());
    let number = number.format(fault.number());
    let place = place.format(fault.place);
    let length = WORDS + number.len() + place.len();
    if out.len() < length {
        return Err(ImageCause::ShortBuffer.at(0));
    }
    write_line(number, place, &mut out[..length]);
    Ok(length)
}

// Writes the line of two numbers over a part of a buffer that is as long as the line.
fn write_line(number: &str, place: &str, line: &mut [u8])
    requires { length line.old ≡ length (codes "refused " ++ number.now ++ codes " at " ++ place.now ++ codes "\n") }
    ensures { line.new ≡ codes "refused " ++ number.now ++ codes " at " ++ place.now ++ codes "\n" }
{
    let (refused, rest) = line.split_at_mut(8);
    refused.copy_from_slice(b"refused ");
    let (numbered, rest) = rest.split_at_mut(number.len());
    numbered.copy_from_slice(number.as_bytes());
    let (at, rest) = rest.split_at_mut(4);
    at.copy_from_slice(b" at ");
    let (placed, end) = rest.split_at_mut(place.len());
    placed.copy_from_slice(place.as_bytes());
    end.copy_from_slice(b"\n");
}
