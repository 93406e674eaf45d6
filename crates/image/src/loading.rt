// Loading a sheet from an image.
ghost use Rattle.std.specs.Prelude.{◌≡◌, OnErr};
ghost use Rattle.std.specs.Result.{result_map_both};
ghost use Rattle.sheet.specs.Sheets.{book_of};
ghost use Rattle.image_format.specs.Images.{read};
ghost use Rattle.image.specs.Loads.{Loads, book_after};

use crate::field::Fields;
use crate::reading::Reading;
use crate::source::Source;
use image_format::{Counts, ImageCause, ImageFault};
use sheet::Sheet;

// The most bytes of an image.
pub const MAX_IMAGE: usize = 16384;

// As `load`, for an image of any kind.
#[tactic(auto, using(crate::proofs::InTurn::read_image))]
fn load_from<S: Source + Drop>(
    image: &[u8],
    source: S,
    sheet: &mut Sheet,
) -> Result<u32, ImageFault>
    ensures answered { result ≡ result_map_both (λ x. x.fields) (λ f. f) (read S.Source.kind source image.now) }
    ensures leaves { book_of sheet.new ≡ book_after (book_of sheet.old) (read S.Source.kind source image.now) }
    ensures kept { OnErr result (sheet.new ≡ sheet.old) }
{
    if image.len() > MAX_IMAGE {
        return Err(ImageCause::TooLong.at(MAX_IMAGE));
    }
    let mut reading = Reading::new(source);
    for field in Fields::of(image) {
        let field = field?;
        reading.step(field).map_err(|cause| cause.at(field.place))?;
    }
    let fields = reading.finish(image.len())?;
    *sheet = reading.sheet;
    Ok(fields)
}

// Makes the sheet what the image says, and answers how many notes made it. A refusal leaves the sheet as it was.
pub fn load(image: &[u8], sheet: &mut Sheet) -> Result<u32, ImageFault>
    ensures loads { Loads image.now (book_of sheet.old) result (book_of sheet.new) }
    ensures kept { OnErr result (sheet.new ≡ sheet.old) }
{
    load_from(image, Counts, sheet)
}
