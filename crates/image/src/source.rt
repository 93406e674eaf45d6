// What stands behind the names of an image: a source of notes.
ghost use Rattle.std.specs.Prelude.{◌≡◌, ◌≤◌};
ghost use Rattle.sheet.specs.Sheets.{book_of};
ghost use Rattle.image_format.specs.Counts.{counts};
ghost use Rattle.image_format.specs.Images.{Kind};
ghost use Rattle.image.specs.Sources.{took, value_taken};
ghost use Rattle.std.proofs.Math.Nat.{le_refl};

use image_format::{Counts, ImageCause};
use sheet::Sheet;

// A kind of image: the fields behind its names, and what they ask of the sheet.
pub(crate) trait Source: Sized {
    ghost kind: { Kind Self };

    // Tags 1 and 2 are those of the limit and the names.
    ghost apart: { 3 ≤ kind.tag };

    // The tag of its fields.
    fn tag() -> u8
        ensures { result ≡ kind.tag };

    // Takes in a value.
    fn take(&mut self, sheet: &mut Sheet, value: &[u8]) -> Result<(), ImageCause>
        ensures { took result self.new (book_of sheet.new) ≡ value_taken kind self.old (book_of sheet.old) value.now };
}

const NOTE_TAG: u8 = 3;

impl Source for Counts {
    ghost kind = { counts };

    ghost apart = { le_refl 3 };

    fn tag() -> u8 {
        NOTE_TAG
    }

    fn take(&mut self, sheet: &mut Sheet, value: &[u8]) -> Result<(), ImageCause> {
        let &[first, second, high, low] = value else {
            return Err(ImageCause::Length);
        };
        let count = u16::from_be_bytes([high, low]);
        sheet.note(first, second, count.into())?;
        Ok(())
    }
}
