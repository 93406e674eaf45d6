// Names out of an image.
ghost use Rattle.std.specs.Prelude.{◌≡◌, ◌+◌};

use crate::field::{Field, HEADER};
use crate::loading::load;
use crate::reading::NAME_TAG;
use image_format::{ImageCause, ImageFault};
use sheet::{Fault, Sheet};

// A reader of an image.
#[derive(Clone, Copy, PartialEq, Eq, Debug)]
pub struct Image<'a> {
    bytes: &'a [u8],
}

// A name's bytes, which lie in the image, and the place of the first of them.
#[derive(Clone, Copy, PartialEq, Eq, Debug)]
pub struct Name<'a> {
    pub bytes: &'a [u8],
    pub place: usize,
}

impl<'a> Image<'a> {
    ghost use Rattle.std.specs.Prelude.{option_map};
    ghost use Rattle.image.specs.Namings.{Names, part_of};
    ghost use Rattle.image.specs.Shown.{name_at};

    // A reader of the image.
    pub fn over(bytes: &'a [u8]) -> Image<'a>
        ensures { result.bytes.now ≡ bytes.now }
    {
        Image { bytes }
    }

    // The name of an alarm, if its field is a name's. The first field is the limit, and then come the names.
    fn find(&self, alarm: u8) -> Option<Name<'a>>
        ensures { option_map part_of result ≡ name_at self.now.bytes.now (alarm + 1) }
    {
        let field = Field::of(self.bytes, usize::from(alarm) + 1)?.ok()?;
        (field.tag == NAME_TAG).then_some(Name {
            bytes: field.value,
            place: field.place + HEADER,
        })
    }

    // The name of an alarm, as a part of the image. An image that load refuses is refused likewise.
    pub fn name(&self, alarm: u8) -> Result<Name<'a>, ImageFault>
        ensures { Names self.now.bytes.now alarm result }
    {
        load(self.bytes, &mut Sheet::new())?;
        self.find(alarm)
            .ok_or(ImageCause::from(Fault::UnknownAlarm).at(0))
    }
}
