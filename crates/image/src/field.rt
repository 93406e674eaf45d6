// The fields of an image, one behind another.
ghost use Rattle.std.specs.Prelude.{◌≡◌, ◌+◌, ◌^◌, ◌<◌, length, option_map, slice_get};

use image_format::{ImageCause, ImageFault};

// A field's tag and the two bytes of its value's length.
pub(crate) const HEADER: usize = 3;

// A tag, a value that lies in the image, and the place where the field begins.
#[derive(Clone, Copy)]
pub(crate) struct Field<'a> {
    pub(crate) tag: u8,
    pub(crate) value: &'a [u8],
    pub(crate) place: usize,
    ghost fits: { place + 3 + length value.now < 2 ^ 64 },
}

// What is left of an image, and the place where it begins.
#[derive(Clone, Copy)]
pub(crate) struct Fields<'a> {
    rest: &'a [u8],
    place: usize,
    ghost fits: { place + length rest.now < 2 ^ 64 },
}

impl<'a> Field<'a> {
    ghost use Rattle.image_format.specs.Fields.{items};
    ghost use Rattle.image.specs.Shown.{placed, shown};

    // The field of an index, where the image has so many.
    pub(crate) fn of(image: &'a [u8], index: usize) -> Option<Result<Self, ImageFault>>
        ensures { option_map shown result ≡ slice_get (placed 0 (items 0 image.now)) index }
    {
        Fields::of(image).nth(index)
    }
}

impl<'a> Fields<'a> {
    ghost use Rattle.image.specs.Shown.{SplitsFirst};

    // The fields of an image.
    pub(crate) fn of(image: &'a [u8]) -> Self
        ensures rest { result.rest.now ≡ image.now }
        ensures place { result.place ≡ 0 }
    {
        Fields {
            rest: image,
            place: 0,
        }
    }

    // The first field's tag and value, and the bytes behind it, unless it is cut short.
    fn split_first(&self) -> Option<(u8, &'a [u8], &'a [u8])>
        ensures { SplitsFirst self.now.rest.now result }
    {
        let (&[tag, high, low], rest) = self.rest.split_first_chunk::<HEADER>()?;
        let (value, rest) = rest.split_at_checked(u16::from_be_bytes([high, low]).into())?;
        Some((tag, value, rest))
    }
}

impl<'a> Iterator for Fields<'a> {
    ghost use Rattle.std.specs.Iterator.{YieldsFirstBy, at_most};
    ghost use Rattle.image.specs.Shown.{fields_left, shown};

    type Item = Result<Field<'a>, ImageFault>;

    ghost next_gives = { YieldsFirstBy shown fields_left };

    ghost remaining = { λ s. at_most (length s.rest.now) };

    // Nothing is read behind a field that is cut short.
    #[tactic(auto, using(crate::proofs::Placed::placed_whole))]
    fn next(&mut self) -> Option<Self::Item> {
        if self.rest.is_empty() {
            return None;
        }
        let place = self.place;
        let Some((tag, value, rest)) = self.split_first() else {
            self.rest = &[];
            return Some(Err(ImageCause::CutShort.at(place)));
        };
        self.rest = rest;
        self.place += HEADER + value.len();
        Some(Ok(Field { tag, value, place }))
    }
}
