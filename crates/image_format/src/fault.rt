// Why an image is refused, and where.
ghost use Rattle.std.specs.Prelude.{◌≡◌, Some};
ghost use Rattle.image_format.specs.Numbers.{cause_number, refusal_text};
ghost use Rattle.image_format.specs.declared.fault.ImageCause.TheVariants.{Sheet};

use sheet::Fault;
use std::error::Error;
use std::fmt;

#[derive(Clone, Copy, PartialEq, Eq, Debug)]
pub enum ImageCause {
    // The sheet refuses what a field asks of it.
    Sheet(Fault),
    // The image is above 16384 bytes.
    TooLong,
    // A field is cut short: its header or its value runs past the end.
    CutShort,
    // A tag is unknown or out of order.
    Tag,
    // The wrong length for the tag.
    Length,
    // A name has a byte outside 32 to 126.
    NameByte,
    // A name was given before.
    SameName,
    // The image ends before the first name.
    NoName,
    // The out buffer is too short.
    ShortBuffer,
}

// A cause, and the place in the image that it is told of.
#[derive(Clone, Copy, PartialEq, Eq, Debug)]
pub struct ImageFault {
    pub cause: ImageCause,
    pub place: usize,
}

impl ImageCause {
    // The fault that is this cause at a place.
    pub fn at(self, place: usize) -> ImageFault
        ensures { result ≡ record { cause = self; place = place } }
    {
        ImageFault { cause: self, place }
    }
}

// The sheet's fault travels whole inside the image's.
impl From<Fault> for ImageCause {
    ghost from_gives = { λ fault cause. cause ≡ Sheet fault };

    fn from(fault: Fault) -> ImageCause
        ensures { result ≡ Sheet fault }
    {
        Self::Sheet(fault)
    }
}

impl ImageFault {
    // The number by which the refusal is known outside.
    pub fn number(&self) -> u8
        ensures value { result ≡ cause_number self.now.cause }
        ensures apart { (other : ImageCause) → cause_number other ≡ result → other ≡ self.now.cause }
    {
        match self.cause {
            ImageCause::Sheet(fault) => fault.number(),
            ImageCause::TooLong => 30,
            ImageCause::CutShort => 31,
            ImageCause::Tag => 32,
            ImageCause::Length => 33,
            ImageCause::NameByte => 34,
            ImageCause::SameName => 35,
            ImageCause::NoName => 36,
            ImageCause::ShortBuffer => 40,
        }
    }
}

// `refused 31 at 14`, for one.
impl fmt::Display for ImageFault {
    ghost output = { λ fault. Some (refusal_text fault) };

    fn fmt<W: fmt::Write>(&self, f: &mut fmt::Formatter<W>) -> fmt::Result {
        write!(f, "refused {} at {}", self.number(), self.place)
    }
}

impl Error for ImageFault {}
