// What the fields of an image so far have told.
ghost use Rattle.std.specs.Prelude.{◌≡◌, ◌+◌, ◌^◌, ◌<◌, map};
ghost use Rattle.image_format.specs.Names.{given, printable};
ghost use Rattle.image_format.specs.Images.{finished, start, step as step_to};

use crate::field::Field;
use crate::source::Source;
use arrayvec::ArrayVec;
use image_format::{ImageCause, ImageFault};
use sheet::{Fault, MAX_ALARMS, Sheet};

const LIMIT_TAG: u8 = 1;

pub(crate) const NAME_TAG: u8 = 2;

const MAX_NAME: usize = 16;

const MAX_NAMES: usize = MAX_ALARMS as usize;

// Whether each byte is one that a name may have.
fn is_printable(name: &[u8]) -> bool
    ensures { result ≡ printable name.now }
{
    name.iter().all(|byte| (b' '..=b'~').contains(byte))
}

// Whether a name was given before.
#[tactic(auto, using(crate::proofs::Given::given_map))]
fn has(names: &ArrayVec<&[u8], MAX_NAMES>, name: &[u8]) -> bool
    ensures { result ≡ given name.now (map (λ x. x.now) names.now.items) }
{
    names.contains(&name)
}

// Which fields may come next, and what those so far have told.
#[derive(Drop)]
pub(crate) enum Stage<'a> {
    // None has come.
    Start,
    // The limit has, to which the sheet is confined, and these names.
    Naming(ArrayVec<&'a [u8], MAX_NAMES>),
    // The sheet was opened for the names, and so many fields behind them went into it.
    Noting(u32),
}

// A sheet of its own, into which the fields go.
#[derive(Drop)]
pub(crate) struct Reading<'a, S> {
    source: S,
    pub(crate) sheet: Sheet,
    stage: Stage<'a>,
}

impl<'a, S: Source + Drop> Reading<'a, S> {
    ghost use Rattle.image.specs.Readings.{behind, described_at, fields_noted, limit_told, name_told, note_told, state_of, told};

    // Nothing has been read.
    pub(crate) fn new(source: S) -> Self
        ensures { state_of result ≡ start source }
    {
        Reading {
            source,
            sheet: Sheet::new(),
            stage: Stage::Start,
        }
    }

    // Takes in the limit.
    fn limit(&mut self, value: &[u8]) -> Result<(), ImageCause>
        ensures { told result (state_of self.new) ≡ limit_told (state_of self.old) value.now }
    {
        let Stage::Start = self.stage else {
            return Err(ImageCause::Tag);
        };
        let &[limit] = value else {
            return Err(ImageCause::Length);
        };
        self.sheet.confine(limit)?;
        self.stage = Stage::Naming(ArrayVec::new());
        Ok(())
    }

    // Takes in a name.
    fn name(&mut self, name: &'a [u8]) -> Result<(), ImageCause>
        ensures { told result (state_of self.new) ≡ name_told (state_of self.old) name.now }
    {
        let Stage::Naming(names) = &mut self.stage else {
            return Err(ImageCause::Tag);
        };
        if !(1..=MAX_NAME).contains(&name.len()) {
            return Err(ImageCause::Length);
        }
        if names.is_full() {
            return Err(Fault::Alarms.into());
        }
        if !is_printable(name) {
            return Err(ImageCause::NameByte);
        }
        if has(names, name) {
            return Err(ImageCause::SameName);
        }
        names.push(name);
        Ok(())
    }

    // Opens the sheet for the names, if there are any and it is not open.
    fn open(&mut self)
        ensures { state_of self.new ≡ behind (state_of self.old) }
    {
        let Stage::Naming(names) = &self.stage else {
            return;
        };
        let Ok(alarms) = u8::try_from(names.len()) else {
            return;
        };
        if self.sheet.open(alarms, self.sheet.limit()).is_ok() {
            self.stage = Stage::Noting(0);
        }
    }

    // Takes in a field behind the names.
    fn note(&mut self, value: &[u8]) -> Result<(), ImageCause>
        requires { fields_noted (state_of self.old) + 1 < 2 ^ 32 }
        ensures { told result (state_of self.new) ≡ note_told S.Source.kind (behind (state_of self.old)) value.now }
    {
        self.open();
        let Stage::Noting(fields) = &mut self.stage else {
            return Err(ImageCause::Tag);
        };
        self.source.take(&mut self.sheet, value)?;
        *fields += 1;
        Ok(())
    }

    // Takes in a field.
    pub(crate) fn step(&mut self, field: Field<'a>) -> Result<(), ImageCause>
        requires { fields_noted (state_of self.old) + 1 < 2 ^ 32 }
        ensures { told result (state_of self.new) ≡ step_to S.Source.kind (state_of self.old) field.entry.tag field.entry.value.now }
    {
        if field.tag == S::tag() {
            return self.note(field.value);
        }
        match field.tag {
            LIMIT_TAG => self.limit(field.value),
            NAME_TAG => self.name(field.value),
            _ => Err(ImageCause::Tag),
        }
    }

    // Ends the reading where the image ends, and answers how many fields behind the names there were.
    pub(crate) fn finish(&mut self, place: usize) -> Result<u32, ImageFault>
        ensures { described_at self.new result ≡ finished (state_of self.old) place }
    {
        self.open();
        match self.stage {
            Stage::Noting(fields) => Ok(fields),
            _ => Err(ImageCause::NoName.at(place)),
        }
    }
}
