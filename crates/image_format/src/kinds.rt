// Kinds of images, by the fields behind their names.
// Each field is a note: first alarm, second alarm, and a count of two bytes.
#[derive(Clone, Copy, Debug, PartialEq, Eq)]
pub struct Counts;
