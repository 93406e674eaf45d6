// Loads images, whole ones and ones with a fault of every kind, and prints what each load answered.
#![tactic(auto)]

mod cases;
mod images;

use cases::Case;
use image::load;
use image_format::ImageFault;
use listing::complain;
use sheet::Sheet;
use std::fmt::Display;
use std::io;

// Where the fields of the ring's image begin, with their tags and lengths.
const RING_FIELDS: [(u8, u8, u8); 7] = [
    (0, 1, 1),
    (4, 2, 2),
    (9, 2, 2),
    (14, 2, 2),
    (19, 3, 4),
    (26, 3, 4),
    (33, 3, 4),
];

// Where the notes of the ring's image begin.
const RING_NOTES: [u8; 3] = [19, 26, 33];

// Makes a sheet that holds something, so that a load can be seen to change it.
fn held() -> Sheet {
    let mut sheet = Sheet::new();
    let _ = sheet.open(2, 2);
    let _ = sheet.note(0, 1, 7);
    sheet
}

// Prints the line that complains of a fault.
fn print_complaint(
    rt: &impl Print,
    label: impl Display + Drop,
    fault: &ImageFault,
) -> io::Result<()> {
    let mut line = [0; 40];
    let length = complain(fault, &mut line).unwrap_or(0);
    let text = str::from_utf8(&line[..length]).unwrap_or("NO TEXT\n");
    print!(rt; "  {label}: {text}")
}

// Prints what a load of the image into the held sheet answers.
fn show(rt: &impl Print, label: impl Display + Drop, image: &[u8]) -> io::Result<()> {
    let mut sheet = held();
    match load(image, &mut sheet) {
        Ok(notes) => {
            let alarms = sheet.alarms();
            let rows = sheet.rows().len();
            println!(rt; "  {label}: {notes} notes, {alarms} alarms, {rows} rows")
        }
        Err(fault) if sheet == held() => print_complaint(rt, label, &fault),
        Err(_) => println!(rt; "  {label}: SHEET CHANGED"),
    }
}

// Shows an image under its length and what else is to be said of it.
fn show_sized(rt: &impl Print, image: &[u8], remark: &str) -> io::Result<()> {
    show(rt, format_args!("{} bytes{remark}", image.len()), image)
}

// Shows each case of a group, under the group's heading.
fn show_group(
    rt: &(impl Print + AllocGlobal),
    heading: &str,
    front: &str,
    cases: &[Case],
) -> io::Result<()> {
    println!(rt; "{heading}")?;
    for (label, rest) in cases {
        show(rt, label, &images::joined(rt.alloc(), front, rest)?)?;
    }
    Ok(())
}

// Shows the groups of short images.
fn show_groups(rt: &(impl Print + AllocGlobal)) -> io::Result<()> {
    for (heading, front, cases) in cases::GROUPS {
        show_group(rt, heading, front, cases)?;
    }
    Ok(())
}

// Shows the front of the ring's image, of each length.
fn show_fronts(rt: &(impl Print + AllocGlobal)) -> io::Result<()> {
    println!(rt; "The front of the ring")?;
    let image = images::joined(rt.alloc(), cases::RING, "")?;
    for length in 0..=image.len() {
        show_sized(rt, &image[..length], "")?;
    }
    Ok(())
}

// Shows the ring's image with other bytes from a place in one of its fields on.
fn show_edit(
    rt: &(impl Print + AllocGlobal),
    field: u8,
    part: u8,
    bytes: &[u8],
    what: &str,
) -> io::Result<()> {
    let mut image = images::joined(rt.alloc(), cases::RING, "")?;
    images::overwrite(&mut image, usize::from(field) + usize::from(part), bytes);
    show(rt, format_args!("field at {field}, {what}"), &image)
}

// Shows the ring's image with a bit of one field's tag or length the other way round.
fn show_headers(rt: &(impl Print + AllocGlobal)) -> io::Result<()> {
    println!(rt; "The ring with one header changed")?;
    for (field, tag, length) in RING_FIELDS {
        show_edit(rt, field, 0, &[tag ^ 4], "tag flipped")?;
        show_edit(rt, field, 2, &[length ^ 1], "length flipped")?;
        show_edit(rt, field, 1, &[1], "length raised by 256")?;
    }
    Ok(())
}

// Shows the ring's image with one count that no note may have.
fn show_counts(rt: &(impl Print + AllocGlobal)) -> io::Result<()> {
    println!(rt; "The ring with one count changed")?;
    for field in RING_NOTES {
        show_edit(rt, field, 5, &[0x7f, 0xff], "counter pinned")?;
        show_edit(rt, field, 5, &[0, 0], "count 0")?;
    }
    Ok(())
}

// Shows images with as many names as there may be, with one more, and with a name whose length takes two bytes.
fn show_names(rt: &(impl Print + AllocGlobal)) -> io::Result<()> {
    println!(rt; "Many names and a long one")?;
    let mut image = images::named(rt.alloc(), 64)?;
    show(rt, "64 names", &image)?;
    images::push_field(&mut image, 2, b"00")?;
    show(rt, "64 names and the first again", &image)?;
    images::overwrite(&mut image, 327, &[31]);
    show(rt, "64 names and one with byte 31", &image)?;
    images::overwrite(&mut image, 326, &[0]);
    show(rt, "64 names and one of no bytes", &image)?;
    show(rt, "65 names", &images::named(rt.alloc(), 65)?)?;
    let mut image = images::joined(rt.alloc(), cases::LIMIT, "")?;
    images::push_field(&mut image, 2, &[b'P'; 257])?;
    show(rt, "a name of 257 bytes", &image)
}

// Shows images as long as they may be, and one byte longer.
fn show_long(rt: &(impl Print + AllocGlobal)) -> io::Result<()> {
    println!(rt; "Long images")?;
    show_sized(rt, &images::long(rt.alloc(), b"Pump 2")?, "")?;
    let mut image = images::long(rt.alloc(), b"Pump 22")?;
    show_sized(rt, &image, "")?;
    images::overwrite(&mut image, 0, &[9]);
    show_sized(rt, &image, ", the first of them 9")
}

// Shows images with as many pairs as there may be, and with one more.
fn show_pairs(rt: &(impl Print + AllocGlobal)) -> io::Result<()> {
    println!(rt; "Many pairs")?;
    let mut image = images::paired(rt.alloc(), 512)?;
    show(rt, "512 pairs", &image)?;
    images::push_note(&mut image, 0, 32)?;
    show(rt, "512 pairs and the first again", &image)?;
    show(rt, "513 pairs", &images::paired(rt.alloc(), 513)?)
}

// Shows every kind of image in turn.
fn main(rt: HostRuntime) -> io::Result<()> {
    show_groups(&rt)?;
    show_fronts(&rt)?;
    show_headers(&rt)?;
    show_counts(&rt)?;
    show_names(&rt)?;
    show_long(&rt)?;
    show_pairs(&rt)
}
