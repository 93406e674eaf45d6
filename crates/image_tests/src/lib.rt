// Tests of loading an image, of the names in it, and of the line that tells a refusal.
#![tactic(auto)]

#[cfg(test)]
mod tests {
    use image::{Image, Name, load};
    use image_format::{ImageCause, ImageFault};
    use listing::complain;
    use sheet::{Fault, Row, Sheet};
    use std::test::Fail;

    // Limit 3, the names P1, P2 and P3, and notes of the ring.
    const RING: [u8; 40] = *b"\x01\0\x01\x03\x02\0\x02P1\x02\0\x02P2\x02\0\x02P3\
        \x03\0\x04\0\x01\0\x05\x03\0\x04\x01\x02\0\x04\x03\0\x04\x02\0\0\x01";

    // The ring's image with its last counter pinned.
    fn pinned() -> [u8; 40] {
        let mut image = RING;
        image[38] = 0x7f;
        image[39] = 0xff;
        image
    }

    // Why the pinned image is refused, and where.
    const PINNED: ImageFault = ImageFault {
        cause: ImageCause::Sheet(Fault::PinnedCount),
        place: 33,
    };

    // A row.
    fn row(first: u8, second: u8, count: u16) -> Row {
        Row {
            first,
            second,
            count,
        }
    }

    // A sheet of four alarms and limit 5 with two rows.
    fn held() -> Result<Sheet, Fault> {
        let mut sheet = Sheet::new();
        sheet.open(4, 5)?;
        sheet.note(3, 1, 9)?;
        sheet.note(0, 1, 32766)?;
        Ok(sheet)
    }

    // What is answered for the name of an alarm.
    fn name(image: &[u8], alarm: u8) -> Result<Name<'_>, ImageFault> {
        Image::over(image).name(alarm)
    }

    #[test]
    fn loads_the_ring(rt: HostRuntime) -> Result<(), Fail> {
        let mut sheet = held()?;
        assert_eq!(rt; load(&RING, &mut sheet), Ok(3));
        assert_eq!(rt; (sheet.alarms(), sheet.limit()), (3, 3));
        let want = [row(0, 1, 5), row(1, 2, 4), row(2, 0, 1)];
        assert_eq!(rt; sheet.rows(), want.as_slice());
        Ok(())
    }

    #[test]
    fn keeps_the_sheet_where_a_later_note_is_refused(rt: HostRuntime) -> Result<(), Fail> {
        let mut sheet = held()?;
        assert_eq!(rt; load(&pinned(), &mut sheet), Err(PINNED));
        assert_eq!(rt; (sheet.alarms(), sheet.limit()), (4, 5));
        let want = [row(3, 1, 9), row(0, 1, 32766)];
        assert_eq!(rt; sheet.rows(), want.as_slice());
        Ok(())
    }

    #[test]
    fn passes_on_the_fault_of_the_sheet(rt: HostRuntime) {
        assert_eq!(rt; load(&pinned(), &mut Sheet::new()), Err(PINNED));
        assert_eq!(rt; PINNED.number(), 15);
    }

    #[test]
    fn hands_out_each_name(rt: HostRuntime) {
        for (alarm, bytes, place) in [(0, b"P1", 7), (1, b"P2", 12), (2, b"P3", 17)] {
            assert_eq!(rt; name(&RING, alarm), Ok(Name { bytes, place }));
        }
    }

    #[test]
    fn refuses_the_name_of_an_unknown_alarm(rt: HostRuntime) {
        let unknown = ImageCause::Sheet(Fault::UnknownAlarm).at(0);
        assert_eq!(rt; unknown.number(), 12);
        assert_eq!(rt; name(&RING, 3), Err(unknown));
        assert_eq!(rt; name(&RING, 255), Err(unknown));
    }

    #[test]
    fn refuses_names_of_a_broken_image(rt: HostRuntime) {
        for alarm in [0, 2, 3] {
            assert_eq!(rt; name(&pinned(), alarm), Err(PINNED));
        }
        let cut = ImageCause::CutShort.at(33);
        assert_eq!(rt; name(&RING[..39], 0), Err(cut));
        assert_eq!(rt; name(&RING[..39], 255), Err(cut));
    }

    #[test]
    fn complains_into_an_exact_buffer(rt: HostRuntime) {
        let mut out = [b'x'; 17];
        assert_eq!(rt; complain(&PINNED, &mut out), Ok(17));
        assert!(rt; &out == b"refused 15 at 33\n");
    }

    #[test]
    fn refuses_a_buffer_that_is_one_byte_short(rt: HostRuntime) {
        let short = ImageCause::ShortBuffer.at(0);
        let mut out = [b'x'; 16];
        assert_eq!(rt; complain(&PINNED, &mut out), Err(short));
        assert!(rt; &out == b"xxxxxxxxxxxxxxxx");
        assert_eq!(rt; complain(&PINNED, &mut []), Err(short));
        assert_eq!(rt; short.number(), 40);
    }

    #[test]
    fn leaves_later_bytes_of_the_buffer(rt: HostRuntime) {
        let mut out = [b'x'; 20];
        assert_eq!(rt; complain(&PINNED, &mut out), Ok(17));
        assert!(rt; &out == b"refused 15 at 33\nxxx");
    }

    #[test]
    fn complains_of_the_shortest_and_the_longest_place(rt: HostRuntime) {
        let mut fault = ImageCause::TooLong.at(0);
        let mut out = [b'x'; 36];
        assert_eq!(rt; complain(&fault, &mut out), Ok(16));
        assert!(rt; &out == b"refused 30 at 0\nxxxxxxxxxxxxxxxxxxxx");
        fault.place = 16384;
        assert_eq!(rt; complain(&fault, &mut out), Ok(20));
        assert!(rt; &out == b"refused 30 at 16384\nxxxxxxxxxxxxxxxx");
        fault.place = usize::MAX;
        assert_eq!(rt; complain(&fault, &mut out), Ok(35));
        assert!(rt; &out == b"refused 30 at 18446744073709551615\nx");
    }
}
