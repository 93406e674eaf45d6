// Tests of the sheet's calls, at the edges of their rules.
#![tactic(auto)]

#[cfg(test)]
mod tests {
    use sheet::{Fault, Row, Sheet};
    use std::test::Fail;

    // The number of a refusal, or 0 where there was none.
    fn number_of(answer: Result<(), Fault>) -> u8 {
        answer.err().map_or(0, |fault| fault.number())
    }

    // The last row, if there is any.
    fn last(sheet: &Sheet) -> Option<Row> {
        sheet.rows().last().copied()
    }

    // Notes count 1 for the first pairs of 64 alarms, row by row of the square, until 512 stand.
    fn filled() -> Sheet {
        let mut sheet = Sheet::new();
        let _ = sheet.open(64, 8);
        for first in 0..9 {
            for second in 0..64 {
                if sheet.rows().len() < 512 {
                    let _ = sheet.note(first, second, 1);
                }
            }
        }
        sheet
    }

    #[test]
    fn counts_up_to_the_largest_true_one(rt: HostRuntime) {
        let mut sheet = Sheet::new();
        assert_eq!(rt; number_of(sheet.open(2, 1)), 0);
        assert_eq!(rt; number_of(sheet.note(0, 1, 32766)), 0);
        assert_eq!(rt; number_of(sheet.note(0, 1, 1)), 17);
        assert_eq!(rt; number_of(sheet.note(1, 0, 32767)), 15);
        assert_eq!(rt; number_of(sheet.note(1, 0, u32::MAX)), 15);
        assert_eq!(rt;
            last(&sheet),
            Some(Row {
                first: 0,
                second: 1,
                count: 32766,
            })
        );
        assert_eq!(rt; sheet.rows().len(), 1);
    }

    #[test]
    fn raises_in_steps_to_the_largest_true_count(rt: HostRuntime) {
        let mut sheet = Sheet::new();
        assert_eq!(rt; number_of(sheet.open(2, 1)), 0);
        assert_eq!(rt; number_of(sheet.note(0, 1, 16383)), 0);
        assert_eq!(rt; number_of(sheet.note(0, 1, 16384)), 17);
        assert_eq!(rt; number_of(sheet.note(0, 1, 16383)), 0);
        assert_eq!(rt; sheet.standing(0).ok(), Some((32766, 0)));
        assert_eq!(rt; sheet.standing(1).ok(), Some((0, 32766)));
    }

    #[test]
    fn holds_512_rows_and_uses_the_last_again(rt: HostRuntime) -> Result<(), Fail> {
        let mut sheet = filled();
        assert_eq!(rt; sheet.rows().len(), 512);
        let Some(row) = last(&sheet) else {
            return Err(Fail::new("no row"));
        };
        assert_eq!(rt; number_of(sheet.note(63, 0, 1)), 18);
        assert_eq!(rt; number_of(sheet.note(row.first, row.second, 1)), 0);
        assert_eq!(rt; number_of(sheet.strike(0, 1)), 0);
        assert_eq!(rt; sheet.rows().len(), 511);
        assert_eq!(rt;
            last(&sheet),
            Some(Row {
                first: row.first,
                second: row.second,
                count: 2,
            })
        );
        assert_eq!(rt; number_of(sheet.note(63, 0, 7)), 0);
        assert_eq!(rt; sheet.rows().len(), 512);
        assert_eq!(rt;
            last(&sheet),
            Some(Row {
                first: 63,
                second: 0,
                count: 7,
            })
        );
        assert_eq!(rt; number_of(sheet.note(0, 1, 1)), 18);
        Ok(())
    }

    #[test]
    fn strikes_and_notes_again(rt: HostRuntime) {
        let mut sheet = Sheet::new();
        assert_eq!(rt; number_of(sheet.open(3, 2)), 0);
        assert_eq!(rt; number_of(sheet.note(0, 1, 5)), 0);
        assert_eq!(rt; number_of(sheet.note(1, 2, 4)), 0);
        assert_eq!(rt; number_of(sheet.note(2, 0, 1)), 0);
        assert_eq!(rt; number_of(sheet.strike(0, 1)), 0);
        assert_eq!(rt; number_of(sheet.note(0, 1, 6)), 0);
        let want = [
            Row {
                first: 1,
                second: 2,
                count: 4,
            },
            Row {
                first: 2,
                second: 0,
                count: 1,
            },
            Row {
                first: 0,
                second: 1,
                count: 6,
            },
        ];
        assert!(rt; sheet.rows() == want.as_slice());
        assert_eq!(rt; sheet.standing(0).ok(), Some((6, 1)));
    }

    #[test]
    fn refuses_by_number(rt: HostRuntime) {
        let mut sheet = Sheet::new();
        assert_eq!(rt; number_of(sheet.open(0, 9)), 10);
        assert_eq!(rt; number_of(sheet.open(65, 1)), 10);
        assert_eq!(rt; number_of(sheet.open(1, 0)), 11);
        assert_eq!(rt; number_of(sheet.open(64, 9)), 11);
        assert_eq!(rt; number_of(sheet.open(64, 8)), 0);
        assert_eq!(rt; number_of(sheet.confine(0)), 11);
        assert_eq!(rt; number_of(sheet.confine(9)), 11);
        assert_eq!(rt; number_of(sheet.note(64, 64, 0)), 12);
        assert_eq!(rt; number_of(sheet.note(0, 64, 1)), 12);
        assert_eq!(rt; number_of(sheet.note(63, 63, 0)), 13);
        assert_eq!(rt; number_of(sheet.note(63, 0, 0)), 14);
        assert_eq!(rt; number_of(sheet.note(63, 0, 32767)), 15);
        assert_eq!(rt; number_of(sheet.strike(0, 64)), 12);
        assert_eq!(rt; number_of(sheet.strike(0, 0)), 13);
        assert_eq!(rt; number_of(sheet.strike(0, 63)), 16);
    }

    #[test]
    fn opens_anew_and_confines(rt: HostRuntime) {
        let mut sheet = Sheet::new();
        assert_eq!(rt;
            (sheet.alarms(), sheet.limit(), sheet.rows().len()),
            (1, 1, 0)
        );
        assert_eq!(rt; number_of(sheet.open(3, 8)), 0);
        assert_eq!(rt; number_of(sheet.note(0, 2, 9)), 0);
        assert_eq!(rt; number_of(sheet.confine(2)), 0);
        assert_eq!(rt;
            (sheet.alarms(), sheet.limit(), sheet.rows().len()),
            (3, 2, 1)
        );
        assert_eq!(rt; number_of(sheet.open(2, 4)), 0);
        assert_eq!(rt;
            (sheet.alarms(), sheet.limit(), sheet.rows().len()),
            (2, 4, 0)
        );
        assert!(rt; matches!(sheet.standing(2), Err(Fault::UnknownAlarm)));
        assert_eq!(rt; sheet.standing(0).ok(), Some((0, 0)));
    }
}
