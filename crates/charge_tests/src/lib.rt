// Tests of the charges, of fit and of price, at the edges of their rules.
#![tactic(auto)]

#[cfg(test)]
mod tests {
    use charge::{Charge, Doubling, OwnRow, Plain, Steep, price};
    use sheet::{Fault, Sheet};

    // What a charge answers for 0 to 8.
    fn answers<C: Charge>(charge: &C) -> [u8; 9] {
        [0, 1, 2, 3, 4, 5, 6, 7, 8].map(|d| charge.at(d))
    }

    // The number of a refusal, or 0 where there was none.
    fn number_of<T: Drop>(answer: Result<T, Fault>) -> u8 {
        answer.err().map_or(0, |fault| fault.number())
    }

    // A sheet with these alarms, limit and rows. No note for it is refused.
    fn sheet_of(alarms: u8, limit: u8, rows: &[(u8, u8, u32)]) -> Sheet {
        let mut sheet = Sheet::new();
        let _ = sheet.open(alarms, limit);
        for &(first, second, count) in rows {
            let _ = sheet.note(first, second, count);
        }
        sheet
    }

    // 512 rows of the largest count, from alarms below 16 to alarms from 32 on.
    fn largest() -> Sheet {
        let mut sheet = Sheet::new();
        let _ = sheet.open(64, 8);
        for first in 0..16 {
            for second in 32..64 {
                let _ = sheet.note(first, second, 32766);
            }
        }
        sheet
    }

    // The alarms below 16 on level 7, and the others on level 0.
    fn firsts_lowest() -> [u8; 64] {
        let mut levels = [0; 64];
        levels[..16].fill(7);
        levels
    }

    #[test]
    fn charges_answer_their_lists(rt: HostRuntime) {
        assert_eq!(rt; answers(&Plain), [1, 2, 3, 4, 5, 6, 7, 8, 8]);
        assert_eq!(rt; answers(&Doubling), [1, 2, 4, 8, 16, 32, 64, 128, 128]);
        assert_eq!(rt; answers(&Steep), [1, 3, 6, 10, 15, 21, 28, 36, 36]);
        assert_eq!(rt; answers(&OwnRow::new()), [1, 2, 3, 4, 5, 6, 7, 8, 8]);
        assert_eq!(rt; Steep.at(255), 36);
    }

    #[test]
    fn fit_takes_a_convex_row(rt: HostRuntime) {
        let mut own = OwnRow::new();
        assert_eq!(rt; number_of(own.fit(&[0, 0, 0, 0, 0, 0, 0, 200])), 0);
        assert_eq!(rt; answers(&own), [0, 0, 0, 0, 0, 0, 0, 200, 200]);
        assert_eq!(rt;
            number_of(own.fit(&[25, 50, 75, 100, 125, 150, 175, 200])),
            0
        );
        assert_eq!(rt; answers(&own), [25, 50, 75, 100, 125, 150, 175, 200, 200]);
    }

    #[test]
    fn fit_refuses_in_order_and_keeps_the_row(rt: HostRuntime) {
        let mut own = OwnRow::new();
        assert_eq!(rt; number_of(own.fit(&[])), 22);
        assert_eq!(rt; number_of(own.fit(&[5, 4, 3, 2, 1, 0, 201])), 22);
        assert_eq!(rt; number_of(own.fit(&[0, 0, 0, 0, 0, 0, 0, 0, 0])), 22);
        assert_eq!(rt; number_of(own.fit(&[0, 0, 0, 0, 0, 0, 0, 201])), 23);
        assert_eq!(rt; number_of(own.fit(&[65535, 1, 2, 3, 4, 5, 6, 7])), 23);
        assert_eq!(rt; number_of(own.fit(&[1, 1, 2, 3, 4, 5, 6, 7])), 24);
        assert_eq!(rt; number_of(own.fit(&[0, 1, 2, 3, 4, 5, 6, 6])), 24);
        assert_eq!(rt; answers(&own), [1, 2, 3, 4, 5, 6, 7, 8, 8]);
    }

    #[test]
    fn price_adds_up_the_worked_examples(rt: HostRuntime) {
        let ring = [(0, 1, 5), (1, 2, 4), (2, 0, 1)];
        let sheet = sheet_of(3, 3, &ring);
        assert_eq!(rt; price(&sheet, &Plain, &[0, 1, 2]).ok(), Some(3));
        assert_eq!(rt; price(&sheet, &Steep, &[0, 1, 2]).ok(), Some(6));
        assert_eq!(rt; price(&sheet, &Doubling, &[0, 1, 2]).ok(), Some(4));
        assert_eq!(rt; price(&sheet, &Plain, &[2, 1, 0]).ok(), Some(18));
        assert_eq!(rt; price(&sheet, &Plain, &[0, 0, 0]).ok(), Some(10));
        let heavier = sheet_of(3, 3, &[(0, 1, 5), (1, 2, 4), (2, 0, 4)]);
        assert_eq!(rt; price(&heavier, &Plain, &[0, 1, 0]).ok(), Some(12));
        assert_eq!(rt; price(&heavier, &Plain, &[0, 1, 1]).ok(), Some(12));
        let chain = sheet_of(3, 2, &[(0, 1, 1), (1, 2, 9)]);
        assert_eq!(rt; price(&chain, &Plain, &[0, 0, 1]).ok(), Some(1));
        assert_eq!(rt; price(&chain, &Plain, &[0, 1, 1]).ok(), Some(9));
    }

    #[test]
    fn price_refuses_short_levels_before_levels_beyond_the_limit(rt: HostRuntime) {
        let sheet = sheet_of(3, 2, &[(0, 1, 5), (2, 0, 1)]);
        assert_eq!(rt; number_of(price(&sheet, &Plain, &[0, 2])), 20);
        assert_eq!(rt; number_of(price(&sheet, &Plain, &[])), 20);
        assert_eq!(rt; number_of(price(&sheet, &Plain, &[0, 1, 2])), 26);
        assert_eq!(rt; number_of(price(&sheet, &Plain, &[2, 0, 0])), 26);
        assert_eq!(rt; price(&sheet, &Plain, &[0, 1, 1]).ok(), Some(2));
        assert_eq!(rt; price(&sheet, &Plain, &[0, 1, 1, 255]).ok(), Some(2));
    }

    #[test]
    fn price_holds_the_largest_cost(rt: HostRuntime) {
        let sheet = largest();
        assert_eq!(rt; sheet.rows().len(), 512);
        let mut own = OwnRow::new();
        assert_eq!(rt; number_of(own.fit(&[0, 0, 0, 0, 0, 0, 0, 200])), 0);
        assert_eq!(rt;
            price(&sheet, &own, &firsts_lowest()).ok(),
            Some(3355238400)
        );
        assert_eq!(rt; price(&sheet, &own, &[0; 64]).ok(), Some(0));
    }
}
