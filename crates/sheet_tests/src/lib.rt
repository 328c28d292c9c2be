#![tactic(auto)]

#[cfg(test)]
mod tests {
    use code::fault::CodeFault;
    use code::table::{Edge, Entry};
    use sheet::fault::{Layer, Place, SheetFault, Spot};
    use sheet::read::{Numbers, read};
    use std::process::Abort;
    use std::test::Fail;

    const SHEET_A: &[u8] =
        b"C\t3\t4\t2\t-\t20\nE\t0\t0\t1\nE\t0\t1\t1\nE\t0\t2\t1\nE\t1\t1\t1\nE\t1\t2\t2\nE\t1\t3\t1\nK\t0\t0\nK\t1\t0\nK\t1\t1\nK\t2\t0\nK\t2\t1\nK\t3\t1\nZ\n";

    const UNTOUCHED: Edge = Edge {
        row: 7,
        column: 7,
        coefficient: 7,
    };

    // The fault of a sheet, read into tables of six.
    fn fault_of(text: &[u8]) -> Result<SheetFault, Fail> {
        let mut edges = [UNTOUCHED; 6];
        let mut entries = [Entry { column: 7, row: 7 }; 6];
        read(text, &mut edges, &mut entries)
            .err()
            .ok_or_else(|| Fail::new("the sheet is read"))
    }

    // Stays (plain): the number that a report names is what is tested here, so it is written as a number.
    fn refused(
        rt: &impl Abort,
        text: &[u8],
        number: u8,
        layer: Layer,
        line: usize,
        byte: usize,
    ) -> Result<(), Fail> {
        let fault = fault_of(text)?;
        assert_eq!(rt; fault.number(), number);
        assert_eq!(rt; fault.layer(), layer);
        assert_eq!(rt; fault.spot(), Spot::Text(Place { line, byte }));
        Ok(())
    }

    fn not_admitted(
        rt: &impl Abort,
        text: &[u8],
        number: u8,
        fault: CodeFault,
        position: usize,
    ) -> Result<(), Fail> {
        let told = fault_of(text)?;
        assert_eq!(rt; told, SheetFault::Refused(fault));
        assert_eq!(rt; told.number(), number);
        assert_eq!(rt; told.layer(), Layer::Code);
        assert_eq!(rt; told.spot(), Spot::Table(position));
        Ok(())
    }

    #[test]
    fn reads_a_sheet(rt: HostRuntime) -> Result<(), Fail> {
        let mut edges = [UNTOUCHED; 7];
        let mut entries = [Entry { column: 7, row: 7 }; 6];
        let numbers = read(SHEET_A, &mut edges, &mut entries)?;
        assert_eq!(rt;
            numbers,
            Numbers {
                order: 3,
                columns: 4,
                rows: 2,
                edges: 6,
                ceiling: 31,
                limit: 20,
            }
        );
        assert_eq!(rt;
            edges[4],
            Edge {
                row: 1,
                column: 2,
                coefficient: 2,
            }
        );
        assert_eq!(rt; edges[6], UNTOUCHED);
        assert_eq!(rt; entries[5], Entry { column: 3, row: 1 });
        Ok(())
    }

    #[test]
    fn keeps_what_came_before_a_fault(rt: HostRuntime) {
        let mut edges = [UNTOUCHED; 6];
        let mut entries = [Entry { column: 7, row: 7 }; 6];
        let answer = read(
            b"C\t3\t4\t2\t31\t20\nE\t0\t1\t2\nE\t2\t0\t1\n",
            &mut edges,
            &mut entries,
        );
        assert_eq!(rt;
            answer,
            Err(SheetFault::OutOfRange(Place { line: 3, byte: 24 }))
        );
        assert_eq!(rt;
            edges[0],
            Edge {
                row: 0,
                column: 1,
                coefficient: 2,
            }
        );
        assert_eq!(rt; edges[1], UNTOUCHED);
        assert_eq!(rt; entries[0], Entry { column: 7, row: 7 });
    }

    #[test]
    fn tells_where_the_text_ends(rt: HostRuntime) -> Result<(), Fail> {
        refused(&rt, b"", 16, Layer::Text, 1, 0)?;
        refused(&rt, b"C\t3\t4\t2\t-\t20", 16, Layer::Text, 1, 0)?;
        refused(&rt, b"C\t3\t4\t2\t-\t20\n", 16, Layer::Text, 2, 13)?;
        refused(
            &rt,
            b"C\t3\t4\t2\t-\t20\nE\t0\t0\t1\nK\t0\t0\nZ\nZ",
            16,
            Layer::Text,
            5,
            29,
        )
    }

    #[test]
    fn tells_what_is_not_due(rt: HostRuntime) -> Result<(), Fail> {
        refused(&rt, b"E\t0\t0\t1\n", 10, Layer::Text, 1, 0)?;
        refused(&rt, b"C\t3\t4\t2\t-\n", 10, Layer::Text, 1, 0)?;
        refused(&rt, b"C\t3\t4\t2\t-\t20\nK\t0\t0\n", 10, Layer::Text, 2, 13)?;
        refused(
            &rt,
            b"C\t3\t4\t2\t-\t20\nE\t0\t0\t1\nZ\n",
            10,
            Layer::Text,
            3,
            21,
        )
    }

    #[test]
    fn tells_what_is_not_written(rt: HostRuntime) -> Result<(), Fail> {
        refused(&rt, b"C\t3\t4\t02\t-\t20\n", 11, Layer::Text, 1, 6)?;
        refused(&rt, b"C\t3\t4\t-\t-\t20\n", 11, Layer::Text, 1, 6)?;
        refused(
            &rt,
            b"C\t3\t4\t2\t-\t20\nE\t9\t00000\t1\n",
            11,
            Layer::Text,
            2,
            17,
        )?;
        refused(&rt, b"C\t3\t4\t2\t-\t\n", 11, Layer::Text, 1, 10)
    }

    #[test]
    fn tells_what_is_out_of_range(rt: HostRuntime) -> Result<(), Fail> {
        refused(&rt, b"C\t65\t4\t2\t-\t20\n", 12, Layer::Record, 1, 2)?;
        refused(&rt, b"C\t3\t4\t4\t-\t20\n", 12, Layer::Record, 1, 6)?;
        refused(&rt, b"C\t3\t4\t2\t1024\t20\n", 12, Layer::Record, 1, 8)?;
        refused(
            &rt,
            b"C\t3\t4\t2\t-\t20\nE\t0\t0\t3\n",
            12,
            Layer::Record,
            2,
            19,
        )?;
        refused(
            &rt,
            b"C\t3\t4\t2\t-\t20\nE\t0\t0\t1\nK\t4\t0\n",
            12,
            Layer::Record,
            3,
            23,
        )
    }

    #[test]
    fn tells_a_full_table(rt: HostRuntime) {
        let mut edges = [UNTOUCHED; 1];
        let mut entries = [Entry { column: 7, row: 7 }; 0];
        let answer = read(SHEET_A, &mut edges, &mut entries);
        assert_eq!(rt; answer, Err(SheetFault::Full(Place { line: 3, byte: 21 })));
        assert_eq!(rt; SheetFault::Full(Place { line: 3, byte: 21 }).number(), 17);
        assert_eq!(rt;
            SheetFault::Full(Place { line: 3, byte: 21 }).layer(),
            Layer::Record
        );
        assert_eq!(rt;
            edges[0],
            Edge {
                row: 0,
                column: 0,
                coefficient: 1,
            }
        );
    }

    #[test]
    fn tells_why_a_code_is_not_admitted(rt: HostRuntime) -> Result<(), Fail> {
        not_admitted(
            &rt,
            b"C\t3\t3\t1\t-\t20\nE\t0\t1\t1\nE\t0\t0\t1\nK\t0\t0\nZ\n",
            13,
            CodeFault::NotRising(1),
            1,
        )?;
        not_admitted(
            &rt,
            b"C\t3\t3\t1\t-\t20\nE\t0\t0\t1\nK\t0\t0\nZ\n",
            14,
            CodeFault::Degree(0),
            0,
        )?;
        not_admitted(
            &rt,
            b"C\t3\t2\t1\t-\t20\nE\t0\t0\t1\nE\t0\t1\t1\nK\t0\t0\nZ\n",
            15,
            CodeFault::Unmatched(1),
            1,
        )
    }
}
