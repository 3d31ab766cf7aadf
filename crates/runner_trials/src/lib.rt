//! Scripts whose traces and faults were worked out by hand, run by the crate `runner`.
#![tactic(auto)]

#[cfg(test)]
mod tests {
    use runner::run::run_script;
    use script::faults::Fault;

    // Whether the bytes begin with this trace and hold dots behind it.
    fn holds(bytes: &[u8], trace: &[u8]) -> bool {
        bytes
            .strip_prefix(trace)
            .is_some_and(|rest| rest.iter().all(|byte| *byte == b'.'))
    }

    // A fault's number, record and offset.
    fn shown(fault: Fault) -> (u8, usize, usize) {
        let (_, number) = fault.cause.row();
        (number, fault.record, fault.at)
    }

    // Whether a script, run in the first of these dots, writes exactly this trace, leaves all dots behind it, and ends
    // with this fault: its number, its record and its offset.
    fn fits(
        script: &[u8],
        dots: &mut [u8],
        room: usize,
        trace: &[u8],
        fault: Option<(u8, usize, usize)>,
    ) -> bool {
        let Some(start) = dots.get_mut(..room) else {
            return false;
        };
        let report = run_script(script, start);
        report.fault.map(shown) == fault && report.written == trace.len() && holds(dots, trace)
    }

    // The same of a thousand dots.
    fn gives(script: &[u8], room: usize, trace: &[u8], fault: Option<(u8, usize, usize)>) -> bool {
        let mut dots = [b'.'; 1000];
        fits(script, &mut dots, room, trace, fault)
    }

    // Whether a record ends a script with this fault, at this byte of the record: alone, and behind a step.
    fn ends(record: &[u8], number: u8, at: u8) -> bool {
        let mut script = *b"R,0,,,,,\r\n........................................";
        for (place, byte) in script.iter_mut().skip(10).zip(record) {
            *place = *byte;
        }
        let Some(script) = script.get(..10 + record.len()) else {
            return false;
        };
        let at = usize::from(at);
        gives(record, 48, b"", Some((number, 1, at)))
            && gives(script, 100, b"1,4,,\r\n", Some((number, 2, 10 + at)))
    }

    #[test]
    fn text_faults(rt: HostRuntime) {
        for (record, at) in [
            (b"R\"" as &[u8], 1),
            (b"R, \"0\",,,,,", 3),
            (b"R,0,,,,,x\"", 9),
            (b"\r", 0),
            (b"\rR,0,,,,,\r\n", 0),
            (b"R\r,0,,,,,", 1),
            (b"R,0,,,,,\r", 8),
            (b"R,0,,,,,\r\r\n", 8),
            (b"\n", 0),
            (b"R,0,,,,,\n\r", 8),
            (b"\"R\" ,0,,,,,", 3),
            (b"\"R\"\n", 3),
            (b"\"R\"\r", 3),
            (b"R,0,,,,,\"\"x", 10),
            (b"\"", 0),
            (b"\"\"\"", 0),
            (b"R,\"0,,,,,\r\n", 2),
            (b"R,0,,,,,\"", 8),
        ] {
            assert!(rt; ends(record, 21, at));
        }
    }

    #[test]
    fn no_calls(rt: HostRuntime) {
        for (record, number) in [
            (b"\r\n" as &[u8], 22),
            (b"\r\n\r\n", 22),
            (b"\r\nR,0,,,,,", 22),
            (b"\"\"", 22),
            (b",", 22),
            (b"R,0,,,,", 22),
            (b"R,0,,,,,,", 22),
            (b"\"R,0,,,,,\"", 22),
            (b",,,,,,", 23),
            (b"\"\",0,,,,,", 23),
            (b"r,0,,,,,", 23),
            (b"RR,0,,,,,", 23),
            (b" R,0,,,,,", 23),
            (b"A,0,,,,,", 23),
            (b"\0,0,,,,,", 23),
            (b"\xff,0,,,,,", 23),
            (b"\"\"\"\",0,,,,,", 23),
            (b"\"R\r\n\",0,,,,,", 23),
        ] {
            assert!(rt; ends(record, number, 0));
        }
    }

    #[test]
    fn bad_members(rt: HostRuntime) {
        for record in [
            b"R,,,,,," as &[u8],
            b"R,\"\",,,,,",
            b"R,00,,,,,",
            b"R,01,,,,,",
            b"R,+1,,,,,",
            b"R,-0,,,,,",
            b"R, 1,,,,,",
            b"R,1 ,,,,,",
            b"R,/,,,,,",
            b"R,:,,,,,",
            b"R,\0,,,,,",
            b"R,\xff,,,,,",
            b"R,\"\"\"\",,,,,",
            b"R,\"1,1\",,,,,",
            b"R,256,,,,,",
            b"R,65536,,,,,",
            b"R,4294967296,,,,,",
            b"R,1000000000000000,,,,,",
            b"R,18446744073709551616,,,,,",
            b"O,256,9,,1,,",
            b"S,256,,1,1,0,0",
            b"H,256,1,,,,",
            b"G,256,1,,,,",
            b"T,256,1,,,,",
        ] {
            assert!(rt; ends(record, 24, 2));
        }
    }

    #[test]
    fn bad_numbers(rt: HostRuntime) {
        for (record, at) in [
            (b"O,1,,,1,," as &[u8], 4),
            (b"O,1,1000000000000000,,1,,", 4),
            (b"H,0,01,,,,", 4),
            (b"H,0,1000000000000000,,,,", 4),
            (b"G,0,+1,,,,", 4),
            (b"G,0,1000000000000000,,,,", 4),
            (b"T,0, 1,,,,", 4),
            (b"T,0,18446744073709551617,,,,", 4),
            (b"S,0,,,1,0,0", 5),
            (b"S,0,,01,1,0,0", 5),
            (b"S,0,,65536,1,0,0", 5),
            (b"S,0,,18446744073709551617,1,0,0", 5),
            (b"S,0,,1,,0,0", 7),
            (b"S,0,,1,0,0,0", 7),
            (b"S,0,,1,5,0,0", 7),
            (b"S,0,,1,01,0,0", 7),
            (b"S,0,,1,257,0,0", 7),
            (b"O,1,9,,,,", 7),
            (b"O,1,9,,0,,", 7),
            (b"O,1,9,,4,,", 7),
            (b"O,17,9,,4,,", 8),
            (b"O,1,9,,259,,", 7),
            (b"S,0,,1,1,,0", 9),
            (b"S,0,,1,1,256,0", 9),
            (b"S,0,,1,2,256,0", 9),
            (b"S,0,,1,3,256,0", 9),
            (b"S,0,,1,4,,", 9),
            (b"S,0,,1,4,4294967296,", 9),
            (b"S,0,,1,1,0,", 11),
            (b"S,0,,1,1,0,4294967296", 11),
            (b"S,0,,1,2,0,00", 11),
            (b"S,0,,1,2,0,4294967296", 11),
            (b"S,0,,1,3,0,", 11),
            (b"S,0,,1,3,0,256", 11),
            (b"\"S\",\"0\",\"\",\"1\",\"1\",\"0\",\"\"", 23),
        ] {
            assert!(rt; ends(record, 24, at));
        }
    }

    #[test]
    fn unused_fields(rt: HostRuntime) {
        for (record, at) in [
            (b"O,1,9,0,1,," as &[u8], 6),
            (b"O,1,9,,1,0,", 9),
            (b"O,1,9,,1,,0", 10),
            (b"S,0,0,1,1,0,0", 4),
            (b"S,0,,1,4,7,0", 11),
            (b"\"S\",\"0\",\"\",\"1\",\"4\",\"7\",\"0\"", 23),
            (b"H,0,1,1,,,", 6),
            (b"H,0,1,,1,,", 7),
            (b"H,0,1,,,1,", 8),
            (b"H,0,1,,,,1", 9),
            (b"G,0,1,1,,,", 6),
            (b"G,0,1,,1,,", 7),
            (b"G,0,1,,,1,", 8),
            (b"G,0,1,,,,1", 9),
            (b"T,0,1,1,,,", 6),
            (b"T,0,1,,1,,", 7),
            (b"T,0,1,,,1,", 8),
            (b"T,0,1,,,,1", 9),
            (b"R,0,1,,,,", 4),
            (b"R,0,,1,,,", 5),
            (b"R,0,,,1,,", 6),
            (b"R,0,,,,1,", 7),
            (b"R,0,,,,,1", 8),
            (b"R,0,,,,, ", 8),
            (b"R,0,,,,,\0", 8),
            (b"R,0,,,,,\xff", 8),
            (b"R,0,,,,,\"\"\"\"", 8),
        ] {
            assert!(rt; ends(record, 25, at));
        }
    }

    #[test]
    fn first_check_counts(rt: HostRuntime) {
        for (record, number, at) in [
            (b"x,y\"" as &[u8], 21, 3),
            (b",,,,,,,,,\"", 21, 9),
            (b"r,0,,,,,\"", 21, 8),
            (b"R,x,,,,,\r", 21, 8),
            (b"R,0,x,,,,\n", 21, 9),
            (b"r,x", 22, 0),
            (b"R,0\r\n\"", 22, 0),
            (b"r,x,,,,,", 23, 0),
            (b"R,x,,,,,\r\n\"", 24, 2),
            (b"R,x,1,,,,", 24, 2),
            (b"O,x,9,x,1,,", 24, 2),
            (b"H,0,x,x,,,", 24, 4),
            (b"S,0,,x,5,,", 24, 5),
            (b"S,0,,1,5,x,x", 24, 7),
            (b"O,1,9,,x,x,", 24, 7),
            (b"S,0,,1,4,x,x", 24, 9),
            (b"S,0,x,x,1,0,0", 25, 4),
            (b"O,1,9,x,x,,", 25, 6),
        ] {
            assert!(rt; ends(record, number, at));
        }
    }

    #[test]
    fn full_traces(rt: HostRuntime) {
        for (script, room, trace, record, at) in [
            (b"R,0,,,,," as &[u8], 0, b"" as &[u8], 1, 0),
            (b"R,0,,,,,", 47, b"", 1, 0),
            (b"\"", 47, b"", 1, 0),
            (b"R,0,,,,,\r\nR,0,,,,,", 54, b"1,4,,\r\n", 2, 10),
            (b"R,0,,,,,\r\nx", 54, b"1,4,,\r\n", 2, 10),
            (b"O,1,9,,3,,", 54, b"1,0,,\r\n", 0, 10),
            (b"O,1,9,,3,,\r\n", 54, b"1,0,,\r\n", 0, 12),
            (b"O,1,9,,3,,", 55, b"1,0,,\r\nC,0,0,0\r\n", 0, 10),
            (b"O,1,9,,3,,", 56, b"1,0,,\r\nC,0,0,0\r\n", 0, 10),
            (
                b"O,1,9,,3,,",
                81,
                b"1,0,,\r\nC,0,0,0\r\nC,0,1,0\r\nC,0,2,0\r\n",
                0,
                10,
            ),
            (
                b"O,2,9,,3,,",
                90,
                b"1,0,,\r\nC,0,0,0\r\nC,0,1,0\r\nC,0,2,0\r\nC,0,3,0\r\n",
                0,
                10,
            ),
            (
                b"O,2,9,,3,,",
                91,
                b"1,0,,\r\nC,0,0,0\r\nC,0,1,0\r\nC,0,2,0\r\nC,0,3,0\r\nC,1,0,0\r\n",
                0,
                10,
            ),
        ] {
            assert!(rt; gives(script, room, trace, Some((26, record, at))));
        }
    }

    #[test]
    fn sizes(rt: HostRuntime) {
        assert!(rt; gives(&[b','; 65537], 0, b"", Some((20, 0, 0))));
        assert!(rt; gives(&[b','; 65537], 1000, b"", Some((20, 0, 0))));
        assert!(rt; gives(&[b','; 65536], 1000, b"", Some((22, 1, 0))));
        assert!(rt; gives(&[b'"'; 65535], 1000, b"", Some((21, 1, 0))));
        let mut script = [b','; 65536];
        script[65535] = b'"';
        assert!(rt; gives(&script, 1000, b"", Some((21, 1, 65535))));
    }

    #[test]
    fn whole_scripts(rt: HostRuntime) {
        for (script, room, trace) in [
            // Room for one record more, exactly or with a byte to spare.
            (b"" as &[u8], 0, b"" as &[u8]),
            (b"", 1000, b""),
            (b"R,0,,,,,", 48, b"1,4,,\r\n"),
            (b"R,0,,,,,\r\n", 49, b"1,4,,\r\n"),
            (b"R,0,,,,,\r\nR,0,,,,,", 55, b"1,4,,\r\n2,4,,\r\n"),
            (b"R,0,,,,,\r\nR,0,,,,,", 56, b"1,4,,\r\n2,4,,\r\n"),
            (
                b"O,1,9,,3,,",
                82,
                b"1,0,,\r\nC,0,0,0\r\nC,0,1,0\r\nC,0,2,0\r\nC,0,3,0\r\n",
            ),
            // The limits of the format are not those of the line.
            (
                b"O,255,999999999999999,,3,,\r\nS,255,,65535,1,255,4294967295\r\n\
                  S,0,,0,2,255,4294967295\r\nS,0,,0,3,255,255\r\nS,0,,0,4,4294967295,\r\n\
                  H,255,999999999999999,,,,\r\nG,255,999999999999999,,,,\r\n\
                  T,255,999999999999999,,,,\r\nR,255,,,,,\r\nO,0,0,,1,,\r\n",
                1000,
                b"1,2,,\r\n2,4,,\r\n3,4,,\r\n4,4,,\r\n5,4,,\r\n6,4,,\r\n7,4,,\r\n8,4,,\r\n9,4,,\r\n\
                  10,2,,\r\n",
            ),
            // A refused open fixes no kind.
            (
                b"O,17,9,,2,,\r\nO,1,9,,3,,",
                1000,
                b"1,2,,\r\n2,0,,\r\nC,0,0,0\r\nC,0,1,0\r\nC,0,2,0\r\nC,0,3,0\r\n",
            ),
            (
                b"O,1,0,,1,,\r\nO,1,281474976710657,,2,,\r\nO,1,281474976710656,,3,,\r\n",
                1000,
                b"1,3,,\r\n2,3,,\r\n3,0,,\r\nC,0,0,0\r\nC,0,1,0\r\nC,0,2,0\r\nC,0,3,0\r\n",
            ),
            // An open line keeps its kind.
            (
                b"O,1,9,,3,,\r\nO,2,9,,2,,\r\nO,17,0,,1,,",
                1000,
                b"1,0,,\r\n2,1,,\r\n3,1,,\r\nC,0,0,0\r\nC,0,1,0\r\nC,0,2,0\r\nC,0,3,0\r\n",
            ),
            // A run for a member without a station.
            (
                b"R,1,,,,,\r\nR,255,,,,,\r\nO,1,9,,3,,\r\nR,1,,,,,\r\nR,255,,,,,\r\nR,0,,,,,",
                1000,
                b"1,4,,\r\n2,4,,\r\n3,0,,\r\n4,5,,\r\n5,5,,\r\n6,13,,\r\n\
                  C,0,0,0\r\nC,0,1,0\r\nC,0,2,0\r\nC,0,3,0\r\n",
            ),
            // All fields in quotes.
            (
                b"\"O\",\"1\",\"9\",\"\",\"3\",\"\",\"\"\r\n\
                  \"S\",\"0\",\"\",\"1\",\"2\",\"0\",\"5\"\r\n\
                  \"H\",\"0\",\"1\",\"\",\"\",\"\",\"\"\r\n\"G\",\"0\",\"1\",\"\",\"\",\"\",\"\"\r\n\
                  \"T\",\"0\",\"1\",\"\",\"\",\"\",\"\"\r\n\"R\",\"0\",\"\",\"\",\"\",\"\",\"\"",
                1000,
                b"1,0,,\r\n2,0,1,\r\n3,0,1,0\r\n4,0,1,0\r\n5,0,1,0\r\n6,0,1,0\r\n\
                  C,0,0,0\r\nC,0,1,1\r\nC,0,2,0\r\nC,0,3,0\r\n",
            ),
            // The cells of two members, of each kind.
            (
                b"O,2,9,,1,,\r\nS,0,,2,1,7,5\r\nH,1,1,,,,\r\nG,1,1,,,,\r\nT,1,1,,,,\r\nR,1,,,,,",
                1000,
                b"1,0,,\r\n2,0,1,\r\n3,0,1,0\r\n4,0,1,0\r\n5,0,1,0\r\n6,0,1,0\r\n\
                  C,0,0,0\r\nC,0,1,0\r\nC,0,2,0\r\nC,0,3,0\r\nC,0,4,0\r\nC,0,5,0\r\nC,0,6,0\r\n\
                  C,0,7,0\r\n\
                  C,1,0,0\r\nC,1,1,0\r\nC,1,2,0\r\nC,1,3,0\r\nC,1,4,0\r\nC,1,5,0\r\nC,1,6,0\r\n\
                  C,1,7,5\r\n",
            ),
            (
                b"O,2,9,,2,,\r\nS,0,,2,3,7,8\r\nH,1,1,,,,\r\nG,1,1,,,,\r\nT,1,1,,,,\r\nR,1,,,,,",
                1000,
                b"1,0,,\r\n2,0,1,\r\n3,0,1,0\r\n4,0,1,0\r\n5,0,1,0\r\n6,0,1,0\r\n\
                  C,0,0,0\r\nC,0,1,0\r\nC,0,2,0\r\nC,0,3,0\r\nC,0,4,0\r\nC,0,5,0\r\nC,0,6,0\r\n\
                  C,0,7,0\r\nC,0,8,0\r\nC,0,9,0\r\nC,0,10,0\r\nC,0,11,0\r\nC,0,12,0\r\nC,0,13,0\r\n\
                  C,0,14,0\r\nC,0,15,0\r\nC,0,16,0\r\nC,0,17,0\r\nC,0,18,0\r\nC,0,19,0\r\n\
                  C,0,20,0\r\nC,0,21,0\r\nC,0,22,0\r\nC,0,23,0\r\nC,0,24,0\r\n\
                  C,1,0,1\r\nC,1,1,3\r\nC,1,2,7\r\nC,1,3,8\r\nC,1,4,0\r\nC,1,5,0\r\nC,1,6,0\r\n\
                  C,1,7,0\r\nC,1,8,0\r\nC,1,9,0\r\nC,1,10,0\r\nC,1,11,0\r\nC,1,12,0\r\nC,1,13,0\r\n\
                  C,1,14,0\r\nC,1,15,0\r\nC,1,16,0\r\nC,1,17,0\r\nC,1,18,0\r\nC,1,19,0\r\n\
                  C,1,20,0\r\nC,1,21,0\r\nC,1,22,0\r\nC,1,23,0\r\nC,1,24,0\r\n",
            ),
            (
                b"O,2,9,,3,,\r\nS,0,,2,4,7,\r\nH,1,1,,,,\r\nG,1,1,,,,\r\nT,1,1,,,,\r\nR,1,,,,,",
                1000,
                b"1,0,,\r\n2,0,1,\r\n3,0,1,0\r\n4,0,1,0\r\n5,0,1,0\r\n6,0,1,0\r\n\
                  C,0,0,0\r\nC,0,1,0\r\nC,0,2,0\r\nC,0,3,0\r\n\
                  C,1,0,0\r\nC,1,1,0\r\nC,1,2,0\r\nC,1,3,1\r\n",
            ),
        ] {
            assert!(rt; gives(script, room, trace, None));
        }
        // A fault leaves the steps before it, and no cells.
        let script = b"O,1,9,,3,,\r\nR,0,,,,,\r\n\"R,0,,,,,\r\nR,0,,,,,\r\n";
        assert!(rt; gives(script, 1000, b"1,0,,\r\n2,13,,\r\n", Some((21, 3, 22))));
    }
}
