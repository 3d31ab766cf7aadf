//! Records worked out by hand, cut by the crate `record`.
#![tactic(auto)]

#[cfg(test)]
mod tests {
    use record::{Cut, Field, FieldCut, FieldEnd, RecordEnd, TextFault, cut_field, cut_record};

    // Seven places with nothing in them.
    fn places<'a>() -> [Field<'a>; 7] {
        [Field { text: b"", at: 0 }; 7]
    }

    // Whether a field has this text and offset.
    fn is(field: &Field, text: &[u8], at: usize) -> bool {
        *field == Field { text, at }
    }

    // Where the first record of a script has its text fault.
    fn fault(script: &[u8]) -> Option<usize> {
        cut_record(script, 0, &mut places())
            .err()
            .map(|fault| fault.at)
    }

    #[test]
    fn empty_fields(rt: HostRuntime) {
        let mut fields = places();
        let cut = cut_record(b",,\r\nx", 0, &mut fields);
        assert_eq!(rt;
            cut,
            Ok(Cut {
                fields: 3,
                end: RecordEnd::CrLf,
                next: 4,
            })
        );
        assert!(rt; is(&fields[0], b"", 0) && is(&fields[1], b"", 1) && is(&fields[2], b"", 2));
    }

    #[test]
    fn quoted_fields(rt: HostRuntime) {
        let mut fields = places();
        let cut = cut_record(b"\"R\",\"0\",\"\"", 0, &mut fields);
        assert_eq!(rt;
            cut,
            Ok(Cut {
                fields: 3,
                end: RecordEnd::Script,
                next: 10,
            })
        );
        assert!(rt; is(&fields[0], b"R", 0) && is(&fields[1], b"0", 4) && is(&fields[2], b"", 8));
    }

    #[test]
    fn doubled_quotes(rt: HostRuntime) {
        let mut fields = places();
        let cut = cut_record(b"\"a\"\"b\",c", 0, &mut fields);
        assert_eq!(rt;
            cut,
            Ok(Cut {
                fields: 2,
                end: RecordEnd::Script,
                next: 8,
            })
        );
        assert!(rt; is(&fields[0], b"a\"\"b", 0) && is(&fields[1], b"c", 7));
    }

    #[test]
    fn commas_and_line_ends_in_quotes(rt: HostRuntime) {
        let mut fields = places();
        let cut = cut_record(b"\"a,b\",\"c\r\nd\n\"\r\n", 0, &mut fields);
        assert_eq!(rt;
            cut,
            Ok(Cut {
                fields: 2,
                end: RecordEnd::CrLf,
                next: 15,
            })
        );
        assert!(rt; is(&fields[0], b"a,b", 0) && is(&fields[1], b"c\r\nd\n", 6));
    }

    #[test]
    fn line_end_alone(rt: HostRuntime) {
        let mut fields = places();
        let cut = cut_record(b"\r\n\r\nx", 2, &mut fields);
        assert_eq!(rt;
            cut,
            Ok(Cut {
                fields: 1,
                end: RecordEnd::CrLf,
                next: 4,
            })
        );
        assert!(rt; is(&fields[0], b"", 2));
    }

    #[test]
    fn trailing_comma(rt: HostRuntime) {
        let mut fields = places();
        let cut = cut_record(b"a,", 0, &mut fields);
        assert_eq!(rt;
            cut,
            Ok(Cut {
                fields: 2,
                end: RecordEnd::Script,
                next: 2,
            })
        );
        assert!(rt; is(&fields[0], b"a", 0) && is(&fields[1], b"", 2));
    }

    #[test]
    fn any_byte_is_text(rt: HostRuntime) {
        let mut fields = places();
        let cut = cut_record(&[0, 255, 44, 127, 128, 9], 0, &mut fields);
        assert_eq!(rt;
            cut,
            Ok(Cut {
                fields: 2,
                end: RecordEnd::Script,
                next: 6,
            })
        );
        assert!(rt; is(&fields[0], &[0, 255], 0) && is(&fields[1], &[127, 128, 9], 3));
    }

    #[test]
    fn more_fields_than_places(rt: HostRuntime) {
        let mut fields = places();
        let cut = cut_record(b"a,b,c,d,e,f,g,h\r\n", 0, &mut fields);
        assert_eq!(rt;
            cut,
            Ok(Cut {
                fields: 8,
                end: RecordEnd::CrLf,
                next: 17,
            })
        );
        assert!(rt; is(&fields[0], b"a", 0) && is(&fields[6], b"g", 12));
    }

    #[test]
    fn fields_before_a_fault(rt: HostRuntime) {
        let mut fields = places();
        let cut = cut_record(b"a,b,\"cd", 2, &mut fields);
        assert_eq!(rt; cut, Err(TextFault { at: 4 }), "an unclosed quote");
        assert!(rt; is(&fields[0], b"b", 2) && is(&fields[1], b"", 0));
    }

    #[test]
    fn past_the_end(rt: HostRuntime) {
        let mut fields = places();
        let cut = cut_record(b"ab", 9, &mut fields);
        assert_eq!(rt;
            cut,
            Ok(Cut {
                fields: 1,
                end: RecordEnd::Script,
                next: 9,
            })
        );
        assert!(rt; is(&fields[0], b"", 9));
    }

    #[test]
    fn stray_line_ends(rt: HostRuntime) {
        assert_eq!(rt; fault(b"\r"), Some(0), "CR at the very end");
        assert_eq!(rt; fault(b"ab\r"), Some(2), "CR at the very end");
        assert_eq!(rt; fault(b"a\rb"), Some(1), "CR alone");
        assert_eq!(rt; fault(b"a\nb"), Some(1), "LF alone");
        assert_eq!(rt; fault(b"a\r\r\n"), Some(1), "CR before CR LF");
    }

    #[test]
    fn stray_quotes(rt: HostRuntime) {
        assert_eq!(rt; fault(b"ab\"c"), Some(2), "in the middle");
        assert_eq!(rt; fault(b"x, \"a\""), Some(3), "behind a blank");
        assert_eq!(rt;
            fault(b"\"a\"b"),
            Some(3),
            "a byte behind the closing quote"
        );
        assert_eq!(rt;
            fault(b"\"a\"\r"),
            Some(3),
            "CR alone behind the closing quote"
        );
        assert_eq!(rt; fault(b"\"a\"\""), Some(0), "never closed");
    }

    #[test]
    fn one_field(rt: HostRuntime) {
        assert_eq!(rt;
            cut_field(b"x,\"y\"\r\nz", 2),
            Ok(FieldCut {
                field: Field { text: b"y", at: 2 },
                end: FieldEnd::Last(RecordEnd::CrLf),
                rest: b"z",
                next: 7,
            })
        );
    }
}
