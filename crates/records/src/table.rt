//! Tables of the records that a line may be.

/// The end of a function that takes one line: what it returns, by a table of tags, of the words that each
/// record wants, and of bodies.
///
/// ```text
/// record_table!(LINE, MISSING => {
///     TAG, COUNT words => BODY,
///     TAG, let PATTERN = VALUE, else REFUSED, COUNT words => BODY,
///     TAG if let PATTERN = VALUE, COUNT words => BODY,
/// } else OTHER)
/// ```
///
/// A row is for the lines that begin with its tag. Such a line is answered, in this order,
///
/// - by `Err(REFUSED)`, where `VALUE` isn't of the pattern. A row has any number of these
///   conditions, in the order of their faults, and the body has the variables of their patterns;
/// - by `Err(MISSING)`, where the line has fewer than `COUNT` words behind its tag;
/// - by `BODY`, which has its words and tests for none of them.
///
/// A row with `if let` is for the lines of its tag where `VALUE` is of the pattern. A line of no
/// row is answered by `OTHER`.
///
/// In `record_table!(LINE, exactly, WRONG => { .. } else OTHER)` a line with more words than
/// `COUNT` behind its tag is answered as one with fewer: by `Err(WRONG)`.
///
/// `LINE` is a variable of any type with the methods `has_tag(TAG)`, whether the line begins with a
/// tag; `lacks(COUNT)`, whether it has fewer words behind its tag; and, for `exactly`,
/// `differs(COUNT)`, whether it has another number of them.
#[macro_export]
macro_rules! record_table {
    (@rows $line:expr, $test:ident, $fault:expr => {
        $($tag:literal $(if let $case:pat = $chosen:expr)?, $(let $open:pat = $held:expr, else $refused:expr,)* $wanted:literal words => $body:expr),* $(,)?
    } else $other:expr) => {{
        $(if $line.has_tag($tag) $(&& let $case = $chosen)? {
            $(let $open = $held else {
                return Err($refused);
            };)*
            if $line.$test($wanted) {
                return Err($fault);
            }
            return $body;
        })*
        $other
    }};
    ($line:expr, exactly, $wrong:expr => $($table:tt)*) => {
        $crate::record_table!(@rows $line, differs, $wrong => $($table)*)
    };
    ($line:expr, $missing:expr => $($table:tt)*) => {
        $crate::record_table!(@rows $line, lacks, $missing => $($table)*)
    };
}

#[cfg(test)]
mod tests {
    use std::test::Fail;

    /// A command of a plotter: its letter, and how many numbers stand behind it.
    #[derive(Clone, Copy)]
    struct Command {
        letter: u8,
        numbers: usize,
    }

    impl Command {
        fn has_tag(&self, letter: u8) -> bool {
            self.letter == letter
        }

        fn lacks(&self, wanted: usize) -> bool {
            self.numbers < wanted
        }

        fn differs(&self, wanted: usize) -> bool {
            self.numbers != wanted
        }
    }

    #[derive(Clone, Copy, Debug, PartialEq, Eq)]
    enum Fault {
        NoPlace,
        Raised,
        Short,
    }

    fn length(command: &Command, place: Option<u32>, lowered: bool) -> Result<u32, Fault> {
        crate::record_table!(command, Fault::Short => {
            b'm', 2 words => Ok(0),
            b'v' if let Some(y) = place, 1 words => Ok(y),
            b'h', let Some(x) = place, else Fault::NoPlace, let true = lowered, else Fault::Raised, 1 words => Ok(x)
        } else Ok(9))
    }

    fn exact_length(command: &Command) -> Result<u32, Fault> {
        crate::record_table!(command, exactly, Fault::Short => {
            b'm', 2 words => Ok(0),
            b'z', 0 words => Ok(1),
        } else Err(Fault::Raised))
    }

    #[test]
    fn rows(rt: HostRuntime) -> Result<(), Fail> {
        let line = |letter, numbers| Command { letter, numbers };
        assert_eq!(rt; length(&line(b'm', 2), None, false), Ok(0));
        assert_eq!(rt; length(&line(b'm', 3), None, false), Ok(0));
        assert_eq!(rt; length(&line(b'm', 1), None, false), Err(Fault::Short));
        assert_eq!(rt; length(&line(b'v', 1), Some(4), false), Ok(4));
        assert_eq!(rt; length(&line(b'v', 0), Some(4), false), Err(Fault::Short));
        assert_eq!(rt; length(&line(b'v', 0), None, false), Ok(9));
        assert_eq!(rt; length(&line(b'h', 1), Some(5), true), Ok(5));
        assert_eq!(rt; length(&line(b'h', 0), Some(5), true), Err(Fault::Short));
        assert_eq!(rt; length(&line(b'h', 0), Some(5), false), Err(Fault::Raised));
        assert_eq!(rt; length(&line(b'h', 0), None, false), Err(Fault::NoPlace));
        assert_eq!(rt; length(&line(b'x', 0), None, false), Ok(9));
        Ok(())
    }

    #[test]
    fn exact_rows(rt: HostRuntime) -> Result<(), Fail> {
        let line = |letter, numbers| Command { letter, numbers };
        assert_eq!(rt; exact_length(&line(b'm', 2)), Ok(0));
        assert_eq!(rt; exact_length(&line(b'm', 1)), Err(Fault::Short));
        assert_eq!(rt; exact_length(&line(b'm', 3)), Err(Fault::Short));
        assert_eq!(rt; exact_length(&line(b'z', 0)), Ok(1));
        assert_eq!(rt; exact_length(&line(b'x', 0)), Err(Fault::Raised));
        Ok(())
    }
}
