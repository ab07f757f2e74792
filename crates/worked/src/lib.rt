// Whole tree files whose check was computed by the definitions that the contracts of `treefile` cite.
#![tactic(auto)]

ghost use Rattle.worked.specs.Worked.{WorkedFiles, files};
ghost use Rattle.std.specs.Prelude.{◌≡◌, length};

// How many files stand worked in the specs: of each the check answers what is written beside it.
pub fn worked_files() -> u8
    ensures stands { WorkedFiles }
    ensures count { result ≡ length files }
{
    9
}

#[cfg(test)]
mod tests {
    use treefile::check::check;

    // The number of the fault of a file, if it has one.
    fn number(file: &[u8]) -> Option<u8> {
        check(file).err().map(|fault| fault.number())
    }

    // A file of one record without a name, in row 1.
    fn one_record(kind: u8, size: u8) -> [u8; 36] {
        let mut file = [0; 36];
        file[0] = kind;
        file[4] = size;
        file[8..12].fill(255);
        file[12] = 1;
        file[20] = 1;
        file[32] = 36;
        file
    }

    #[test]
    fn less_than_a_trailer(rt: HostRuntime) {
        assert_eq!(rt; number(&[0; 19]), Some(1));
    }

    #[test]
    fn no_record(rt: HostRuntime) {
        let mut file = [0; 20];
        file[16] = 20;
        assert_eq!(rt; number(&file), Some(2));
    }

    #[test]
    fn one_node(rt: HostRuntime) {
        assert_eq!(rt; number(&one_record(1, 1)), None);
        assert_eq!(rt; number(&one_record(2, 1)), Some(4), "no kind");
        assert_eq!(rt;
            number(&one_record(1, 2)),
            Some(5),
            "a size past the records"
        );
        assert_eq!(rt; number(&one_record(20, 1)), Some(5), "an Expr at the root");
    }
}
