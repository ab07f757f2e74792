// A name as a line has it: one word of visible ASCII, whatever bytes the name holds.
ghost use Rattle.std.specs.Prelude.{◌≡◌, Some};
ghost use Rattle.std.specs.Option.{option_map};
ghost use Rattle.std.specs.Fmt.{WritesOnOk};
ghost use Rattle.listing.specs.Escaped.{stands_for_itself, escaped_byte, escaped, shown_name};

use std::fmt;

// The bytes of a name, each as itself or in two digits.
#[derive(Clone, Copy)]
pub struct Escaped<'a>(pub &'a [u8]);

impl fmt::Display for Escaped<'_> {
    ghost output = { λ x. Some (escaped x.0.now) };

    #[tactic(auto, using(crate::proofs::Bytes::written_more))]
    fn fmt<W: fmt::Write>(&self, f: &mut fmt::Formatter<W>) -> fmt::Result {
        for byte in self.0 {
            write_byte(f, *byte)?;
        }
        Ok(())
    }
}

// A name, or a dash where there is none.
#[derive(Clone, Copy)]
pub struct Name<'a>(pub Option<&'a [u8]>);

impl fmt::Display for Name<'_> {
    ghost output = { λ x. Some (shown_name (option_map (λ x. x.now) x.0)) };

    fn fmt<W: fmt::Write>(&self, f: &mut fmt::Formatter<W>) -> fmt::Result {
        match self.0 {
            Some(bytes) => fmt::Display::fmt(&Escaped(bytes), f),
            None => f.write_str("-"),
        }
    }
}

// Whether a byte is written as it is: from 0x21 to 0x7e, but for the backslash.
fn stands_for_itself(byte: u8) -> bool
    ensures { result ≡ stands_for_itself byte }
{
    matches!(byte, 0x21..=0x7e) && byte != b'\\'
}

// Writes a byte as itself, or as a backslash and two digits.
#[tactic(auto, using(std::proofs::lemmas::Fmt::hex_byte))]
fn write_byte<W: fmt::Write>(f: &mut fmt::Formatter<W>, byte: u8) -> fmt::Result
    ensures { WritesOnOk W.write_str_gives f.old result (escaped_byte byte) f.new }
{
    if stands_for_itself(byte) {
        f.write_char(byte as char)
    } else {
        write!(f, "\\{byte:02x}")
    }
}
