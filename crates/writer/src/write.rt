ghost use Rattle.std.specs.Prelude.{◌≡◌, ◌≤◌, [], ◌∷◌, ◌++◌, length};

use files::row::Row;
use itoa::{Buffer, Integer};

// The text of a file, which the caller lends.
pub type FileText = [u8; 16384];

// A lent text, and the place up to which it is written.
#[derive(Drop)]
pub(crate) struct Writer<'a> {
    text: &'a mut FileText,
    at: usize,
    ghost within: { at ≤ length text.now },
}

impl<'a> Writer<'a> {
    ghost use Rattle.files.specs.Form.{line};
    ghost use Rattle.writer.specs.Steps.{Room, WritesOn};

    pub(crate) fn new(text: &'a mut FileText) -> Writer<'a>
        ensures lent { result.text.ghost_name ≡ text.entry.ghost_name }
        ensures start { (result.text.now ≡ text.old) × (result.at ≡ 0) }
    {
        Writer { text, at: 0 }
    }

    // Up to where the text is written.
    pub(crate) fn place(&self) -> usize
        ensures { result ≡ self.now.at }
    {
        self.at
    }

    pub(crate) fn bytes(&mut self, bytes: &[u8])
        requires { Room self.old bytes.now }
        ensures { WritesOn self.old bytes.now self.new }
    {
        let from = self.at;
        let to = from + bytes.len();
        let text = &mut *self.text;
        text[from..to].copy_from_slice(bytes);
        self.at = to;
    }

    // A number, and the byte that ends its word. The digits are those of `itoa`, which never fails: `write!` says nothing of
    // an `Err`, nor when there is one, so that over it no proof could tell that there is always room.
    pub(crate) fn number<I: Integer + Drop>(&mut self, n: I, end: u8)
        requires { Room self.old (I.text n ++ (end ∷ [])) }
        ensures { WritesOn self.old (I.text n ++ (end ∷ [])) self.new }
    {
        let mut buffer = Buffer::new();
        match buffer.format(n).as_bytes() {
            // most numbers have one digit, and two bytes at once are written without a copy of unknown length
            [digit] => self.bytes(&[*digit, end]),
            digits => {
                self.bytes(digits);
                self.bytes(&[end]);
            }
        }
    }

    // The line of a term's values, number by number for the same reason.
    pub(crate) fn line(&mut self, row: Row)
        requires { Room self.old (line row) }
        ensures { WritesOn self.old (line row) self.new }
    {
        self.number(row.a, b' ');
        self.number(row.b, b' ');
        self.number(row.c, b' ');
        self.number(row.num, b' ');
        self.number(row.den, b'\n');
    }
}
