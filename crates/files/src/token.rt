ghost use Rattle.std.specs.Prelude.{◌≡◌};
ghost use Rattle.files.specs.Tokens.{size_of, value_of};

// A word, as the part of the text that it is; of a number also its value. Each word is handed out so, a name or a number.
#[derive(Clone, Copy)]
pub enum Token<'a> {
    Name(&'a [u8]),
    Number(&'a [u8], i64),
}

impl<'a> Token<'a> {
    // The number, or 0 of a name: the contract of the reader's call says which of the two it hands out.
    pub fn value(self) -> i64
        ensures { result ≡ value_of self.entry }
    {
        match self {
            Token::Name(_) => 0,
            Token::Number(_, value) => value,
        }
    }

    // The number without its sign, or 0 of a name.
    pub fn size(self) -> u64
        ensures { result ≡ size_of self.entry }
    {
        match self {
            Token::Name(_) => 0,
            Token::Number(_, value) => value.unsigned_abs(),
        }
    }
}
