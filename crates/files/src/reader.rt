ghost use Rattle.std.specs.Prelude.{◌≡◌, ◌<◌, ◌≤◌, ◌↔◌, length, slice_index, IsTrue, ◌==◌};

use crate::misfit::Misfit;
use crate::scan::longest;
use crate::token::Token;

// A text, and the place up to which it is read: the place and not the rest, since a byte that does not fit is told by it.
#[derive(Drop)]
pub struct Reader<'a> {
    text: &'a [u8],
    at: usize,
    ghost within: { at ≤ length text.now },
}

impl<'a> Reader<'a> {
    ghost use Rattle.files.specs.Names.{Named};
    ghost use Rattle.files.specs.Steps.{ReadsOn};
    ghost use Rattle.files.specs.Tokens.{Numbered};

    pub fn new(text: &'a [u8]) -> Reader<'a>
        ensures { (result.text.now ≡ text.now) × (result.at ≡ 0) }
    {
        Reader { text, at: 0 }
    }

    pub fn is_done(&self) -> bool
        ensures { result ≡ (self.now.at == length self.now.text.now) }
    {
        self.at == self.text.len()
    }

    // That the byte up to which the text is read does not fit.
    pub(crate) fn misfit(&self) -> Misfit
        ensures { result.place ≡ self.now.at }
    {
        Misfit { place: self.at }
    }

    // Whether the byte `b` stands at a place of the text.
    fn has(&self, at: usize, b: u8) -> bool
        ensures { IsTrue result ↔ ((at < length self.now.text.now) × (slice_index self.now.text.now at ≡ b)) }
    {
        self.text.get(at) == Some(&b)
    }

    // Passes a number, which a minus may begin if there is a `sign`, and the byte `end` after it; or tells the place of the first byte that does not fit.
    // Inline, and its value formed before its end is looked for: a text of short numbers takes a quarter longer otherwise.
    #[inline]
    pub fn number(&mut self, sign: bool, end: u8) -> Result<Token<'a>, Misfit>
        ensures { ReadsOn self.old self.new (λ text from to. Numbered text from sign end to result) }
    {
        let text = self.text;
        let from = self.at;
        let (to, part) = longest(text, from, sign);
        let value = part.value().ok_or(Misfit { place: to })?;
        if !self.has(to, end) {
            return Err(Misfit { place: to });
        }
        self.at = to + 1;
        Ok(Token::Number(&text[from..to], value))
    }

    // Passes the name `want` and the byte `end` after it; or tells the place of the first byte that does not fit.
    pub fn name(&mut self, want: &[u8], end: u8) -> Result<Token<'a>, Misfit>
        ensures { ReadsOn self.old self.new (λ text from to. Named text from want.now end to result) }
    {
        let text = self.text;
        let from = self.at;
        for (i, b) in want.iter().enumerate() {
            let to = from + i;
            if !self.has(to, *b) {
                return Err(Misfit { place: to });
            }
        }
        let to = from + want.len();
        if !self.has(to, end) {
            return Err(Misfit { place: to });
        }
        self.at = to + 1;
        Ok(Token::Name(&text[from..to]))
    }
}
