ghost use Rattle.std.specs.Prelude.{◌≡◌};
ghost use Rattle.files.specs.Words.{grow, worth, InRange};

// How large a number may be whose word begins with no minus, and how far below 0 one whose word does.
const TOP: u64 = i64::MAX as u64;

const DEPTH: u64 = TOP + 1;

// What of a number's word is read so far: digits are kept as the number that they write. The library's `parse` takes more
// words, as 007, and does not tell the first byte that does not fit.
#[derive(Clone, Copy)]
pub(crate) enum Part {
    Nothing,
    Minus,
    Natural(u64),
    Negative(u64),
}

impl Part {
    // The part with one more byte, where a number's word can go on so.
    pub(crate) fn grown(self, b: u8, sign: bool) -> Option<Part>
        ensures { result ≡ grow sign self b }
    {
        // whether it is a digit is asked first, and once: that decides nearly every byte of a text
        let digit = match b {
            b'0'..=b'9' => u64::from(b - b'0'),
            _ => {
                return match self {
                    Part::Nothing => (sign && b == b'-').then_some(Part::Minus),
                    _ => None,
                };
            }
        };
        match self {
            Part::Nothing => Some(Part::Natural(digit)),
            Part::Minus => (digit > 0).then_some(Part::Negative(digit)),
            Part::Natural(n) => {
                let more = n.checked_mul(10)?.checked_add(digit)?;
                (n > 0 && more <= TOP).then_some(Part::Natural(more))
            }
            Part::Negative(n) => {
                let more = n.checked_mul(10)?.checked_add(digit)?;
                (more <= DEPTH).then_some(Part::Negative(more))
            }
        }
    }

    // The number that the word writes, where it may end here.
    pub(crate) fn value(self) -> Option<i64>
        requires { InRange self }
        ensures { result ≡ worth self }
    {
        match self {
            Part::Nothing | Part::Minus => None,
            Part::Natural(n) => Some(n as i64),
            // less one on the way, since the least number has no positive counterpart
            Part::Negative(n) => Some(-1 - ((n - 1) as i64)),
        }
    }
}
