ghost use Rattle.std.specs.Prelude.{◌≤◌, length};
ghost use Rattle.files.specs.Words.{Longest};

use crate::part::Part;

// The longest beginning of a number's word from `from` on: where it ends, and what it is.
pub(crate) fn longest(text: &[u8], from: usize, sign: bool) -> (usize, Part)
    requires { from ≤ length text.now }
    ensures { Longest text.now from sign result.0 result.1 }
{
    let rest = &text[from..];
    let mut part = Part::Nothing;
    for (i, b) in rest.iter().enumerate() {
        match part.grown(*b, sign) {
            Some(more) => part = more,
            None => return (from + i, part),
        }
    }
    (text.len(), part)
}
