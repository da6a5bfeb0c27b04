ghost use Rattle.std.specs.Prelude.{◌++◌};
ghost use Rattle.writer.specs.Refusals.{refusal_names, refusal_line};
ghost use Rattle.writer.specs.Writes.{Put};

use crate::write::{FileText, Writer};
use kinds::fault::Refusal;

// Writes a refusal at the beginning of the text: the line of its names and the line of its values, number by number as
// `Writer::number` tells. It answers the place after them. There is always room.
pub fn put_refusal(out: &mut FileText, refusal: Refusal) -> usize
    ensures { Put out.old 0 (refusal_names ++ refusal_line refusal) out.new result }
{
    let mut writer = Writer::new(out);
    writer.bytes(b"number depth place\n");
    writer.number(refusal.number, b' ');
    writer.number(refusal.depth, b' ');
    writer.number(refusal.place, b'\n');
    writer.place()
}
