// The text of an explanation, read back: the parts that it tells, or none where the bytes are no such text (docs/EXPLANATIONS.md).
#![tactic(auto)]

ghost use Rattle.std.specs.Prelude.{◌≡◌, ◌≤◌};
ghost use Rattle.wording.specs.Explanation.{held_in};
ghost use Rattle.wording.specs.Text.{text_of};
ghost use Rattle.reader.specs.Reading.{same, reading_of};

use wording::Parts;

mod parts;

// Whether the bytes are the text of these parts.
fn tells(text: &[u8], p: Parts) -> bool
    requires { p.count ≤ 16 }
    ensures { result ≡ same (text_of (held_in p)) text.now }
{
    let mut own = [0u8; 2048];
    let e = wording::text::put_text(&mut own, 0, p);
    check::same(&own[..e], text)
}

// The parts that are read as if the bytes were a text are right if the bytes are their text, and no others can be.
pub fn read(text: &[u8]) -> Option<Parts>
    ensures { result ≡ reading_of text.now }
{
    let count = parts::number_after(text, 0, 14);
    if 16 < count.value {
        return None;
    }
    let at = parts::skip(text, count.at, 2);
    let p = parts::read_parts(text, at, count.value as usize);
    tells(text, p).then_some(p)
}
