ghost use Rattle.std.specs.Prelude.{◌≡◌, IfOk};
ghost use Rattle.vc_text.specs.Escapes.{inside, unescaped};

use std::alloc::AllocError;

/// What stands between the first and the last byte of a text, as between the brackets of a class. It is empty where the
/// text has fewer than two bytes.
pub fn inside(text: &[u8]) -> &[u8]
    ensures { result.now ≡ inside text.now }
{
    match text {
        [_, inner @ .., _] => inner,
        _ => &[],
    }
}

/// Writes the bytes of a text, each without the backslash before it, in place of what is there.
pub fn unescape(text: &[u8], into: &mut Vec<u8>) -> Result<(), AllocError>
    ensures { IfOk result (λ _. into.new.items ≡ unescaped text.now) }
{
    into.clear();
    let mut rest = text;
    while let [first, after @ ..] = rest {
        match after {
            [second, next @ ..] if *first == b'\\' => {
                into.push(*second)?;
                rest = next;
            }
            _ => {
                into.push(*first)?;
                rest = after;
            }
        }
    }
    Ok(())
}
