//! Components as texts: how one is written, and compared with a name or a spelling.

ghost use Rattle.std.specs.Prelude.{◌≡◌, ◌↔◌, IsTrue};
ghost use Rattle.std.specs.Fmt.{WritesOnOk, WritesStyledOnOk};
ghost use Rattle.cvss_base.specs.Text.{component, uppercased};

use std::fmt;

/// Writes a name, a colon and a spelling, and the same under any options.
pub fn write_component<W: fmt::Write>(
    name: &str,
    spelling: &str,
    f: &mut fmt::Formatter<W>,
) -> fmt::Result
    ensures plain { WritesOnOk W.write_str_gives f.old result (component name.now spelling.now) f.new }
    ensures styled { WritesStyledOnOk W.write_str_gives f.old result (component name.now spelling.now) f.new }
{
    f.write_str(name)?;
    f.write_str(":")?;
    f.write_str(spelling)
}

/// Whether a text is this name once its ASCII letters are in upper case.
pub fn is_uppercased_as(text: &[u8], name: &[u8]) -> bool
    ensures { IsTrue result ↔ (uppercased text.now ≡ name.now) }
{
    text.len() == name.len()
        && text
            .iter()
            .zip(name)
            .all(|(byte, letter)| byte.to_ascii_uppercase() == *letter)
}
