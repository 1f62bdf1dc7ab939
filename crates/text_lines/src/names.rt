ghost use Rattle.std.specs.Prelude.{◌↔◌, IsTrue};
ghost use Rattle.text_lines.specs.Texts.{IsLongName, IsLongNameByte, IsName, IsNameByte};

/// The most bytes of a name.
pub const MAX_NAME_BYTES: usize = 32;

/// The most bytes of a long name.
pub const MAX_LONG_NAME_BYTES: usize = 64;

/// Whether the word is a name: 1 to 32 letters, digits, `-`, `_` and `.`, the first a letter.
pub fn is_name(word: &str) -> bool
    ensures { IsTrue result ↔ IsName word.now }
{
    let bytes = word.as_bytes();
    match bytes.first() {
        Some(first) => {
            first.is_ascii_alphabetic()
                && bytes.len() <= MAX_NAME_BYTES
                && bytes.iter().all(|byte| is_name_byte(*byte))
        }
        None => false,
    }
}

fn is_name_byte(byte: u8) -> bool
    ensures { IsTrue result ↔ IsNameByte byte }
{
    byte.is_ascii_alphanumeric() || matches!(byte, b'-' | b'_' | b'.')
}

/// Whether the word is a long name, as hosts, addresses and paths are: 1 to 64 letters, digits, `-`, `_`, `.`,
/// `:` and `/`. Each name is one.
pub fn is_long_name(word: &str) -> bool
    ensures { IsTrue result ↔ IsLongName word.now }
{
    let bytes = word.as_bytes();
    !bytes.is_empty()
        && bytes.len() <= MAX_LONG_NAME_BYTES
        && bytes.iter().all(|byte| is_long_name_byte(*byte))
}

fn is_long_name_byte(byte: u8) -> bool
    ensures { IsTrue result ↔ IsLongNameByte byte }
{
    is_name_byte(byte) || matches!(byte, b':' | b'/')
}
