ghost use Rattle.std.specs.Prelude.{◌≡◌, ◌&&◌, nat_le, length};
ghost use Rattle.std.specs.List.{list_all};
ghost use Rattle.std.specs.Str.{is_utf8};
ghost use Rattle.desk_forms.specs.Words.{
  exercise_name,
  identifier,
  identifier_byte,
  key,
  name_byte,
  printable,
  token,
  user_name,
  word_byte,
};

/// Whether it is a token: 4 to 64 letters and digits of ASCII, `-` and `_`.
pub fn is_token(bytes: &[u8]) -> bool
    ensures value { result ≡ token bytes.now }
{
    has_length(bytes, 4, 64) && are_word_bytes(bytes)
}

/// Whether it is the key of a submission: 1 to 64 letters and digits of ASCII, `-` and `_`.
pub fn is_key(bytes: &[u8]) -> bool
    ensures value { result ≡ key bytes.now }
{
    has_length(bytes, 1, 64) && are_word_bytes(bytes)
}

/// Whether it is the name of an exercise: 1 to 32 small letters and digits of ASCII, and `-`.
pub fn is_exercise_name(bytes: &[u8]) -> bool
    ensures value { result ≡ exercise_name bytes.now }
{
    has_length(bytes, 1, 32) && are_name_bytes(bytes)
}

/// Whether it is the name of a user: 1 to 64 bytes of UTF-8 without control bytes, which are those below 32, and 127.
pub fn is_user_name(bytes: &[u8]) -> bool
    ensures value { result ≡ user_name bytes.now }
{
    has_length(bytes, 1, 64) && are_printable(bytes) && is_text(bytes)
}

/// Whether it is an identifier: a letter of ASCII, and then letters, digits and `_`.
pub fn is_identifier(bytes: &[u8]) -> bool
    ensures value { result ≡ identifier bytes.now }
{
    match bytes {
        [] => false,
        [first, rest @ ..] => first.is_ascii_alphabetic() && go_on(rest),
    }
}

/// Whether it is UTF-8.
#[tactic(auto, using(crate::proofs::Utf8::says_yes, crate::proofs::Utf8::says_no))]
pub fn is_text(bytes: &[u8]) -> bool
    ensures value { result ≡ is_utf8 bytes.now }
{
    match str::from_utf8(bytes) {
        Ok(_) => true,
        Err(_) => false,
    }
}

fn has_length(bytes: &[u8], least: usize, most: usize) -> bool
    ensures value { result ≡ (nat_le least (length bytes.now) && nat_le (length bytes.now) most) }
{
    least <= bytes.len() && bytes.len() <= most
}

fn are_word_bytes(bytes: &[u8]) -> bool
    ensures value { result ≡ list_all word_byte bytes.now }
{
    bytes.iter().all(|byte| is_word_byte(*byte))
}

fn are_name_bytes(bytes: &[u8]) -> bool
    ensures value { result ≡ list_all name_byte bytes.now }
{
    bytes.iter().all(|byte| is_name_byte(*byte))
}

fn are_printable(bytes: &[u8]) -> bool
    ensures value { result ≡ list_all printable bytes.now }
{
    bytes.iter().all(|byte| is_printable(*byte))
}

fn go_on(bytes: &[u8]) -> bool
    ensures value { result ≡ list_all identifier_byte bytes.now }
{
    bytes.iter().all(|byte| is_identifier_byte(*byte))
}

fn is_identifier_byte(byte: u8) -> bool
    ensures value { result ≡ identifier_byte byte }
{
    byte.is_ascii_alphanumeric() || byte == b'_'
}

fn is_word_byte(byte: u8) -> bool
    ensures value { result ≡ word_byte byte }
{
    byte.is_ascii_alphanumeric() || byte == b'-' || byte == b'_'
}

fn is_name_byte(byte: u8) -> bool
    ensures value { result ≡ name_byte byte }
{
    byte.is_ascii_lowercase() || byte.is_ascii_digit() || byte == b'-'
}

fn is_printable(byte: u8) -> bool
    ensures value { result ≡ printable byte }
{
    32 <= byte && byte != 127
}
