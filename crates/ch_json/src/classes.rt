//! The classes of bytes that the grammar tells apart.
ghost use Rattle.std.specs.Prelude.{◌≡◌};
ghost use Rattle.ch_base.specs.JsonText.{is_blank, is_digit, is_digit_1_to_9, is_e, is_sign, is_hex, is_d, is_8_to_b, is_c_to_f, is_unescaped, is_short};

pub fn is_blank_byte(byte: u8) -> bool
    ensures { result ≡ is_blank byte }
{
    byte == b' ' || byte == b'\t' || byte == b'\n' || byte == b'\r'
}

pub fn is_digit_byte(byte: u8) -> bool
    ensures { result ≡ is_digit byte }
{
    b'0' <= byte && byte <= b'9'
}

pub fn is_digit_byte_1_to_9(byte: u8) -> bool
    ensures { result ≡ is_digit_1_to_9 byte }
{
    b'1' <= byte && byte <= b'9'
}

pub fn is_e_byte(byte: u8) -> bool
    ensures { result ≡ is_e byte }
{
    byte == b'e' || byte == b'E'
}

pub fn is_sign_byte(byte: u8) -> bool
    ensures { result ≡ is_sign byte }
{
    byte == b'+' || byte == b'-'
}

pub fn is_hex_byte(byte: u8) -> bool
    ensures { result ≡ is_hex byte }
{
    (b'0' <= byte && byte <= b'9')
        || ((b'A' <= byte && byte <= b'F') || (b'a' <= byte && byte <= b'f'))
}

pub fn is_d_byte(byte: u8) -> bool
    ensures { result ≡ is_d byte }
{
    byte == b'd' || byte == b'D'
}

pub fn is_8_to_b_byte(byte: u8) -> bool
    ensures { result ≡ is_8_to_b byte }
{
    byte == b'8' || byte == b'9' || byte == b'a' || byte == b'b' || byte == b'A' || byte == b'B'
}

pub fn is_c_to_f_byte(byte: u8) -> bool
    ensures { result ≡ is_c_to_f byte }
{
    (b'c' <= byte && byte <= b'f') || (b'C' <= byte && byte <= b'F')
}

pub fn is_unescaped_byte(byte: u8) -> bool
    ensures { result ≡ is_unescaped byte }
{
    32 <= byte && (!(byte == b'"') && !(byte == b'\\'))
}

pub fn is_short_byte(byte: u8) -> bool
    ensures { result ≡ is_short byte }
{
    byte == b'"'
        || byte == b'\\'
        || byte == b'/'
        || byte == b'b'
        || byte == b'f'
        || byte == b'n'
        || byte == b'r'
        || byte == b't'
}
