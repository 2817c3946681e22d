ghost use Rattle.std.specs.Prelude.{◌≡◌, ◌↔◌, ◌&&◌, IsTrue};
ghost use Rattle.std.specs.List.{list_all};
ghost use Rattle.eb_bytes.specs.Text.{has_bytes};
ghost use Rattle.version_funcs.specs.Walk.{is_version_text};
ghost use Rattle.byte_class.specs.Class.{is_letter_or_digit};
ghost use Rattle.ebuild_names.specs.Form.{begins, IsPackageName, is_category_byte as is_category_byte_value, is_category_name, is_flag_byte as is_flag_byte_value, is_flag_name, is_package_byte as is_package_byte_value, is_dot, is_sign};
ghost use Rattle.ebuild_names.specs.Walk.{ends_in_version as ends_in_version_text, is_hyphen_and_version as is_hyphen_and_version_text, is_package_text};

use byte_class::{is_letter_or_digit, is_name_byte};
use version_funcs::read_version;

// Whether a package's name may have this byte.
fn is_package_byte(byte: u8) -> bool
    ensures { result ≡ is_package_byte_value byte }
{
    is_name_byte(byte) || matches!(byte, b'+' | b'-')
}

fn is_category_byte(byte: u8) -> bool
    ensures { result ≡ is_category_byte_value byte }
{
    is_package_byte(byte) || byte == b'.'
}

fn is_flag_byte(byte: u8) -> bool
    ensures { result ≡ is_flag_byte_value byte }
{
    is_package_byte(byte) || byte == b'@'
}

fn are_category_bytes(text: &[u8]) -> bool
    ensures { result ≡ list_all is_category_byte_value text.now }
{
    text.iter().all(|byte| is_category_byte(*byte))
}

fn are_package_bytes(text: &[u8]) -> bool
    ensures { result ≡ list_all is_package_byte_value text.now }
{
    text.iter().all(|byte| is_package_byte(*byte))
}

fn are_flag_bytes(text: &[u8]) -> bool
    ensures { result ≡ list_all is_flag_byte_value text.now }
{
    text.iter().all(|byte| is_flag_byte(*byte))
}

// Whether the text is one byte of a category or more.
fn has_category_bytes(text: &[u8]) -> bool
    ensures { result ≡ (has_bytes text.now && list_all is_category_byte_value text.now) }
{
    !text.is_empty() && are_category_bytes(text)
}

// Whether the text is one byte of a package's name or more.
fn has_package_bytes(text: &[u8]) -> bool
    ensures { result ≡ (has_bytes text.now && list_all is_package_byte_value text.now) }
{
    !text.is_empty() && are_package_bytes(text)
}

// Whether the first byte is a hyphen or a plus.
fn begins_with_sign(text: &[u8]) -> bool
    ensures { result ≡ begins is_sign text.now }
{
    matches!(text, [b'-' | b'+', ..])
}

fn begins_with_dot(text: &[u8]) -> bool
    ensures { result ≡ begins is_dot text.now }
{
    matches!(text, [b'.', ..])
}

fn begins_with_letter_or_digit(text: &[u8]) -> bool
    ensures { result ≡ begins is_letter_or_digit text.now }
{
    matches!(text, [first, ..] if is_letter_or_digit(*first))
}

/// Whether the text has the form of a category (Package Manager Specification, "Names and Versions"): one ASCII letter,
/// digit, `+`, `_`, `.` or `-` or more, the first of them neither `-`, `+` nor `.`. The name of a slot has the same
/// form. Takes no memory.
pub fn is_category(text: &[u8]) -> bool
    ensures { result ≡ is_category_name text.now }
{
    has_category_bytes(text) && !begins_with_sign(text) && !begins_with_dot(text)
}

/// Whether the text has the form of a USE flag (Package Manager Specification, "Names and Versions"): ASCII letters,
/// digits, `+`, `_`, `@` and `-`, with a letter or a digit first. Takes no memory.
pub fn is_flag(text: &[u8]) -> bool
    ensures { result ≡ is_flag_name text.now }
{
    are_flag_bytes(text) && begins_with_letter_or_digit(text)
}

/// Whether the text has the form of a package's name (Package Manager Specification, "Names and Versions"): one ASCII
/// letter, digit, `+`, `_` or `-` or more, the first of them neither `-` nor `+`, and no hyphen with a version after it
/// at the end. Takes no memory.
pub fn is_package(text: &[u8]) -> bool
    ensures { IsTrue result ↔ IsPackageName text.now }
{
    reads_package(text)
}

fn reads_package(text: &[u8]) -> bool
    ensures { result ≡ is_package_text text.now }
{
    has_package_bytes(text) && !begins_with_sign(text) && !ends_in_version(text)
}

// Whether the text is a hyphen and a version.
fn is_hyphen_and_version(text: &[u8]) -> bool
    ensures { result ≡ is_hyphen_and_version_text text.now }
{
    match text {
        [b'-', version @ ..] => reads_version(version),
        _ => false,
    }
}

// Whether a version stands after some hyphen, up to the end.
fn ends_in_version(text: &[u8]) -> bool
    ensures { result ≡ ends_in_version_text text.now }
{
    let mut left = text;
    while let [_, rest @ ..] = left {
        if is_hyphen_and_version(left) {
            return true;
        }
        left = rest;
    }
    false
}

// Whether the text is a version.
fn reads_version(text: &[u8]) -> bool
    ensures { result ≡ is_version_text text.now }
{
    read_version(text)
}
