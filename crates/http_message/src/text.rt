// Texts and lists within fields.
ghost use Rattle.std.specs.Prelude.{◌≡◌, reverse};
ghost use Rattle.httparse.specs.Grammar.{skip_ows, trim_ows};
ghost use Rattle.http_message.specs.Fields.{lists_option, same_text};

use httparse::is_space_or_tab;

/// Whether the texts are the same but for the case of ASCII letters.
pub(crate) fn same_text(a: &[u8], b: &[u8]) -> bool
    ensures { result ≡ same_text a.now b.now }
{
    a.eq_ignore_ascii_case(b)
}

fn trim_start(mut bytes: &[u8]) -> &[u8]
    ensures { result.now ≡ skip_ows bytes.now }
{
    while let [first, rest @ ..] = bytes
        && is_space_or_tab(*first)
    {
        bytes = rest;
    }
    bytes
}

fn trim_end(mut bytes: &[u8]) -> &[u8]
    ensures { result.now ≡ reverse (skip_ows (reverse bytes.now)) }
{
    while let [rest @ .., last] = bytes
        && is_space_or_tab(*last)
    {
        bytes = rest;
    }
    bytes
}

// The bytes without the spaces and tabs around them.
fn trim(bytes: &[u8]) -> &[u8]
    ensures { result.now ≡ trim_ows bytes.now }
{
    trim_end(trim_start(bytes))
}

// Whether the element is the option.
fn is_option(element: &[u8], option: &[u8]) -> bool
    ensures { result ≡ same_text (trim_ows element.now) option.now }
{
    same_text(trim(element), option)
}

/// Whether the value, a list with commas, has the option as an element.
pub(crate) fn lists_option(value: &[u8], option: &[u8]) -> bool
    ensures { result ≡ lists_option option.now value.now }
{
    value
        .split(|byte| *byte == b',')
        .any(|element| is_option(element, option))
}
