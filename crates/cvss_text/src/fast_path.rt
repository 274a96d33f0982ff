//! How a canonical text is recognised, as far as the versions share it.

ghost use Rattle.std.specs.Prelude.{◌≡◌, ◌∷◌, ◌++◌, IsTrue, IfSome, IfNone, Some, None};
ghost use Rattle.cvss_base.specs.Text.{slash, colon};

/// Puts the value that was read of a text into its field, and gives what follows it; if none
/// was read, no value, and the text.
#[inline(always)]
pub fn put_read<'a, M: Copy>(
    field: &mut Option<M>,
    read: Option<(M, &'a [u8])>,
    text: &'a [u8],
) -> &'a [u8]
    ensures some { IfSome read.entry (λ read. (field.new ≡ Some read.0) × (result.now ≡ read.1.now)) }
    ensures none { IfNone read.entry ((field.new ≡ None) × (result.now ≡ text.now)) }
{
    match read {
        Some((value, rest)) => {
            *field = Some(value);
            rest
        }
        None => {
            *field = None;
            text
        }
    }
}

/// What follows a slash, a metric's name of one to three letters, and a colon.
#[inline(always)]
pub fn rest_after_name<'a>(name: &str, text: &'a [u8]) -> Option<&'a [u8]>
    ensures { IfSome result
        (λ value. text.now ≡ slash ∷ (name.now ++ (colon ∷ value.now))) }
{
    match name.as_bytes() {
        [only] => after_three(text, [b'/', *only, b':']),
        [first, second] => after_four(text, [b'/', *first, *second, b':']),
        [first, second, third] => after_five(text, [b'/', *first, *second, *third, b':']),
        _ => None,
    }
}

/// What follows three bytes with which a text begins.
#[inline(always)]
pub fn after_three(text: &[u8], three: [u8; 3]) -> Option<&[u8]>
    ensures { IfSome result (λ rest. text.now ≡ three ++ rest.now) }
{
    let [a, b, c] = three;
    match text {
        [first, second, third, rest @ ..] if are_two([*first, *second], [a, b]) && *third == c => {
            Some(rest)
        }
        _ => None,
    }
}

/// What follows four bytes with which a text begins.
#[inline(always)]
pub fn after_four(text: &[u8], four: [u8; 4]) -> Option<&[u8]>
    ensures { IfSome result (λ rest. text.now ≡ four ++ rest.now) }
{
    match text {
        [a, b, c, d, rest @ ..] if are_four([*a, *b, *c, *d], four) => Some(rest),
        _ => None,
    }
}

/// What follows five bytes with which a text begins.
#[inline(always)]
fn after_five(text: &[u8], five: [u8; 5]) -> Option<&[u8]>
    ensures { IfSome result (λ rest. text.now ≡ five ++ rest.now) }
{
    let [a, b, c, d, e] = five;
    match after_four(text, [a, b, c, d])? {
        [last, rest @ ..] if *last == e => Some(rest),
        _ => None,
    }
}

/// Whether two bytes are these. They are compared at once.
#[inline(always)]
fn are_two(read: [u8; 2], wanted: [u8; 2]) -> bool
    ensures { IsTrue result → read ≡ wanted }
{
    u16::from_le_bytes(read) == u16::from_le_bytes(wanted)
}

/// Whether four bytes are these. They are compared at once.
#[inline(always)]
pub(crate) fn are_four(read: [u8; 4], wanted: [u8; 4]) -> bool
    ensures { IsTrue result → read ≡ wanted }
{
    u32::from_le_bytes(read) == u32::from_le_bytes(wanted)
}
