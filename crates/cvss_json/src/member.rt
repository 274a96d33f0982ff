//! Members of JSON objects, and objects of them.

ghost use Rattle.std.specs.Prelude.{◌≡◌, ◌+◌, ◌≤◌, [], ◌∷◌, ◌++◌, Some, length};
ghost use Rattle.std.specs.List.{filter_map};
ghost use Rattle.cvss_json.specs.Json.{Member as MemberText, WritesMember, WritesMembers, comma_if, object_text, string_text};
ghost use Rattle.cvss_json.specs.Scalars.{member_room, member_view, rooms, scalar_room, scalar_text};

use crate::page::Page;

/// The value of a member.
#[derive(Clone, Copy)]
pub enum Scalar<'a> {
    /// So many ten-millionths, as a decimal.
    Decimal(i64),
    /// So many tenths, as a decimal.
    Tenths(u8),
    /// A whole number.
    Whole(u64),
    /// Whole numbers one after another, as a string.
    Digits(&'a [u8]),
    /// A string that needs no escape.
    Text(&'static str),
    /// Null.
    Null,
}

/// A member's name, which needs no escape, and its value.
pub type Member<'a> = (&'static str, Scalar<'a>);

impl Scalar<'_> {
    /// Writes the value.
    pub fn put(self, page: &mut Page)
        requires { length page.old + scalar_room self ≤ 4096 }
        ensures text { page.new ≡ page.old ++ scalar_text self.entry }
        ensures room { length page.new ≤ length page.old + scalar_room self.entry }
    {
        match self {
            Scalar::Decimal(count) => page.decimal(count),
            Scalar::Tenths(tenths) => page.decimal(i64::from(tenths) * 1_000_000),
            Scalar::Whole(number) => page.whole(number),
            Scalar::Digits(numbers) => {
                page.push(b"\"");
                page.digits(numbers);
                page.push(b"\"");
            }
            Scalar::Text(text) => {
                page.push(b"\"");
                page.push_text(text.as_bytes());
                page.push(b"\"");
            }
            Scalar::Null => page.push(b"null"),
        }
    }
}

/// Writes the name of a member and a colon, after a comma where members come before.
pub fn put_name(page: &mut Page, later: bool, name: &str)
    requires { length page.old + length name.now + 4 ≤ 4096 }
    ensures text { page.new ≡ page.old ++ (comma_if later ++ (string_text name.now ++ 58 ∷ [])) }
    ensures room { length page.new ≤ length page.old + length name.now + 4 }
{
    if later {
        page.push(b",");
    }
    page.push(b"\"");
    page.push_text(name.as_bytes());
    page.push(b"\":");
}

/// Writes a member of an object, after a comma where members come before.
pub fn put_member(page: &mut Page, later: bool, name: &str, value: Scalar<'_>)
    requires { length page.old + length name.now + scalar_room value + 4 ≤ 4096 }
    ensures text { WritesMembers later ((name.now, scalar_text value.entry) ∷ [])
        page.old page.new }
    ensures room { length page.new
        ≤ length page.old + length name.now + scalar_room value.entry + 4 }
{
    put_name(page, later, name);
    value.put(page);
}

/// What has at most one member for each key.
pub trait Members<K: Copy> {
    ghost use Rattle.std.specs.Prelude.{ℕ, Option};

    /// The member of a key, if there is one.
    ghost text_at: { Self → K → Option MemberText };

    /// No more bytes than these are written for it.
    ghost room_at: { Self → K → ℕ };

    /// Writes the member of a key, if there is one, after a comma where members come before. Says
    /// whether members are written now.
    fn put_at(&self, page: &mut Page, later: bool, key: K) -> bool
        requires { length page.old + room_at self.now key ≤ 4096 }
        ensures text { WritesMember later (text_at self.now key) result page.old page.new }
        ensures room { length page.new ≤ length page.old + room_at self.now key };
}

/// Writes the object of the members of these keys.
pub fn put_object<K: Copy, T: Members<K>>(page: &mut Page, table: &T, keys: &[K])
    requires { length page.old + rooms (T.room_at table.now) keys.now + 2 ≤ 4096 }
    ensures text { page.new
        ≡ page.old ++ object_text (filter_map (T.text_at table.now) keys.now) }
    ensures room { length page.new ≤ length page.old + rooms (T.room_at table.now) keys.now + 2 }
{
    page.push(b"{");
    let mut later = false;
    for key in keys {
        later = table.put_at(page, later, *key);
    }
    page.push(b"}");
}

/// Members whose values are scalars.
#[derive(Drop)]
pub struct Scalars {}

impl<'a> Members<Member<'a>> for Scalars {
    ghost text_at = { λ _ member. Some (member_view member) };

    ghost room_at = { λ _ member. member_room member };

    fn put_at(&self, page: &mut Page, later: bool, member: Member<'a>) -> bool {
        let (name, value) = member;
        put_member(page, later, name, value);
        true
    }
}
