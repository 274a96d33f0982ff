//! The fields of a record.

ghost use Rattle.std.specs.Iterator.{item_count};
ghost use Rattle.std.specs.Prelude.{◌≡◌, ◌∷◌, [], MatchOption, drop, take};
ghost use Rattle.cvss_csv.specs.Fields.{fields};
ghost use Rattle.cvss_csv.specs.private.Cutting.{IsNextField, fields_left};

use crate::cutting::cut_first;
use crate::state::{COMMA, State};

/// The fields of a record, in order. It takes no memory, and looks at each byte once.
#[derive(Clone, Copy)]
pub(crate) struct Fields<'a> {
    /// The fields that are left, with the commas between them.
    rest: Option<&'a [u8]>,
}

impl<'a> Fields<'a> {
    /// Those of a record, which is given without its line end.
    pub(crate) fn of(body: &'a [u8]) -> Fields<'a>
        ensures { fields_left result ≡ fields body.now }
    {
        Fields { rest: Some(body) }
    }

    /// The next field.
    fn cut_next(&mut self) -> Option<&'a [u8]>
        ensures { IsNextField self.old result self.new }
    {
        let rest = self.rest?;
        match cut_first(COMMA, State::Start, rest) {
            Ok((field, following)) => {
                self.rest = Some(following);
                Some(field)
            }
            Err(_) => {
                self.rest = None;
                Some(rest)
            }
        }
    }
}

impl<'a> Iterator for Fields<'a> {
    type Item = &'a [u8];

    ghost next_gives = { IsNextField };

    ghost remaining = { item_count fields_left };

    fn next(&mut self) -> Option<&'a [u8]> {
        self.cut_next()
    }
}

/// The field of a record with this index, if there is one.
pub(crate) fn field_at(index: usize, body: &[u8]) -> Option<&[u8]>
    ensures { MatchOption result (take 1 (drop index (fields body.now)) ≡ [])
        (λ field. take 1 (drop index (fields body.now)) ≡ field.now ∷ []) }
{
    let mut fields = Fields::of(body);
    let mut left = index;
    while let Some(field) = fields.next() {
        if left == 0 {
            return Some(field);
        }
        left -= 1;
    }
    None
}
