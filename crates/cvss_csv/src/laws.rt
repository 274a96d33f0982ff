//! Laws, each the contract of a function that does nothing.

ghost use Rattle.std.specs.Prelude.{◌≡◌, ℕ, List, [], ◌∷◌, ◌++◌, false, flat_map};
ghost use Rattle.std.specs.List.{join_with_byte};
ghost use Rattle.cvss_base.specs.Equality.{ClonesAlways, ClonesByValue, EqualsByValue};
ghost use Rattle.cvss_csv.specs.Fields.{comma, fields, value};
ghost use Rattle.cvss_csv.specs.Quoting.{field_of};
ghost use Rattle.cvss_csv.specs.Records.{is_open, record_text, records};

use crate::asked::{Asked, Cells, Column};
use crate::fault::CsvFault;
use crate::fields::Fields;
use crate::layout::Layout;
use crate::state::State;
use crate::tally::Count;

/// The fields of a record with the commas between them are the record, and the records of a text one
/// after another are the text.
#[tactic(auto, using(crate::proofs::JoiningLemmas::join_fields, crate::proofs::JoiningLemmas::join_records))]
pub fn what_is_cut_is_joined()
    ensures fields { (body : List ℕ) → join_with_byte comma (fields body) ≡ body }
    ensures records { (text : List ℕ) → flat_map record_text (records text) ≡ text }
{}

/// A text that is written as a field is one field, and has the text as its value.
#[tactic(auto, using(crate::proofs::ValueLemmas::field_of_one, crate::proofs::ValueLemmas::value_of_field))]
pub fn texts_are_values_of_their_fields()
    ensures one { (text : List ℕ) → fields (field_of text) ≡ field_of text ∷ [] }
    ensures value { (text : List ℕ) → value (field_of text) ≡ text }
{}

/// Fields that are appended to a record after a comma are its last ones, unless its last field is not
/// closed.
#[tactic(auto, using(crate::proofs::JoiningLemmas::append_fields))]
pub fn appended_fields_are_the_last()
    ensures { (body more : List ℕ) → is_open body ≡ false
        → fields (body ++ comma ∷ more) ≡ fields body ++ fields more }
{}

/// Two faults are equal exactly if they are one value.
pub fn equality_is_that_of_values()
    ensures fault { EqualsByValue ⟦<CsvFault as PartialEq>⟧.eq }
{}

/// A clone of what is asked, of a layout, of a fault, of a state, of a count or of fields is that value.
pub fn clones_are_equal()
    ensures asked { ClonesByValue ⟦<Asked as Clone>⟧.is_clone }
    ensures cells { ClonesByValue ⟦<Cells as Clone>⟧.is_clone }
    ensures column { ClonesByValue ⟦<Column<'static> as Clone>⟧.is_clone }
    ensures layout { ClonesByValue ⟦<Layout as Clone>⟧.is_clone }
    ensures fault { ClonesByValue ⟦<CsvFault as Clone>⟧.is_clone }
    ensures state { ClonesByValue ⟦<State as Clone>⟧.is_clone }
    ensures count { ClonesByValue ⟦<Count as Clone>⟧.is_clone }
    ensures fields { ClonesByValue ⟦<Fields<'static> as Clone>⟧.is_clone }
{}

/// To clone them takes no memory, so it is never refused.
pub fn values_are_cloned_without_memory()
    ensures asked { ClonesAlways ⟦<Asked as Clone>⟧.is_infallible }
    ensures cells { ClonesAlways ⟦<Cells as Clone>⟧.is_infallible }
    ensures column { ClonesAlways ⟦<Column<'static> as Clone>⟧.is_infallible }
    ensures layout { ClonesAlways ⟦<Layout as Clone>⟧.is_infallible }
    ensures fault { ClonesAlways ⟦<CsvFault as Clone>⟧.is_infallible }
    ensures state { ClonesAlways ⟦<State as Clone>⟧.is_infallible }
    ensures count { ClonesAlways ⟦<Count as Clone>⟧.is_infallible }
    ensures fields { ClonesAlways ⟦<Fields<'static> as Clone>⟧.is_infallible }
{}
