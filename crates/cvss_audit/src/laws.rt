//! Laws of locations, objects and records, each the contract of a function that does nothing. A proof
//! that needs a law calls it.

ghost use Rattle.std.specs.Prelude.{◌≡◌, All, Float, ℕ, List, Some, true};
ghost use Rattle.cvss_vector.specs.declared.vector.Cvss.{Cvss};
ghost use Rattle.cvss_base.specs.Equality.{ClonesAlways, ClonesByValue, EqualsByValue};
ghost use Rattle.cvss_audit.specs.Members.{Member, object_of};
ghost use Rattle.cvss_audit.specs.Locations.{locations_in};
ghost use Rattle.cvss_audit.specs.SubScores.{is_below_zero};
ghost use Rattle.cvss_audit.specs.Texts.{IsTextOf};
ghost use Rattle.cvss_audit.specs.laws.Impacts.{IsNearMinusTwoTenths};
ghost use Rattle.cvss_audit.specs.laws.ObjectTexts.{AreInOrder, AreMemberTexts, IsUnescaped};
ghost use Rattle.cvss_audit.specs.laws.Pointers.{HasNamesOnce, LeadsTo};
ghost use Rattle.cvss_audit.specs.laws.Records.{AreInRange, record_members};
ghost use Rattle.cvss_report.specs.Record.{IsRecordText};
ghost use Rattle.cvss_json.specs.Json as written;
ghost use Rattle.cvss_laws.specs.any.GivenBack.{IsGivenBack};
ghost use Rattle.cvss_score.specs.v3.Scores.{impact};
ghost use Rattle.cvss_score.specs.declared.v3.weights.Weights.{Weights};
ghost use Rattle.json.specs.Print.{IsNumber};
ghost use Rattle.serde_json.specs.Data.{Data, float, number, object, string};
ghost use Rattle.serde_json.specs.Read.{number_of};

use crate::{Around, AuditForm, Context, Counts, Form};
use cvss_laws::any::texts_denote_one_vector;

/// In a document whose objects have each name once, as a document has that was read, the pointer of
/// each location leads to the location's object.
pub fn pointers_lead_to_objects()
    ensures { (document : Data) → HasNamesOnce document
        → All (λ location. LeadsTo location.0 document (object location.3)) (locations_in document) }
{}

/// A record determines its vector: two vectors that their own texts give back, as each vector is that
/// was read from a text, are equal if one text is the record of both.
pub fn records_report_vectors()
    ensures { (left right : Cvss) → (text : List ℕ) → IsGivenBack left → IsGivenBack right
        → IsRecordText left text → IsRecordText right text → left ≡ right }
{
    texts_denote_one_vector();
}

/// What `cvss_json` writes reads back: an object as the object with its members, if they are in the
/// order of their names; a string without escapes as that string; a number as the float that the reader
/// makes of it.
pub fn written_objects_read_back()
    ensures object { (members : List Member) (texts : List written.Member) → AreInOrder members
        → AreMemberTexts members texts → IsTextOf (object_of members) (written.object_text texts) }
    ensures string { (text : List ℕ) → IsUnescaped text
        → IsTextOf (string text) (written.string_text text) }
    ensures float { (value : Float) (text : List ℕ) → IsNumber text
        → number_of text ≡ Some (float value) → IsTextOf (number (float value)) text }
{}

/// A vector's record reads back as the object with its members: strings, and of each score the double
/// that is nearest to it.
pub fn records_read_back()
    ensures { (cvss : Cvss) (text : List ℕ) (reported : IsRecordText cvss text)
        → AreInRange reported.scores
        → IsTextOf (object_of (record_members cvss reported.scores)) text }
{
    cvss_report::laws::members_are_in_order();
    written_objects_read_back();
}

/// Where Impact of CVSS v3 is below 0, -0.2 is the tenth that is nearest to it.
pub fn impacts_below_zero_are_near_minus_two_tenths()
    ensures { (w : Weights) → is_below_zero w ≡ true → IsNearMinusTwoTenths (impact w) }
{}

/// Two forms are equal exactly if they are one value.
pub fn equality_is_that_of_values()
    ensures { EqualsByValue ⟦<Form as PartialEq>⟧.eq }
{}

/// A clone of a form, of counts, or of what is around a location, is that value.
pub fn clones_are_equal()
    ensures audit_form { ClonesByValue ⟦<AuditForm as Clone>⟧.is_clone }
    ensures around { ClonesByValue ⟦<Around<'static> as Clone>⟧.is_clone }
    ensures context { ClonesByValue ⟦<Context<'static> as Clone>⟧.is_clone }
    ensures counts { ClonesByValue ⟦<Counts as Clone>⟧.is_clone }
    ensures form { ClonesByValue ⟦<Form as Clone>⟧.is_clone }
{}

/// To clone a form, counts, or what is around a location, takes no memory, so it is never refused.
pub fn values_are_cloned_without_memory()
    ensures audit_form { ClonesAlways ⟦<AuditForm as Clone>⟧.is_infallible }
    ensures around { ClonesAlways ⟦<Around<'static> as Clone>⟧.is_infallible }
    ensures context { ClonesAlways ⟦<Context<'static> as Clone>⟧.is_infallible }
    ensures counts { ClonesAlways ⟦<Counts as Clone>⟧.is_infallible }
    ensures form { ClonesAlways ⟦<Form as Clone>⟧.is_infallible }
{}
