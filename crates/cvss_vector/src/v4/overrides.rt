//! How the texts of environmental metrics are read. It takes no memory: a fault borrows the part of
//! the text that it names.

ghost use Rattle.std.specs.Prelude.{◌≡◌, ◌↔◌, IsTrue, IfOk, IfErr, IsOk, OnOk, IsUtf8, length};
ghost use Rattle.cvss_base.specs.Text.{IsComponent};
ghost use Rattle.cvss_vector.specs.v4.Overriding.{AreOverrides, HasNoObjectionBefore, IsFirstObjection, IsOfOtherGroup};
ghost use Rattle.cvss_vector.specs.v4.private.OverridingSteps.{AddsOverride, IsObjectionTo, IsPrintableFault, objection_of};

use crate::v4::vector::Vector;
use cvss_base::MetricGroup;
use cvss_metric::v4::MetricType;
use cvss_text::cutting::cut_component;
use cvss_text::pieces::is_component;
use cvss_text::texts::Texts;
use cvss_text::walk::{Fault, read_component};

/// Why a text is no override, with the part of the text that is at fault.
#[derive(Drop)]
pub enum OverrideFault<'a> {
    /// The metric is of another group.
    OtherGroup,
    /// The text is rejected as a component of a vector is.
    Component(Fault<'a, MetricType>),
}

/// The vector of environmental metrics whose components the texts are; or else the index of the first
/// text that is none, and why.
pub fn read_overrides<'a, T: Texts<'a>>(texts: T) -> Result<Vector, (usize, OverrideFault<'a>)>
    ensures accepted { IfOk result (AreOverrides (T.texts texts)) }
    ensures version { IfOk result (λ vector. vector.minor_version ≡ 0) }
    ensures accepts { (vector : Vector) → AreOverrides (T.texts texts) vector → IsOk result }
    ensures faultless { OnOk result
        (HasNoObjectionBefore (T.texts texts) (length (T.texts texts))) }
    ensures rejected { IfErr result
        (λ rejected. IsFirstObjection (T.texts texts) rejected.0 (objection_of rejected.1)) }
    ensures printable { T.are_utf8 → IfErr result (λ rejected. IsPrintableFault rejected.1) }
{
    let mut given = Vector::empty();
    let mut left = texts;
    while let Some(cut) = left.first_text() {
        let (text, after) = cut;
        if let Err(fault) = read_override(text, &mut given) {
            return Err((texts.count() - left.count(), fault));
        }
        left = after;
    }
    Ok(given)
}

/// Reads one override into the vector that holds those before it.
fn read_override<'a>(text: &'a [u8], given: &mut Vector) -> Result<(), OverrideFault<'a>>
    ensures read { OnOk result (AddsOverride given.old text.now given.new) }
    ensures rejected { IfErr result
        (λ fault. IsObjectionTo given.old text.now (objection_of fault)) }
    ensures printable { IsUtf8 text.now → IfErr result IsPrintableFault }
{
    if !is_component(text) {
        return Err(OverrideFault::Component(Fault::InvalidComponent(text)));
    }
    if is_of_other_group(text) {
        return Err(OverrideFault::OtherGroup);
    }
    match read_component(text, given) {
        Ok(()) => Ok(()),
        Err(fault) => Err(OverrideFault::Component(fault)),
    }
}

/// Whether the component is of a metric of another group.
fn is_of_other_group(component: &[u8]) -> bool
    requires { IsComponent component.now }
    ensures { IsTrue result ↔ IsOfOtherGroup component.now }
{
    match cut_component::<Vector>(component) {
        Ok((kind, _)) => !matches!(kind.group(), MetricGroup::Environmental),
        Err(_) => false,
    }
}
