//! Where vectors are in a document, one location after another.

ghost use Rattle.std.specs.Prelude.{◌≡◌, ◌++◌, ◌∷◌, [], IfOk, OnOk, map, option_map, string_bytes};
ghost use Rattle.std.specs.Option.{option_to_list};
ghost use Rattle.cvss_audit.specs.Locations.{context_view, location_as, location_view, locations_in};
ghost use Rattle.cvss_audit.specs.LocationsLeft.{IsNextLocation, locations_left, under};
ghost use Rattle.cvss_audit.specs.private.Walking.{Enters, Visits, level_of, pointer_to};
ghost use Rattle.serde_json.specs.View.{members_view, view};
ghost use Rattle.cvss_audit.specs.declared.locations.walk.Rest.TheVariants.{Items, Object};

use crate::locations::form::{FORMS, Form, vector_as};
use crate::locations::ids::own_context;
use crate::locations::location::{Context, Location, member_context};
use crate::locations::pointer::{Step, push_step};
use serde_json::{Map, Value};
use std::alloc::{AllocError, Global};
use std::collections::btree_map::Iter;

/// The locations of the vectors in a document, each reported when it is asked for. What is kept in
/// the meantime grows with the depth of the document alone.
#[derive(Drop)]
pub struct Locations<'a> {
    /// What is still to be visited, each level in the one before it.
    levels: Vec<Level<'a>>,
}

/// What is still to be visited in a value, and the step that leads to it.
#[derive(Drop)]
pub(crate) struct Level<'a> {
    step: Step<'a>,
    rest: Rest<'a>,
}

/// What is still to be visited in a value.
#[derive(Drop)]
pub(crate) enum Rest<'a> {
    /// The items of an array from this one, in the context of the array.
    Items(&'a [Value], usize, Context<'a>),
    /// An object's own vectors in these forms, and then these of its members.
    Object(&'a Map<String, Value>, Context<'a>, &'static [Form], Iter<'a, String, Value>),
}

/// The locations of all vectors in a document: an object's own before those in it, those of its
/// members in the order of their names, and those of an array's items in their order.
///
/// # Errors
///
/// Out of memory.
pub fn vectors_in(alloc: Global, document: &Value) -> Result<Locations<'_>, AllocError>
    ensures { IfOk result (λ locations. locations_left locations ≡ locations_in (view document.now)) }
{
    let mut locations = Locations {
        levels: Vec::new(alloc),
    };
    let context = Context {
        around: None,
        id: None,
    };
    locations.enter(Step::Document, document, context)?;
    Ok(locations)
}

impl<'a> Locations<'a> {
    /// The next location, if there is one more.
    ///
    /// # Errors
    ///
    /// Out of memory, after which locations may be passed over.
    pub fn next_location(&mut self, alloc: Global) -> Result<Option<Location<'a>>, AllocError>
        ensures { IfOk result (λ found. IsNextLocation (locations_left self.old) found (locations_left self.new)) }
    {
        while let Some(level) = self.levels.pop() {
            if let Some(location) = self.visit(alloc, level)? {
                return Ok(Some(location));
            }
        }
        Ok(None)
    }

    /// Visits what is next in a level that is in all that are left.
    fn visit(&mut self, alloc: Global, level: Level<'a>) -> Result<Option<Location<'a>>, AllocError>
        ensures { IfOk result (λ found. Visits (self.old.levels.items ++ level.entry ∷ [])
            (option_to_list (option_map location_view found)) self.new.levels.items) }
    {
        let step = level.step;
        match level.rest {
            Rest::Items(items, index, context) => {
                self.visit_item(step, items, index, context)?;
                Ok(None)
            }
            Rest::Object(object, context, forms, members) => {
                self.visit_object(alloc, step, object, context, forms, members)
            }
        }
    }

    /// Visits an object in the first of these forms, or in the next of these members if there is none.
    fn visit_object(
        &mut self,
        alloc: Global,
        step: Step<'a>,
        object: &'a Map<String, Value>,
        context: Context<'a>,
        forms: &'static [Form],
        members: Iter<'a, String, Value>,
    ) -> Result<Option<Location<'a>>, AllocError>
        ensures { IfOk result (λ found. Visits
            (self.old.levels.items
            ++ level_of step.entry (Object object.entry context.entry forms.entry members.entry) ∷ [])
            (option_to_list (option_map location_view found)) self.new.levels.items) }
    {
        match forms.split_first() {
            Some((form, later)) => {
                self.push(step, Rest::Object(object, context, later, members))?;
                self.own_location(alloc, object, context, *form)
            }
            None => {
                self.visit_member(step, object, context, forms, members)?;
                Ok(None)
            }
        }
    }

    /// Visits an item of an array, if there is one: what is in it is visited before those after it.
    fn visit_item(
        &mut self,
        step: Step<'a>,
        items: &'a [Value],
        index: usize,
        context: Context<'a>,
    ) -> Result<(), AllocError>
        ensures { OnOk result (Visits
            (self.old.levels.items ++ level_of step.entry (Items items.entry index context.entry) ∷ [])
            [] self.new.levels.items) }
    {
        if let Some(item) = items.get(index) {
            self.push(step, Rest::Items(items, index + 1, context))?;
            self.enter(Step::Item(index), item, context)?;
        }
        Ok(())
    }

    /// Visits the next member of an object of which all forms are visited, if there is one: what is in
    /// it is visited before those after it.
    fn visit_member(
        &mut self,
        step: Step<'a>,
        object: &'a Map<String, Value>,
        context: Context<'a>,
        forms: &'static [Form],
        members: Iter<'a, String, Value>,
    ) -> Result<(), AllocError>
        ensures { forms.now ≡ [] → OnOk result (Visits
            (self.old.levels.items
            ++ level_of step.entry (Object object.entry context.entry forms.entry members.entry) ∷ [])
            [] self.new.levels.items) }
    {
        let mut later = members;
        if let Some((name, value)) = later.next() {
            let name = name.as_str();
            self.push(step, Rest::Object(object, context, forms, later))?;
            self.enter(
                Step::Member(name),
                value,
                member_context(context, object, name),
            )?;
        }
        Ok(())
    }

    /// What is in a value is visited next.
    fn enter(
        &mut self,
        step: Step<'a>,
        value: &'a Value,
        context: Context<'a>,
    ) -> Result<(), AllocError>
        ensures { OnOk result (Enters step.entry (context_view context.entry) (view value.now)
            self.old.levels.items self.new.levels.items) }
    {
        match value {
            Value::Array(items) => self.push(step, Rest::Items(items, 0, context)),
            Value::Object(object) => {
                let own = own_context(context, object);
                self.push(step, Rest::Object(object, own, FORMS, object.iter()))
            }
            _ => Ok(()),
        }
    }

    /// The location of an object itself, to which all levels lead, if it holds a vector in this form.
    fn own_location(
        &self,
        alloc: Global,
        object: &'a Map<String, Value>,
        context: Context<'a>,
        form: Form,
    ) -> Result<Option<Location<'a>>, AllocError>
        ensures { IfOk result (λ found. option_to_list (option_map location_view found)
            ≡ map (under (pointer_to self.now.levels.items)) (option_to_list
            (location_as (context_view context.entry) (members_view object.now.entries) form))) }
    {
        let Some(text) = vector_as(context.around, object, form) else {
            return Ok(None);
        };
        Ok(Some(Location {
            at: pointer(alloc, &self.levels)?,
            form,
            text,
            object,
            context,
        }))
    }

    fn push(&mut self, step: Step<'a>, rest: Rest<'a>) -> Result<(), AllocError>
        ensures { OnOk result (self.new.levels.items
            ≡ self.old.levels.items ++ level_of step.entry rest.entry ∷ []) }
    {
        self.levels.push(Level { step, rest })?;
        Ok(())
    }
}

/// The JSON Pointer to the value of the last level.
fn pointer(alloc: Global, levels: &[Level<'_>]) -> Result<String, AllocError>
    ensures { IfOk result (λ text. string_bytes text ≡ pointer_to levels.now) }
{
    let mut text = String::new(alloc);
    for level in levels {
        push_step(&mut text, level.step)?;
    }
    Ok(text)
}
