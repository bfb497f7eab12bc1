//! Where in a line the member is that is at fault.

use crate::forms::{Form, Scope, are_providers, quotes_hint, write_wanted};
use crate::nearest::nearest_name;
use crate::shapes::{Member, Shape, has_data};
use crate::showing::{show_text, show_value};
use json::Value;
use ocpi_json::JsonFault;
use ocpi_text::{CiText, Moment, Party};
use ocpi_types::{Field, IdSet};
use std::alloc::{AllocError, Global};

/// How many objects and lists a line may have within one another, and more.
const MOST_STEPS: usize = 24;

/// A step into an object, or into an element of a list.
#[derive(Clone, Copy)]
struct Step {
    field: Field,
    place: Option<usize>,
}

/// What is sought, and what was seen on the way.
#[derive(Drop)]
struct Search {
    alloc: Global,
    fault: JsonFault,
    path: Vec<Step>,
    /// The member that was looked at last.
    field: Field,
    locations: IdSet,
    evses: IdSet,
    connectors: IdSet,
    nodes: Vec<Party>,
    /// The moment of the price of a site that was looked at last.
    start: Option<Moment>,
    /// What was found there and what is wanted, once the member is found.
    told: String,
}

/// The member that is at fault.
#[derive(Drop)]
pub struct Found {
    /// The path of the object in which it is, with a point at its end; no text for the line's own.
    pub path: String,
    pub field: Field,
    /// What was found there, and what is wanted.
    pub told: String,
}

/// The member of a fault that is of one.
pub fn field_of(fault: JsonFault) -> Option<Field> {
    match fault {
        JsonFault::Missing(field) | JsonFault::WrongForm(field) | JsonFault::UnknownWord(field) => {
            Some(field)
        }
        _ => None,
    }
}

impl Search {
    fn new(alloc: Global, fault: JsonFault) -> Search {
        Search {
            alloc,
            fault,
            path: Vec::new(alloc),
            field: Field::Line,
            locations: IdSet::new(alloc),
            evses: IdSet::new(alloc),
            connectors: IdSet::new(alloc),
            nodes: Vec::new(alloc),
            start: None,
            told: String::new(alloc),
        }
    }

    /// The ids that must differ within an object of that shape are none yet, and no price was looked at.
    fn enter(&mut self, shape: Shape) {
        match shape {
            Shape::Site => {
                self.locations = IdSet::new(self.alloc);
                self.evses = IdSet::new(self.alloc);
                self.start = None;
            }
            Shape::Evse => self.connectors = IdSet::new(self.alloc),
            _ => {}
        }
    }

    /// Whether the fault may be of a member of that name and form.
    fn is_about(&self, field: Field, form: Form) -> bool {
        match self.fault {
            JsonFault::UnknownKind => matches!(form, Form::Name(_)),
            fault => field_of(fault) == Some(field),
        }
    }

    /// Whether an id of that scope was there before. It is there from then on.
    fn is_seen(&mut self, scope: Scope, text: &str) -> Result<bool, AllocError> {
        if let Scope::Nodes = scope {
            return self.is_seen_node(text);
        }
        let Ok(id) = CiText::new(text) else {
            return Ok(false);
        };
        let ids = match scope {
            Scope::Locations => &mut self.locations,
            Scope::Evses => &mut self.evses,
            Scope::Connectors | Scope::Nodes => &mut self.connectors,
        };
        Ok(!ids.insert(&id)?)
    }

    /// Whether a node of that party was there before. It is there from then on.
    fn is_seen_node(&mut self, text: &str) -> Result<bool, AllocError> {
        let Ok(party) = Party::read(text) else {
            return Ok(false);
        };
        if self.nodes.iter().any(|node| node.is_same(&party)) {
            return Ok(true);
        }
        self.nodes.push(party)?;
        Ok(false)
    }

    /// Whether a moment is later than that of the price before. The next is compared with it.
    fn is_later(&mut self, text: &str) -> bool {
        let Ok(start) = Moment::read(text) else {
            return true;
        };
        let is_later = match self.start {
            Some(before) => before < start,
            None => true,
        };
        self.start = Some(start);
        is_later
    }

    /// Where a value is at fault, says what was found and what is wanted, and answers whether it is.
    fn judge(
        &mut self,
        form: Form,
        value: &Value<'_>,
        object: &Value<'_>,
    ) -> Result<bool, AllocError> {
        match self.fault {
            JsonFault::UnknownWord(_) | JsonFault::UnknownKind => self.judge_word(form, value),
            JsonFault::WrongForm(_) => self.judge_form(form, value, object),
            _ => Ok(false),
        }
    }

    /// The same, of a word that may not be one of its list.
    fn judge_word(&mut self, form: Form, value: &Value<'_>) -> Result<bool, AllocError> {
        match (form.words(), value) {
            (Some(list), Value::String(word)) if !list.has(word) => self.tell_wrong(form, value),
            _ => Ok(false),
        }
    }

    /// The same, of a value that may have another form, or be there before.
    fn judge_form(
        &mut self,
        form: Form,
        value: &Value<'_>,
        object: &Value<'_>,
    ) -> Result<bool, AllocError> {
        if !form.is_met(value) || has_bad_provider(form, value, object) {
            return self.tell_wrong(form, value);
        }
        match (form, value) {
            (Form::NewId(scope), Value::String(id)) => {
                if self.is_seen(scope, id)? {
                    return self.tell_repeated(id);
                }
                Ok(false)
            }
            (Form::LaterMoment, Value::String(text)) => {
                if !self.is_later(text) {
                    return self.tell_not_later(text);
                }
                Ok(false)
            }
            _ => Ok(false),
        }
    }

    fn tell_wrong(&mut self, form: Form, value: &Value<'_>) -> Result<bool, AllocError> {
        self.told.push_str("found ")?;
        show_value(value, &mut self.told)?;
        self.told.push_str("; wanted ")?;
        write_wanted(form, &mut self.told)?;
        self.told.push_str(quotes_hint(form, value))?;
        Ok(true)
    }

    fn tell_repeated(&mut self, id: &str) -> Result<bool, AllocError> {
        self.told.push_str("found ")?;
        show_text(id, &mut self.told)?;
        self.told.push_str(" a second time; wanted another, as no two may be equal in any case")?;
        Ok(true)
    }

    fn tell_not_later(&mut self, moment: &str) -> Result<bool, AllocError> {
        self.told.push_str("found ")?;
        show_text(moment, &mut self.told)?;
        self.told
            .push_str("; wanted a moment later than that of the entry before")?;
        Ok(true)
    }

    fn tell_missing(
        &mut self,
        field: Field,
        form: Form,
        object: &Value<'_>,
    ) -> Result<bool, AllocError> {
        let found = if object.get(field.name()).is_some() {
            "found null; wanted "
        } else {
            "found nothing; wanted "
        };
        self.told.push_str(found)?;
        write_wanted(form, &mut self.told)?;
        if let Some(name) = nearest_name(self.alloc, field.name(), object)? {
            self.told.push_str(". Is it misspelled as ")?;
            show_text(name, &mut self.told)?;
            self.told.push('?')?;
        }
        Ok(true)
    }

    /// Looks at a member of an object, and answers whether it is at fault.
    fn look(
        &mut self,
        field: Field,
        form: Form,
        is_needed: bool,
        object: &Value<'_>,
    ) -> Result<bool, AllocError> {
        if !self.is_about(field, form) || is_passed_over(form, object) {
            return Ok(false);
        }
        self.field = field;
        match object.get(field.name()) {
            None | Some(Value::Null) => {
                if is_needed && matches!(self.fault, JsonFault::Missing(_)) {
                    return self.tell_missing(field, form, object);
                }
                Ok(false)
            }
            Some(value) => self.judge(form, value, object),
        }
    }
}

/// Whether a member of that form is not looked at in that object.
fn is_passed_over(form: Form, object: &Value<'_>) -> bool {
    matches!(form, Form::Data(_)) && !has_data(object)
}

/// Whether a value is a list of providers of which one is no party, or is one of those before it or the operator.
fn has_bad_provider(form: Form, value: &Value<'_>, object: &Value<'_>) -> bool {
    match (form, value) {
        (Form::Providers, Value::Array(items)) => {
            let operator = object.get(Field::Party.name()).and_then(Value::as_str);
            !are_providers(items.as_slice(), operator.unwrap_or(""))
        }
        _ => false,
    }
}

/// Looks at the members of an object of that shape, and of those within it, in the order in which their faults are
/// told, and answers whether one is at fault.
#[cycle(walk)]
fn walk(
    search: &mut Search,
    shape: Shape,
    object: &Value<'_>,
    steps: usize,
) -> Result<bool, AllocError> {
    if steps == 0 {
        return Ok(false);
    }
    search.enter(shape);
    for member in shape.members() {
        if walk_member(search, *member, object, steps - 1)? {
            return Ok(true);
        }
    }
    Ok(false)
}

#[cycle(walk)]
fn walk_member(
    search: &mut Search,
    member: Member,
    object: &Value<'_>,
    steps: usize,
) -> Result<bool, AllocError> {
    let (field, form, is_needed) = match member {
        Member::Needed(field, form) => (field, form, true),
        Member::Maybe(field, form) => (field, form, false),
        Member::Others(choice) => {
            return match choice.shape_in(object) {
                Some(shape) => walk(search, shape, object, steps),
                None => Ok(false),
            };
        }
    };
    if search.look(field, form, is_needed, object)? {
        return Ok(true);
    }
    let Some(value) = object.get(field.name()) else {
        return Ok(false);
    };
    if let Some(shape) = form.element_shape() {
        return match value {
            Value::Array(items) => walk_items(search, field, shape, items.as_slice(), steps),
            _ => Ok(false),
        };
    }
    match form.shape_in(object) {
        Some(shape) => {
            let step = Step { field, place: None };
            walk_inside(search, step, shape, value, steps)
        }
        None => Ok(false),
    }
}

#[cycle(walk)]
fn walk_items(
    search: &mut Search,
    field: Field,
    shape: Shape,
    items: &[Value<'_>],
    steps: usize,
) -> Result<bool, AllocError> {
    for (place, item) in items.iter().enumerate() {
        let step = Step {
            field,
            place: Some(place),
        };
        if walk_inside(search, step, shape, item, steps)? {
            return Ok(true);
        }
    }
    Ok(false)
}

/// Looks into a value where it is an object.
#[cycle(walk)]
fn walk_inside(
    search: &mut Search,
    step: Step,
    shape: Shape,
    value: &Value<'_>,
    steps: usize,
) -> Result<bool, AllocError> {
    if !matches!(value, Value::Object(_)) {
        return Ok(false);
    }
    search.path.push(step)?;
    let is_found = walk(search, shape, value, steps)?;
    if !is_found {
        search.path.pop();
    }
    Ok(is_found)
}

/// The path of an object, with a point at its end.
fn write_path(alloc: Global, path: &[Step]) -> Result<String, AllocError> {
    let mut text = String::new(alloc);
    for step in path {
        text.push_str(step.field.name())?;
        if let Some(place) = step.place {
            write!(text, "[{place}]")?;
        }
        text.push('.')?;
    }
    Ok(text)
}

/// The member of a line of that shape that has that fault, which is the first one of the line; none, where the line is
/// no object or the fault is of no member.
pub fn find(
    alloc: Global,
    fault: JsonFault,
    shape: Shape,
    line: &Value<'_>,
) -> Result<Option<Found>, AllocError> {
    let mut search = Search::new(alloc, fault);
    if !walk(&mut search, shape, line, MOST_STEPS)? {
        return Ok(None);
    }
    let path = write_path(alloc, search.path.as_slice())?;
    let field = search.field;
    Ok(Some(Found {
        path,
        field,
        told: search.told,
    }))
}
