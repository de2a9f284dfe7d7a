//! What is wrong with a line, and how it is found.

ghost use Rattle.std.specs.Prelude.{◌≡◌, ◌∷◌, ℕ, List, map, ◌||◌, ◌⊎◌, true, false, IfOk, IfSome, MatchOption};
ghost use Rattle.std.specs.Option.{option_map};
ghost use Rattle.mx_lint.specs.Faults.{HasFields, HasItems, IsFault, IsRight, IsSpace};
ghost use Rattle.mx_lint.specs.Fields.{is_definition_text, is_object_link_text};
ghost use Rattle.mx_lint.specs.Findings.{AreAllItems, HasRead, IsFaultBehind, IsFaultIn, IsFieldFault, IsItemFault, IsSeenToo};
ghost use Rattle.mx_lint.specs.Forms.{fields_of, group_of, IsNoWord};
ghost use Rattle.mx_lint.specs.Objects.{item_field, symbol_of};
ghost use Rattle.mx_lint.specs.Orders.{has_class, is_out_of_place, is_too_new};
ghost use Rattle.mx_lint.specs.Pieces.{first_piece, pieces_left, pieces_of};

use crate::causes::{Cause, cause_of};
use crate::fields::Field;
use crate::forms::Form;
use crate::orders::Order;
use crate::places::Place;
use crate::reading::{after, is_definition, is_object_link};
use crate::texts::Shown;
use mx_aim::Class;
use mx_name::cut;
use std::alloc::{AllocError, Global};
use std::fmt::{self, Display, Formatter, Write};

/// What is wrong with a line.
#[derive(Clone, Copy)]
pub enum Fault<'a> {
    /// The text ends where this may come next.
    TextEnds(Place),
    /// The line is right, but it has no newline.
    NoNewline,
    /// The line is empty.
    Empty,
    /// The line ends with a carriage return.
    CarriageReturn,
    /// A space too many, or a tab.
    Space(Space),
    /// No kind of line begins with this word.
    UnknownWord(&'a [u8]),
    /// A line of this kind cannot stand here.
    Order(Form, Order),
    /// A field is missing.
    Missing(Form, Field),
    /// A field has a text that it cannot have.
    Wrong(Form, Field, &'a [u8]),
    /// There is more behind the last field.
    Extra(Form, &'a [u8]),
    /// A definition of an object stands behind a link.
    DefinitionBehindLink(&'a [u8]),
    /// A symbol of an object was defined before.
    DefinedTwice(&'a [u8]),
    /// A line that is right by itself.
    Unexplained,
}

/// A space that cannot stand where it is, by its column, counted from 1.
#[derive(Clone, Copy)]
pub enum Space {
    /// A tab.
    Tab(usize),
    /// A space after a space.
    Second(usize),
    /// A space at the beginning.
    First,
    /// A space at the end.
    Last(usize),
}

/// What is wrong with the line that begins here, in a session of this version; behind it there is a newline, or the text ends.
pub(crate) fn fault_of<'a>(
    alloc: Global,
    version: u8,
    place: Place,
    line: &'a [u8],
    ends: bool,
) -> Result<Fault<'a>, AllocError>
    ensures { IfOk result (IsFault place version line.now ends) }
{
    if ends && line.is_empty() && !matches!(place, Place::Ended) {
        return Ok(Fault::TextEnds(place));
    }
    match fault_in(alloc, version, place, line)? {
        Some(fault) => Ok(fault),
        None if ends => Ok(Fault::NoNewline),
        None => Ok(Fault::Unexplained),
    }
}

fn fault_in<'a>(
    alloc: Global,
    version: u8,
    place: Place,
    line: &'a [u8],
) -> Result<Option<Fault<'a>>, AllocError>
    ensures { IfOk result (λ found. MatchOption found (IsRight place version line.now) (IsFaultIn place version line.now)) }
{
    if let Some(fault) = layout_fault(place, line) {
        return Ok(Some(fault));
    }
    let (word, fields) = first_piece(line);
    let Some(form) = Form::read(word) else {
        return Ok(Some(unknown_word(place, word)));
    };
    match order_fault(version, place, form, fields) {
        Some(order) => Ok(Some(Fault::Order(form, order))),
        None => field_fault(alloc, form, fields),
    }
}

// What is wrong with a line that begins with a word that no kind has.
fn unknown_word<'a>(place: Place, word: &'a [u8]) -> Fault<'a>
    requires { IsNoWord word.now }
    ensures { (version : ℕ) (line : List ℕ) → word.now ≡ first_piece line → IsFaultIn place version line result }
{
    match place {
        Place::Start => Fault::Order(Form::Header, Order::FirstIsHeader),
        _ => Fault::UnknownWord(word),
    }
}

// Why a line of this kind, with this behind its word, cannot stand here, if so.
fn order_fault(version: u8, place: Place, form: Form, fields: Option<&[u8]>) -> Option<Order>
    ensures { let is_wrong = λ (order : Order). is_out_of_place order place (group_of form)
        || is_too_new order version form (pieces_left (option_map (λ rest. rest.now) fields.entry)) in
        MatchOption result ((order : Order) → is_wrong order ≡ false) (λ order. is_wrong order ≡ true) }
{
    match place.refuses(form.group()) {
        Some(order) => Some(order),
        None => version_fault(version, form, fields),
    }
}

// Why a session of this version cannot have the line, if so.
fn version_fault(version: u8, form: Form, fields: Option<&[u8]>) -> Option<Order>
    ensures { let is_new = λ (order : Order). is_too_new order version form (pieces_left (option_map (λ rest. rest.now) fields.entry)) in
        MatchOption result ((order : Order) → is_new order ≡ false) (λ order. is_new order ≡ true) }
{
    let since = form.since();
    if since == 2 && version < 2 {
        return Some(Order::FromVersionTwo);
    }
    if since == 3 && version < 3 {
        return Some(Order::FromVersionThree);
    }
    if version == 1 && form.group().is_process() && have_class(fields) {
        return Some(Order::ClassInVersionOne);
    }
    None
}

// Whether a principal and a class stand there.
fn have_class(fields: Option<&[u8]>) -> bool
    ensures { result ≡ has_class (pieces_left (option_map (λ rest. rest.now) fields.entry)) }
{
    match fields {
        Some(fields) => has_class(fields),
        None => false,
    }
}

// Whether a principal and a class stand there.
fn has_class(fields: &[u8]) -> bool
    ensures { result ≡ has_class (pieces_of fields.now) }
{
    let (_, rest) = first_piece(fields);
    match rest {
        Some(rest) => is_class_alone(rest),
        None => false,
    }
}

// Whether a class stands there, and no more.
fn is_class_alone(text: &[u8]) -> bool
    ensures { (principal : List ℕ) → result ≡ has_class (principal ∷ pieces_of text.now) }
{
    match first_piece(text) {
        (class, None) => Class::read(class).is_some(),
        (_, Some(_)) => false,
    }
}

// What stands before the first space, and what behind it, if there is one.
fn first_piece(text: &[u8]) -> (&[u8], Option<&[u8]>)
    ensures first { result.0.now ≡ first_piece text.now }
    ensures pieces { pieces_of text.now ≡ result.0.now ∷ pieces_left (option_map (λ rest. rest.now) result.1) }
{
    match cut(b' ', text) {
        Some((piece, rest)) => (piece, Some(rest)),
        None => (text, None),
    }
}

// What is wrong with a line as a row of fields.
fn layout_fault(place: Place, line: &[u8]) -> Option<Fault<'static>>
    ensures { (version : ℕ) → IfSome result (IsFaultIn place version line.now) }
{
    if matches!(place, Place::Ended) {
        return Some(Fault::Order(Form::End, Order::AfterEnd));
    }
    if line.is_empty() {
        return Some(Fault::Empty);
    }
    if line.ends_with(b"\r") {
        return Some(Fault::CarriageReturn);
    }
    match wide_space(line) {
        Some(space) => Some(Fault::Space(space)),
        None => None,
    }
}

// The first space that cannot stand where it is, or tab.
fn wide_space(line: &[u8]) -> Option<Space>
    ensures { IfSome result (IsSpace line.now) }
{
    if line.starts_with(b" ") {
        return Some(Space::First);
    }
    let mut last = 0;
    for (place, byte) in line.iter().enumerate() {
        if *byte == b'\t' {
            return Some(Space::Tab(place + 1));
        }
        if *byte == b' ' && last == b' ' {
            return Some(Space::Second(place + 1));
        }
        last = *byte;
    }
    if last == b' ' {
        Some(Space::Last(line.len()))
    } else {
        None
    }
}

// The first field that is missing, wrong or too many.
fn field_fault<'a>(
    alloc: Global,
    form: Form,
    fields: Option<&'a [u8]>,
) -> Result<Option<Fault<'a>>, AllocError>
    ensures { let texts = pieces_left (option_map (λ rest. rest.now) fields.entry) in
        IfOk result (λ found. MatchOption found (HasFields form texts ⊎ HasItems form texts) (IsFieldFault form texts)) }
{
    let row = form.fields();
    let least = form.least();
    let mut rest = fields;
    for (i, field) in row.iter().enumerate() {
        let Some(text) = rest else {
            if i < least {
                return Ok(Some(Fault::Missing(form, *field)));
            }
            return Ok(None);
        };
        let (text, after) = first_piece(text);
        if !field.reads(alloc, text)? {
            return Ok(Some(Fault::Wrong(form, *field, text)));
        }
        rest = after;
    }
    match rest {
        Some(text) => behind_fault(alloc, form, text),
        None => Ok(None),
    }
}

// What is wrong behind the fields of the row.
fn behind_fault<'a>(
    alloc: Global,
    form: Form,
    text: &'a [u8],
) -> Result<Option<Fault<'a>>, AllocError>
    ensures { (texts : List (List ℕ)) → HasRead (fields_of form) texts (pieces_of text.now)
        → IfOk result (λ found. MatchOption found (HasFields form texts ⊎ HasItems form texts) (IsFieldFault form texts)) }
{
    match form {
        Form::CreateObject => object_fault(alloc, text),
        _ => Ok(Some(Fault::Extra(form, text))),
    }
}
// The first field behind GATE that is wrong, or can not stand at its place.
fn object_fault<'a>(alloc: Global, fields: &'a [u8]) -> Result<Option<Fault<'a>>, AllocError>
    ensures { IfOk result (λ found. MatchOption found (AreAllItems (pieces_of fields.now)) (IsFaultBehind (pieces_of fields.now))) }
{
    let mut seen = Seen {
        symbols: Vec::new(alloc),
        links: 0,
    };
    let mut rest = Some(fields);
    while let Some(text) = rest {
        let (field, after) = first_piece(text);
        if let Some(fault) = seen.fault(field)? {
            return Ok(Some(fault));
        }
        rest = after;
    }
    Ok(None)
}

/// The most definitions and the most links of an object.
const MOST: usize = 64;

/// The definitions and links of an object up to a field.
#[derive(Drop)]
struct Seen<'a> {
    symbols: Vec<&'a [u8]>,
    links: usize,
}

impl<'a> Seen<'a> {
    // What is wrong with the next field.
    fn fault(&mut self, field: &'a [u8]) -> Result<Option<Fault<'a>>, AllocError>
        ensures { IfOk result (λ found. MatchOption found
            (IsSeenToo (map (λ s. s.now) self.old.symbols.items) (map (λ s. s.now) self.new.symbols.items) self.old.links self.new.links field.now)
            (IsItemFault (map (λ s. s.now) self.old.symbols.items) self.old.links field.now)) }
    {
        if is_definition(field) {
            self.definition_fault(field)
        } else if is_object_link(field) {
            Ok(self.link_fault(field))
        } else {
            Ok(Some(Fault::Wrong(Form::CreateObject, item_field(field), field)))
        }
    }

    fn definition_fault(&mut self, field: &'a [u8]) -> Result<Option<Fault<'a>>, AllocError>
        requires { is_definition_text field.now ≡ true }
        ensures { IfOk result (λ found. MatchOption found
            (IsSeenToo (map (λ s. s.now) self.old.symbols.items) (map (λ s. s.now) self.new.symbols.items) self.old.links self.new.links field.now)
            (IsItemFault (map (λ s. s.now) self.old.symbols.items) self.old.links field.now)) }
    {
        let symbol = symbol_of(field);
        if self.links > 0 {
            return Ok(Some(Fault::DefinitionBehindLink(field)));
        }
        if self.symbols.contains(&symbol) {
            return Ok(Some(Fault::DefinedTwice(symbol)));
        }
        if self.symbols.len() >= MOST {
            return Ok(Some(Fault::Extra(Form::CreateObject, field)));
        }
        self.symbols.push(symbol)?;
        Ok(None)
    }

    fn link_fault(&mut self, field: &'a [u8]) -> Option<Fault<'a>>
        requires link { is_object_link_text field.now ≡ true }
        requires definition { is_definition_text field.now ≡ false }
        ensures { MatchOption result
            (IsSeenToo (map (λ s. s.now) self.old.symbols.items) (map (λ s. s.now) self.new.symbols.items) self.old.links self.new.links field.now)
            (IsItemFault (map (λ s. s.now) self.old.symbols.items) self.old.links field.now) }
    {
        if self.links >= MOST {
            return Some(Fault::Extra(Form::CreateObject, field));
        }
        self.links += 1;
        None
    }
}

// What a text behind GATE is to be.
fn item_field(field: &[u8]) -> Field
    ensures { result ≡ item_field field.now }
{
    if after(b"d:", field).is_some() {
        Field::Definition
    } else if after(b"l:", field).is_some() {
        Field::ObjectLink
    } else {
        Field::DefinitionOrLink
    }
}

// The symbol of a definition.
fn symbol_of(field: &[u8]) -> &[u8]
    ensures { result.now ≡ symbol_of field.now }
{
    let said = match cut(b':', field) {
        Some((_, said)) => said,
        None => field,
    };
    match cut(b':', said) {
        Some((symbol, _)) => symbol,
        None => said,
    }
}

impl<'a> Fault<'a> {
    /// The kind of line that is shown as an example.
    pub(crate) fn form(&self) -> Option<Form> {
        match self {
            Fault::Missing(form, _) | Fault::Wrong(form, _, _) | Fault::Extra(form, _) => {
                Some(*form)
            }
            Fault::DefinitionBehindLink(_) | Fault::DefinedTwice(_) => Some(Form::CreateObject),
            Fault::TextEnds(_)
            | Fault::NoNewline
            | Fault::Empty
            | Fault::CarriageReturn
            | Fault::Space(_)
            | Fault::UnknownWord(_)
            | Fault::Order(_, _)
            | Fault::Unexplained => None,
        }
    }
}

/// How a fault is put into words.
#[derive(Clone, Copy)]
enum Words<'a> {
    /// Words alone, in two parts.
    Alone(&'static str, &'static str),
    /// A text of the line, between words.
    Around(&'static str, &'a [u8], &'static str),
    /// A field, what it is to be, its text, and what is wrong in that.
    Wrong(&'static str, &'static str, &'a [u8], Option<Cause<'a>>),
    /// A space or a tab where none can be.
    Space(Space),
}

impl<'a> Fault<'a> {
    fn words(&self) -> Words<'a> {
        match *self {
            Fault::TextEnds(place) => {
                Words::Alone("the text ends here; expected: ", place.next())
            }
            Fault::NoNewline => Words::Alone("the line does not end with a newline", ""),
            Fault::Empty => Words::Alone("an empty line; no line is empty", ""),
            Fault::CarriageReturn => {
                Words::Alone("a carriage return; a line ends with a newline alone", "")
            }
            Fault::Space(space) => Words::Space(space),
            Fault::UnknownWord(word) => Words::Around("no line begins with ", word, ""),
            Fault::Order(_, order) => Words::Alone(order.words(), ""),
            Fault::Missing(_, field) => Words::Alone(field.name(), " is missing"),
            Fault::Wrong(_, field, text) => {
                Words::Wrong(field.name(), field.wanted(), text, cause_of(field, text))
            }
            Fault::Extra(_, text) => Words::Around("too much: ", text, ""),
            Fault::DefinitionBehindLink(field) => Words::Around(
                "",
                field,
                " is after a link; definitions stand before links",
            ),
            Fault::DefinedTwice(symbol) => Words::Around(
                "the symbol ",
                symbol,
                " is defined twice",
            ),
            Fault::Unexplained => Words::Alone("this line cannot stand here", ""),
        }
    }
}

impl<'a> Display for Fault<'a> {
    fn fmt<W: Write>(&self, f: &mut Formatter<W>) -> fmt::Result {
        if let Some(form) = self.form() {
            write!(f, "{} wants {}; ", form.word(), form.shape())?;
        }
        self.words().fmt(f)
    }
}

impl<'a> Display for Words<'a> {
    fn fmt<W: Write>(&self, f: &mut Formatter<W>) -> fmt::Result {
        match self {
            Words::Alone(words, more) => write!(f, "{words}{more}"),
            Words::Around(before, text, behind) => write!(f, "{before}`{}`{behind}", Shown(text)),
            Words::Wrong(field, wanted, text, cause) => {
                write!(f, "{field} must be {wanted}, but is `{}`", Shown(text))?;
                match cause {
                    Some(cause) => write!(f, ": {cause}"),
                    None => Ok(()),
                }
            }
            Words::Space(space) => {
                write!(
                    f,
                    "{space}; fields are separated by exactly one space, and no line begins or ends with one"
                )
            }
        }
    }
}

impl Display for Space {
    fn fmt<W: Write>(&self, f: &mut Formatter<W>) -> fmt::Result {
        match self {
            Space::Tab(column) => write!(f, "a tab in column {column}"),
            Space::Second(column) => write!(f, "a second space in column {column}"),
            Space::First => f.write_str("the line begins with a space"),
            Space::Last(column) => write!(f, "the line ends with a space, in column {column}"),
        }
    }
}
