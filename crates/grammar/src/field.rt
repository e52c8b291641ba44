// Fields of a line: parts of it, by what they have to be.
ghost use Rattle.std.specs.Prelude.{◌≡◌, ◌+◌, ◌≤◌, length, IfOk};
ghost use Rattle.grammar.specs.Fields.{field_form, field_part, ReadsPart};
ghost use Rattle.grammar.specs.declared.value.Form.TheVariants as form;

use crate::fault::{Cause, LineFault, LineProblem};
use crate::part::Part;
use crate::place::InField;
use crate::value::{Form, Value};
use spelling::{read_address, read_decision, read_number, read_prefix, read_range, read_set};

#[derive(Clone, Copy)]
pub(crate) enum Field<'a> {
    Number {
        part: Part<'a>,
        least: u32,
        most: u32,
    },
    Decision(Part<'a>),
    Set(Part<'a>),
    Address(Part<'a>),
    Prefix(Part<'a>),
    Range {
        part: Part<'a>,
        most: u32,
    },
}

impl<'a> Field<'a> {
    pub(crate) fn new(form: Form, part: Part<'a>) -> Field<'a>
        ensures { (field_form result ≡ form) × (field_part result ≡ part.entry) }
    {
        match form {
            Form::Number { least, most } => Field::Number { part, least, most },
            Form::Decision => Field::Decision(part),
            Form::Set => Field::Set(part),
            Form::Address => Field::Address(part),
            Form::Prefix => Field::Prefix(part),
            Form::Range { most } => Field::Range { part, most },
        }
    }

    // The value, or what is wrong and where in the line.
    pub(crate) fn read(self) -> Result<Value, LineFault>
        ensures { ReadsPart (field_form self.entry) (field_part self.entry) result }
    {
        match self {
            Field::Number { part, least, most } => part.number(least, most),
            Field::Decision(part) => Ok(Value::Decision(read_decision(part.text).in_field(part)?)),
            Field::Set(part) => Ok(Value::Set(read_set(part.text).in_field(part)?)),
            Field::Address(part) => Ok(Value::Address(read_address(part.text).in_field(part)?)),
            Field::Prefix(part) => Ok(Value::Prefix(read_prefix(part.text).in_field(part)?)),
            Field::Range { part, most } => {
                Ok(Value::Range(read_range(part.text, most).in_field(part)?))
            }
        }
    }
}

impl Part<'_> {
    // A number of at least `least` and at most `most`.
    fn number(self, least: u32, most: u32) -> Result<Value, LineFault>
        ensures { ReadsPart (form.Number least most) self.entry result }
    {
        let number = read_number(self.text, most).in_field(self)?;
        if number < least {
            return Err(self.fault(Cause::Line(LineProblem::TooSmall), 0));
        }
        Ok(Value::Number(number as usize))
    }
}
